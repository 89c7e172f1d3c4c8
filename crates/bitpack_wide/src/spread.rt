//! Wide sets whose ids are spread out: a sorted column of the high words, and the low words.
//!
//! FORMAT.md, "Wide sets", after n:
//!
//! ```text
//! a sorted column of n high words | n low words of four bytes
//! ```

ghost use Rattle.std.specs.Prelude.{◌≡◌, ◌≢◌, ◌+◌, ◌*◌, ◌-◌, ◌/◌, ◌%◌, ◌^◌, ◌<◌, ◌≤◌, ◌==◌, if◌then◌else◌, IfOk, None, OnOk, Some, drop, length, slice_index, take};
ghost use Rattle.std.specs.Option.{option_map, option_or};
ghost use Rattle.bitpacking.specs.Bits.{AreBytes};
ghost use Rattle.bitpack_groups.specs.Faults.{FindsFault};
ghost use Rattle.bitpack_slices.specs.Bodies.{IsRising};
ghost use Rattle.bitpack_slices.specs.Props.{rising_prop};
ghost use Rattle.bitpack_slices.specs.Slices.{first_fall, quads_of};
ghost use Rattle.bitpack_columns.specs.declared.column_kind.ColumnKind.TheVariants.{Sorted};
ghost use Rattle.bitpack_columns.specs.Opened.{encoding_of, kind_of, values};
ghost use Rattle.bitpack_wide.specs.inner.Parts.{IsPart};
ghost use Rattle.bitpack_wide.specs.Faults.{column_fault, kind_fault, spread_fault};
ghost use Rattle.bitpack_wide.specs.Reads.{column_in, paired};
ghost use Rattle.bitpack_wide.specs.Wide.{words_of};

use crate::wide_error::WideError;
use bitpack_columns::{Column, ColumnKind};
use bitpack_slices::integers::id_at;

/// How many high words are unpacked at once.
pub(crate) const PART: usize = 1024;

/// What a high word counts.
pub(crate) const WORD: u64 = 1 << 32;

/// A wide set that is spread out. Its bytes were tested.
#[derive(Clone, Copy)]
pub(crate) struct Spread<'a> {
    // The high words.
    pub(crate) column: Column<'a>,
    // The low words, four bytes each.
    pub(crate) lows: &'a [u8],
    ghost are_bytes: { AreBytes lows.now },
    ghost sorted: { kind_of column ≡ Sorted },
    ghost long: { length lows.now ≡ 4 * length (values column) },
    ghost rising: { IsRising 0 (2 ^ 64) (paired (values column) (quads_of lows.now)) } by { Prim.hlevel rising_prop },
}

/// The id with this high word and this low word.
#[inline(always)]
pub(crate) fn id_of(high: u32, low: u32) -> u64
    ensures { result ≡ high * 2 ^ 32 + low }
{
    high as u64 * WORD + low as u64
}

/// Tests what is after the count of `count` ids.
#[tactic(auto, unfolding(crate::specs::Faults::spread_fault))]
pub(crate) fn test_spread(count: usize, rest: &[u8]) -> Result<(), WideError>
    requires few { count ≤ 2 ^ 28 }
    ensures { FindsFault result (spread_fault count rest.now) }
{
    if rest.len() < 4 * count {
        return Err(WideError::Short);
    }
    let end = rest.len() - 4 * count;
    let column = open_column(count, rest)?;
    let words = test_order(column, &rest[end..])?;
    if count > 0 && count >= 8 * words {
        return Err(WideError::LooseForm);
    }
    Ok(())
}

/// Tests the column of the high words.
#[tactic(auto, unfolding(crate::specs::Faults::column_fault))]
fn open_column<'a>(count: usize, rest: &'a [u8]) -> Result<Column<'a>, WideError>
    requires room { 4 * count ≤ length rest.now }
    ensures fault { FindsFault result (column_fault count rest.now) }
    ensures bytes { IfOk result (λ column. encoding_of column ≡ column_in count rest.now) }
    ensures kind { IfOk result (λ column. kind_of column ≡ Sorted) }
    ensures count { IfOk result (λ column. length (values column) ≡ count) }
{
    match Column::open(&rest[..rest.len() - 4 * count]) {
        Ok(column) => {
            test_kind(count, column)?;
            Ok(column)
        }
        Err(error) => Err(WideError::Column(error)),
    }
}

/// Tests the kind of the column, and its count of values.
fn test_kind(count: usize, column: Column<'_>) -> Result<(), WideError>
    ensures fault { FindsFault result
        (option_or (kind_fault (kind_of column.entry)) (if length (values column.entry) == count then None else Some (WideError.BadSum 0))) }
    ensures kind { OnOk result (kind_of column.entry ≡ Sorted) }
    ensures count { OnOk result (length (values column.entry) ≡ count) }
{
    match column.kind() {
        ColumnKind::Plain => Err(WideError::BadKind(0)),
        ColumnKind::Sorted => {
            if column.len() != count {
                return Err(WideError::BadSum(0));
            }
            Ok(())
        }
    }
}

/// Tests whether the ids with these high words and low words increase. Returns how many high words there are.
fn test_order(column: Column<'_>, lows: &[u8]) -> Result<usize, WideError>
    requires long { length lows.now ≡ 4 * length (values column) }
    ensures fault { FindsFault result (option_map WideError.NotSorted (first_fall 0 (paired (values column.entry) (quads_of lows.now)))) }
    ensures few { IfOk result (λ words. words ≤ length (values column.entry)) }
    ensures words { IfOk result (λ words. words ≡ length (words_of (paired (values column.entry) (quads_of lows.now)))) }
{
    let count = column.len();
    if count == 0 {
        return Ok(0);
    }
    let mut highs = [0; PART];
    let mut last = id_of(high_at(column, 0, &mut highs), id_at(lows, 0));
    let mut words = 1;
    for position in 1..count {
        let id = id_of(high_at(column, position, &mut highs), id_at(lows, position));
        if id <= last {
            return Err(WideError::NotSorted(position));
        }
        words += changes(id / WORD, last / WORD);
        last = id;
    }
    Ok(words)
}

/// The high word at a position. Its part is unpacked at the first position of it, and lent at the others.
#[inline(always)]
fn high_at(column: Column<'_>, position: usize, highs: &mut [u32]) -> u32
    requires room { length highs.old ≡ 1024 }
    requires within { position < length (values column) }
    requires part { 0 < position % 1024 → IsPart (values column) (position / 1024) highs.old }
    ensures part { IsPart (values column.entry) (position / 1024) highs.new }
    ensures high { result ≡ slice_index (values column.entry) position }
{
    if position % PART == 0 {
        column.copy_range(position, highs);
    }
    highs[position % PART]
}

/// 1 if a high word differs from the one before, else 0.
#[inline(always)]
fn changes(high: u64, before: u64) -> usize
    ensures same { high ≡ before → result ≡ 0 }
    ensures other { high ≢ before → result ≡ 1 }
{
    (high != before) as usize
}
