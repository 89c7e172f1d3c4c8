//! A column, read without unpacking all of it. It is zero-copy: it borrows its bytes.
//!
//! FORMAT.md, "Columns".

mod bounds;
mod copying;
mod getting;
mod ranges;
mod search;
mod within;

ghost use Rattle.std.specs.Prelude.{◌≡◌};
ghost use Rattle.bitpacking.specs.Bits.{AreBytes};
ghost use Rattle.bitpack_columns.specs.Sound.{States};

use crate::column_error::ColumnError;
use crate::column_kind::ColumnKind;
use crate::opening::{read_parts, test_column};
use crate::reads::ColumnBytes;

/// How many values a block has.
pub(crate) const BLOCK_LEN: usize = 128;

/// What the first bytes of an encoded column state, and what is after them.
///
/// A caller who stores it beside the bytes has the column again by [`Column::from_parts`].
#[derive(Clone, Copy)]
pub struct Parts<'a> {
    /// Whether the values are in order.
    pub kind: ColumnKind,
    /// How many values there are.
    pub count: usize,
    /// The first value of a sorted column, else 0.
    pub first: u32,
    /// The bytes after these.
    pub rest: ColumnBytes<'a>,
}

/// A column whose bytes were tested when it was opened, so that reading it tests nothing again and cannot fail.
#[derive(Clone, Copy)]
pub struct Column<'a> {
    bytes: ColumnBytes<'a>,
    pub(crate) kind: ColumnKind,
    pub(crate) count: usize,
    pub(crate) first: u32,
    // What is after the count and the first value.
    pub(crate) rest: ColumnBytes<'a>,
    ghost are_bytes: { AreBytes bytes.bytes.now },
    ghost states: { States bytes.bytes.now kind count first rest.bytes.now },
}

impl<'a> Column<'a> {
    ghost use Rattle.std.specs.Prelude.{◌↔◌, [], IfOk, IsTrue, None, length};
    ghost use Rattle.bitpack_columns.specs.Columns.{IsColumn, encoding};
    ghost use Rattle.bitpack_columns.specs.Errors.{Finds};
    ghost use Rattle.bitpack_columns.specs.Faults.{fault};
    ghost use Rattle.bitpack_columns.specs.Opened.{blocks_of, encoding_of, kind_of, values};
    ghost use Rattle.bitpack_columns.specs.Stated.{kind_in};

    /// Opens an encoded column. Tests all bytes, accepts any, and allocates nothing.
    pub fn open(bytes: &'a [u8]) -> Result<Column<'a>, ColumnError>
        // Bytes with a fault are refused for the first, and bytes without one are opened.
        // claim: columns/1 opens exactly a column's bytes, as that column; names others' first fault
        ensures fault { Finds result (fault bytes.now) }
        ensures bytes { IfOk result (λ column. encoding_of column ≡ bytes.now) }
        ensures kind { IfOk result (λ column. kind_of column ≡ kind_in bytes.now) }
        // The bytes are the encoding of this column.
        ensures column { IfOk result (λ column. IsColumn (kind_of column) (values column)) }
        ensures encoding { IfOk result (λ column. encoding (kind_of column) (values column) ≡ bytes.now) }
    {
        let parts = test_column(bytes)?;
        Ok(Column {
            bytes: ColumnBytes::new(bytes),
            kind: parts.kind,
            count: parts.count,
            first: parts.first,
            rest: parts.rest,
        })
    }

    /// The column whose bytes were opened before: they are not tested again. It is for a caller who stores only the bytes of columns that
    /// were opened.
    pub fn of_tested(bytes: &'a [u8]) -> Column<'a>
        // claim: columns/3 as `sets/11`
        requires sound { fault bytes.now ≡ None }
        ensures bytes { encoding_of result ≡ bytes.now }
        ensures kind { kind_of result ≡ kind_in bytes.now }
        ensures column { IsColumn (kind_of result) (values result) }
        ensures encoding { encoding (kind_of result) (values result) ≡ bytes.now }
    {
        Column::from_parts(bytes, read_parts(bytes))
    }

    /// The column of these bytes, whose parts were taken from it when they were opened. Reads none of the bytes.
    pub fn from_parts(bytes: &'a [u8], parts: Parts<'a>) -> Column<'a>
        requires { States bytes.now parts.kind parts.count parts.first parts.rest.bytes.now }
        ensures bytes { encoding_of result ≡ bytes.now }
        ensures kind { kind_of result ≡ kind_in bytes.now }
        ensures column { IsColumn (kind_of result) (values result) }
        ensures encoding { encoding (kind_of result) (values result) ≡ bytes.now }
    {
        Column {
            bytes: ColumnBytes::new(bytes),
            kind: parts.kind,
            count: parts.count,
            first: parts.first,
            rest: parts.rest,
        }
    }

    /// What opening this column found.
    pub fn parts(&self) -> Parts<'a>
        ensures states { States (encoding_of self.now) result.kind result.count result.first result.rest.bytes.now }
        ensures kind { result.kind ≡ kind_of self.now }
        ensures count { result.count ≡ length (values self.now) }
    {
        Parts {
            kind: self.kind,
            count: self.count,
            first: self.first,
            rest: self.rest,
        }
    }

    /// Whether the values are in order.
    pub fn kind(&self) -> ColumnKind
        ensures { result ≡ kind_of self.now }
    {
        self.kind
    }

    /// The number of values.
    pub fn len(&self) -> usize
        ensures { result ≡ length (values self.now) }
    {
        self.count
    }

    /// How many whole blocks of 128 values there are. The other values, fewer than 128, are the tail.
    // claim: columns/2 kind, number of values, of whole blocks
    pub fn blocks(&self) -> usize
        ensures { result ≡ blocks_of self.now }
    {
        self.count / BLOCK_LEN
    }

    /// Whether there is no value.
    pub fn is_empty(&self) -> bool
        ensures { IsTrue result ↔ (values self.now ≡ []) }
    {
        self.count == 0
    }
}
