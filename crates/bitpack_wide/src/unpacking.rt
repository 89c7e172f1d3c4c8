//! Unpacks the ids of wide sets.
//! FORMAT.md, "Wide sets".

ghost use Rattle.std.specs.Prelude.{◌≡◌, ◌≢◌, ◌+◌, ◌*◌, ◌^◌, ◌<◌, ◌≤◌, drop, length, map, take};
ghost use Rattle.bitpack_slices.specs.Slices.{quads_of};
ghost use Rattle.bitpack_wide.specs.Directory as directory;
ghost use Rattle.bitpack_wide.specs.Directory.{before};
ghost use Rattle.bitpack_wide.specs.Forms.{directory_ids, form_ids, spread_ids};
ghost use Rattle.bitpack_wide.specs.Reads.{paired};

use crate::directory::{Directory, count_before, high_at, sum_at};
use crate::form::Form;
use crate::spread::{PART, Spread, id_of};
use bitpack_slices::integers::id_at;

impl<'a> Form<'a> {
    /// Writes ids from a position on, as many as the slice has.
    pub(crate) fn unpack_from(self, from: usize, out: &mut [u64])
        requires begin { from < length (form_ids self) }
        requires within { from + length out.old ≤ length (form_ids self) }
        ensures { out.new ≡ take (length out.old) (drop from (form_ids self.entry)) }
    {
        match self {
            Form::Words(directory) => directory.unpack_from(from, out),
            Form::Spread(spread) => spread.unpack_from(from, out),
        }
    }
}

impl<'a> Directory<'a> {
    /// Writes ids from a position on, as many as the slice has.
    pub(crate) fn unpack_from(self, from: usize, out: &mut [u64])
        requires begin { from < self.count }
        requires within { from + length out.old ≤ self.count }
        ensures { out.new ≡ take (length out.old) (drop from (directory_ids self.entry)) }
    {
        let mut lows = [0; PART];
        let mut word = self.word_of(from);
        let mut done = 0;
        while done < out.len() {
            let left = sum_at(self.words, self.rest, word) as usize - (from + done);
            let more = left.min(out.len() - done).min(PART);
            self.unpack_with(
                word,
                from + done,
                &mut lows[..more],
                &mut out[done..done + more],
            );
            done += more;
            word = next_word(word, more, left);
        }
    }

    /// Writes ids of a high word from a position on, as many as the slice has, by way of their low words.
    #[inline(always)]
    fn unpack_with(self, word: usize, from: usize, lows: &mut [u32], out: &mut [u64])
        requires word { word < self.words }
        requires begin { before (directory.sum_at self.words self.rest.now) word ≤ from }
        requires below { from + length out.old ≤ directory.sum_at self.words self.rest.now word }
        requires room { length lows.old ≡ length out.old }
        ensures { out.new ≡ take (length out.old) (drop from (directory_ids self.entry)) }
    {
        let left = from - count_before(self.words, self.rest, word) as usize;
        self.set(word).copy_range(left, lows);
        widen(high_at(self.words, self.rest, word), lows, out);
    }
}

/// The high word after one if all of its ids that are left are written, and else the same.
#[inline(always)]
fn next_word(word: usize, more: usize, left: usize) -> usize
    requires { word < 2 ^ 32 }
    ensures last { more ≡ left → result ≡ word + 1 }
    ensures other { more ≢ left → result ≡ word }
{
    if more == left { word + 1 } else { word }
}

/// Writes the ids with a high word and these low words.
#[inline(always)]
pub(crate) fn widen(high: u32, lows: &[u32], out: &mut [u64])
    requires { length out.old ≡ length lows.now }
    ensures { out.new ≡ map (λ low. high * 2 ^ 32 + low) lows.now }
{
    for index in 0..lows.len() {
        out[index] = id_of(high, lows[index]);
    }
}

impl<'a> Spread<'a> {
    /// Writes ids from a position on, as many as the slice has.
    pub(crate) fn unpack_from(self, from: usize, out: &mut [u64])
        requires within { from + length out.old ≤ length (spread_ids self) }
        ensures { out.new ≡ take (length out.old) (drop from (spread_ids self.entry)) }
    {
        let mut done = 0;
        while done < out.len() {
            let more = (out.len() - done).min(PART);
            self.unpack_part(from + done, &mut out[done..done + more]);
            done += more;
        }
    }

    /// Writes ids from a position on, as many as the slice has.
    fn unpack_part(self, from: usize, out: &mut [u64])
        requires within { from + length out.old ≤ length (spread_ids self) }
        requires room { length out.old ≤ 1024 }
        ensures { out.new ≡ take (length out.old) (drop from (spread_ids self.entry)) }
    {
        let mut highs = [0; PART];
        let count = out.len();
        self.unpack_with(from, &mut highs[..count], out);
    }

    // By way of the high words.
    #[inline(always)]
    fn unpack_with(self, from: usize, highs: &mut [u32], out: &mut [u64])
        requires within { from + length out.old ≤ length (spread_ids self) }
        requires room { length highs.old ≡ length out.old }
        ensures { out.new ≡ take (length out.old) (drop from (spread_ids self.entry)) }
    {
        let count = out.len();
        self.column.copy_range(from, highs);
        pair(highs, &self.lows[4 * from..4 * (from + count)], out);
    }
}

/// Writes the ids with these high words and low words.
#[inline(always)]
fn pair(highs: &[u32], lows: &[u8], out: &mut [u64])
    requires len { length out.old ≡ length highs.now }
    requires lows { length lows.now ≡ 4 * length highs.now }
    ensures { out.new ≡ paired highs.now (quads_of lows.now) }
{
    for index in 0..highs.len() {
        out[index] = id_of(highs[index], id_at(lows, index));
    }
}
