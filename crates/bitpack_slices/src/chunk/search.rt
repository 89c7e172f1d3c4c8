//! Looks numbers up in bodies.
//! FORMAT.md, "Chunks".

ghost use Rattle.std.specs.Prelude.{◌≡◌, ℕ, ◌+◌, ◌*◌, ◌/◌, ◌^◌, ◌<◌, ◌≤◌, ◌++◌, drop, length, map, replicate, slice_get, slice_index, take};
ghost use Rattle.bitpack_slices.specs.Reads.{has, rank};
ghost use Rattle.bitpack_slices.specs.Bodies.{IsRising};
ghost use Rattle.bitpack_slices.specs.Selections.{numbers_at};
ghost use Rattle.bitpack_slices.specs.Slices.{numbers_in, pairs_of, slice_len, slice_numbers, slices_len};

use crate::chunk::parts::Parts;
use crate::slice::search::{in_slice, next_in_slice, rank_in_slice, select_in_slice};
use crate::slice::testing::count_numbers;
use crate::slice::{Slice, byte_len, size_of};

impl<'a> Parts<'a> {
    ghost use Rattle.bitpack_slices.specs.Parts.{numbers_in_parts};

    /// Whether the body has this number.
    #[inline(always)]
    pub(crate) fn contains(self, number: u16) -> bool
        ensures { result ≡ has number (numbers_in_parts self.entry) }
    {
        let high = (number / 256) as u8;
        if !in_slice(self.counts.len(), self.highs, high) {
            return false;
        }
        let index = rank_in_slice(self.counts.len(), self.highs, high);
        self.slice_at(index).contains((number % 256) as u8)
    }

    /// How many numbers are below `number`.
    #[inline(always)]
    pub(crate) fn rank(self, number: u16) -> usize
        ensures { result ≡ rank number (numbers_in_parts self.entry) }
    {
        let high = (number / 256) as u8;
        let index = rank_in_slice(self.counts.len(), self.highs, high);
        let before = count_numbers(&self.counts[..index]);
        if !in_slice(self.counts.len(), self.highs, high) {
            return before;
        }
        let slice = self.slice_at(index);
        before + slice.rank((number % 256) as u8)
    }

    /// How many numbers are below `number`, and the first that is not, if there is one.
    #[inline(always)]
    pub(crate) fn seek(self, number: u16) -> (usize, Option<u16>)
        ensures rank { result.0 ≡ rank number (numbers_in_parts self.entry) }
        ensures first { result.1 ≡ slice_get (numbers_in_parts self.entry) result.0 }
    {
        let high = (number / 256) as u8;
        let index = rank_in_slice(self.counts.len(), self.highs, high);
        let before = count_numbers(&self.counts[..index]);
        let offset = self.offset_of(index);
        if !in_slice(self.counts.len(), self.highs, high) {
            return (before, self.first_from(index, offset, high as usize));
        }
        let slice = self.slice_from(index, offset);
        let low = (number % 256) as u8;
        let left = slice.rank(low);
        if left >= slice.count {
            let end = slice.start + byte_len(slice.count);
            return (
                before + left,
                self.first_from(index + 1, end, high as usize + 1),
            );
        }
        let first = slice.next(left, low) as u16;
        (before + left, Some(256 * high as u16 + first))
    }

    /// The first number of the slice with this index, which begins at `offset`, if there is one.
    #[inline(always)]
    pub(crate) fn first_at(self, index: usize, offset: usize) -> Option<u16>
        requires within { index ≤ length self.counts.now }
        requires offset { offset ≡ slices_len (take index self.counts.now) }
        ensures { result ≡ slice_get (numbers_in_parts self.entry) (numbers_in (take index self.entry.counts.now)) }
    {
        if index >= self.counts.len() {
            return None;
        }
        let slice = self.slice_from(index, offset);
        let high = select_in_slice(self.counts.len(), self.highs, index) as u16;
        Some(256 * high + select_in_slice(slice.count, slice.bytes(), 0) as u16)
    }

    /// The first number of the slice with this index, which begins at `offset`, if there is one. As many high bytes are below `high`.
    #[inline(always)]
    pub(crate) fn first_from(self, index: usize, offset: usize, high: usize) -> Option<u16>
        requires within { index ≤ length self.counts.now }
        requires offset { offset ≡ slices_len (take index self.counts.now) }
        requires high { index ≡ rank high (slice_numbers (length self.counts.now) self.highs.now) }
        ensures { result ≡ slice_get (numbers_in_parts self.entry) (numbers_in (take index self.entry.counts.now)) }
    {
        if index >= self.counts.len() {
            return None;
        }
        let slice = self.slice_from(index, offset);
        let first = next_in_slice(self.counts.len(), self.highs, index, high) as u16;
        Some(256 * first + slice.next(0, 0) as u16)
    }

    /// The number at this position.
    #[inline(always)]
    pub(crate) fn select(self, position: usize) -> u16
        requires within { position < numbers_in self.counts.now }
        ensures { result ≡ slice_index (numbers_in_parts self.entry) position }
    {
        let (index, left) = slice_of(self.counts, position);
        let slice = self.slice_at(index);
        let high = select_in_slice(self.counts.len(), self.highs, index) as u16;
        256 * high + select_in_slice(slice.count, slice.bytes(), left) as u16
    }

    /// The slice with this index.
    #[inline(always)]
    fn slice_at(self, index: usize) -> Slice<'a>
        requires { index < length self.counts.now }
        ensures count { result.count ≡ slice_index self.entry.counts.now index + 1 }
        ensures start { result.start ≡ slices_len (take index self.entry.counts.now) }
        ensures numbers { numbers_at result ≡ slice_numbers (slice_index self.entry.counts.now index + 1)
            (take (slice_len (slice_index self.entry.counts.now index + 1)) (drop (slices_len (take index self.entry.counts.now)) self.entry.slices.now)) }
    {
        self.slice_from(index, self.offset_of(index))
    }

    /// The slice with this index, which begins at `offset`.
    #[inline(always)]
    pub(crate) fn slice_from(self, index: usize, offset: usize) -> Slice<'a>
        requires within { index < length self.counts.now }
        requires offset { offset ≡ slices_len (take index self.counts.now) }
        ensures count { result.count ≡ slice_index self.entry.counts.now index + 1 }
        ensures start { result.start ≡ offset }
        ensures numbers { numbers_at result ≡ slice_numbers (slice_index self.entry.counts.now index + 1)
            (take (slice_len (slice_index self.entry.counts.now index + 1)) (drop offset self.entry.slices.now)) }
    {
        Slice {
            slices: self.slices,
            start: offset,
            count: self.counts[index] as usize + 1,
        }
    }

    /// Where the slice with this index begins, or the slices end. If each slice is bits, no count is read.
    #[inline(always)]
    fn offset_of(self, index: usize) -> usize
        requires { index ≤ length self.counts.now }
        ensures { result ≡ slices_len (take index self.entry.counts.now) }
    {
        if self.slices.len() == 32 * self.counts.len() {
            return 32 * index;
        }
        offset_of_slice(self.counts, index)
    }
}

/// How many counts are added up at once.
const STEP: usize = 16;

/// A slice that is not after the one with the number at a position, and how many numbers are from it to there. It passes as many slices at once as
/// a step has, while that many are left and come before the number. Each count less 1 is given.
fn step_of(counts: &[u8], position: usize) -> (usize, usize)
    requires { position < numbers_in counts.now }
    ensures slice { result.0 < length counts.now }
    ensures position { numbers_in (take result.0 counts.now) + result.1 ≡ position }
{
    let mut index = 0;
    let mut left = position;
    while counts.len() - index >= STEP {
        let numbers = count_numbers(&counts[index..index + STEP]);
        if left < numbers {
            return (index, left);
        }
        left -= numbers;
        index += STEP;
    }
    (index, left)
}

/// The slice that has the number at a position, and the position of the number in it. Each count less 1 is given.
pub(crate) fn slice_of(counts: &[u8], position: usize) -> (usize, usize)
    requires { position < numbers_in counts.now }
    ensures slice { result.0 < length counts.now }
    ensures own { result.1 ≤ slice_index counts.now result.0 }
    ensures position { numbers_in (take result.0 counts.now) + result.1 ≡ position }
{
    let (mut index, mut left) = step_of(counts, position);
    while left > counts[index] as usize {
        left -= counts[index] as usize + 1;
        index += 1;
    }
    (index, left)
}

/// The index of the first byte of a slice among slices end to end. Each count less 1 is given. The counts are added 32 at once, and the last ones by
/// masks: a loop over these takes a number of turns that is hard to predict.
#[inline(never)]
pub(crate) fn offset_of_slice(counts: &[u8], index: usize) -> usize
    requires within { index ≤ length counts.now }
    requires few { length counts.now ≤ 256 }
    ensures { result ≡ slices_len (take index counts.now) }
{
    let whole = index / WINDOW * WINDOW;
    if counts.len() - whole < WINDOW {
        return size_of_slices(&counts[..index]);
    }
    let last = size_of_first(&counts[whole..whole + WINDOW], index % WINDOW);
    size_of_slices(&counts[..whole]) + last
}

/// How many counts are added with masks.
const WINDOW: usize = 32;

/// How many bytes slices have. Each count less 1 is given.
#[inline(always)]
fn size_of_slices(counts: &[u8]) -> usize
    requires few { length counts.now ≤ 256 }
    ensures { result ≡ slices_len counts.now }
{
    let mut sum: u16 = 0;
    for less in counts {
        sum += size_of(*less) as u16;
    }
    sum as usize
}

/// How many bytes the first of 32 slices have. Each count less 1 is given. It adds 0 for a later slice, and takes no branch.
#[inline(always)]
fn size_of_first(counts: &[u8], many: usize) -> usize
    requires all { length counts.now ≡ 32 }
    requires few { many ≤ 32 }
    ensures few { result ≤ 1024 }
    ensures size { result ≡ slices_len (take many counts.now) }
{
    let masks = masks_of_first(many);
    let mut sum: u16 = 0;
    for i in 0..WINDOW {
        sum += (size_of(counts[i]) & masks[i]) as u16;
    }
    sum as usize
}

/// Of 32 bytes the first have all bits, the others none.
#[inline(always)]
fn masks_of_first(many: usize) -> &'static [u8]
    requires { many ≤ 32 }
    ensures len { length result.now ≡ 32 }
    ensures all { (k : ℕ) → k < many → slice_index result.now k ≡ 255 }
    ensures none { (k : ℕ) → many ≤ k → k < 32 → slice_index result.now k ≡ 0 }
{
    &masks()[WINDOW - many..2 * WINDOW - many]
}

#[inline(always)]
fn masks() -> &'static [u8; 64]
    ensures { result.now ≡ replicate 32 255 ++ replicate 32 0 }
{
    &MASKS
}

static MASKS: [u8; 2 * WINDOW] = [
    255, 255, 255, 255, 255, 255, 255, 255, 255, 255, 255, 255, 255, 255, 255, 255, 255, 255, 255,
    255, 255, 255, 255, 255, 255, 255, 255, 255, 255, 255, 255, 255, 0, 0, 0, 0, 0, 0, 0, 0, 0, 0,
    0, 0, 0, 0, 0, 0, 0, 0, 0, 0, 0, 0, 0, 0, 0, 0, 0, 0, 0, 0, 0, 0,
];

/// The number at this position of a body of numbers.
#[inline(always)]
pub fn number_at(body: &[u8], position: usize) -> u16
    requires { position < length body.now / 2 }
    ensures { result ≡ slice_index (pairs_of body.now) position }
{
    let bytes = &body[2 * position..2 * position + 2];
    u16::from_le_bytes([bytes[0], bytes[1]])
}

/// How many numbers of a body of numbers are below this one, by halves.
pub fn rank_in_numbers(body: &[u8], number: u16) -> usize
    requires { IsRising 0 65536 (pairs_of body.now) }
    ensures { result ≡ rank number (pairs_of body.now) }
{
    let mut low = 0;
    let mut left = body.len() / 2;
    while left > 0 {
        let half = left / 2;
        if number_at(body, low + half) < number {
            low += half + 1;
            left -= half + 1;
        } else {
            left = half;
        }
    }
    low
}

/// How many numbers of a body of numbers are below this one, and the first that is not, if there is one.
pub(crate) fn seek_in_numbers(body: &[u8], number: u16) -> (usize, Option<u16>)
    requires { IsRising 0 65536 (pairs_of body.now) }
    ensures rank { result.0 ≡ rank number (pairs_of body.now) }
    ensures first { result.1 ≡ slice_get (pairs_of body.now) result.0 }
{
    let position = rank_in_numbers(body, number);
    if position < body.len() / 2 {
        (position, Some(number_at(body, position)))
    } else {
        (position, None)
    }
}

/// Whether a body of numbers has this one.
pub fn in_numbers(body: &[u8], number: u16) -> bool
    requires { IsRising 0 65536 (pairs_of body.now) }
    ensures { result ≡ has number (pairs_of body.now) }
{
    let position = rank_in_numbers(body, number);
    if position < body.len() / 2 {
        number_at(body, position) == number
    } else {
        false
    }
}
