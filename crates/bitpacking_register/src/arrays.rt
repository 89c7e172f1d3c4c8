//! Four or eight lanes: an array, for a machine without vectors.
//!
//! Each method calls the function of its name with `_all`, whose body serves both lengths.

ghost use Rattle.std.proofs.Common.{lit≤};
ghost use Rattle.std.specs.Prelude.{
  ◌≡◌,
  ◌-◌,
  ◌*◌,
  ◌<◌,
  ◌≤◌,
  length,
  map,
  slice_index,
  replicate,
  fold,
  bit_and,
  bit_or,
};
ghost use Rattle.std.specs.Simd.Lanes.{zip2};
ghost use Rattle.bitpacking_register.specs.Words.{
  first_words,
  shifted_left,
  shifted_right,
  wrapping_sum,
  wrapping_difference,
  bytes_of_words,
  words_of_bytes,
};
ghost use Rattle.bitpacking_register.specs.WordLaws.{length-first_words, first_words-lt};
ghost use Rattle.bitpacking_register.specs.Deltas.{differences, running_sums};

use crate::Register;

impl Register for [u32; 4] {
    const LANES: usize = 4;

    ghost LANES = { 4 };

    ghost words = { first_words 4 };

    #[inline(always)]
    fn splat(word: u32) -> [u32; 4] {
        splat_all(word)
    }

    #[inline(always)]
    fn from_words(values: &[u32]) -> [u32; 4] {
        from_words_all(values)
    }

    #[inline(always)]
    fn to_words(self, values: &mut [u32]) {
        to_words_all(self, values);
    }

    #[inline(always)]
    fn from_bytes(bytes: &[u8]) -> [u32; 4] {
        from_bytes_all(bytes)
    }

    #[inline(always)]
    fn to_bytes(self, bytes: &mut [u8]) {
        to_bytes_all(self, bytes);
    }

    #[inline(always)]
    fn shift_left(self, shift: u32) -> [u32; 4] {
        shift_left_all(self, shift)
    }

    #[inline(always)]
    fn shift_right(self, shift: u32) -> [u32; 4] {
        shift_right_all(self, shift)
    }

    #[inline(always)]
    fn or(self, other: [u32; 4]) -> [u32; 4] {
        or_all(self, other)
    }

    #[inline(always)]
    fn and(self, other: [u32; 4]) -> [u32; 4] {
        and_all(self, other)
    }

    #[inline(always)]
    fn add(self, other: [u32; 4]) -> [u32; 4] {
        add_all(self, other)
    }

    #[inline(always)]
    fn sub(self, other: [u32; 4]) -> [u32; 4] {
        sub_all(self, other)
    }

    #[inline(always)]
    fn or_lanes(self) -> u32 {
        or_lanes_all(self)
    }

    #[inline(always)]
    fn delta(current: [u32; 4], previous: [u32; 4]) -> [u32; 4] {
        delta_all(current, previous)
    }

    #[inline(always)]
    fn integrate(previous: [u32; 4], delta: [u32; 4]) -> [u32; 4] {
        integrate_all(previous, delta)
    }

    ghost some_lanes = { lit≤ tt };

    ghost few_lanes = { lit≤ tt };

    ghost words_count = { length-first_words 4 };

    ghost words_fit = { first_words-lt 4 };
}

impl Register for [u32; 8] {
    const LANES: usize = 8;

    ghost LANES = { 8 };

    ghost words = { first_words 8 };

    #[inline(always)]
    fn splat(word: u32) -> [u32; 8] {
        splat_all(word)
    }

    #[inline(always)]
    fn from_words(values: &[u32]) -> [u32; 8] {
        from_words_all(values)
    }

    #[inline(always)]
    fn to_words(self, values: &mut [u32]) {
        to_words_all(self, values);
    }

    #[inline(always)]
    fn from_bytes(bytes: &[u8]) -> [u32; 8] {
        from_bytes_all(bytes)
    }

    #[inline(always)]
    fn to_bytes(self, bytes: &mut [u8]) {
        to_bytes_all(self, bytes);
    }

    #[inline(always)]
    fn shift_left(self, shift: u32) -> [u32; 8] {
        shift_left_all(self, shift)
    }

    #[inline(always)]
    fn shift_right(self, shift: u32) -> [u32; 8] {
        shift_right_all(self, shift)
    }

    #[inline(always)]
    fn or(self, other: [u32; 8]) -> [u32; 8] {
        or_all(self, other)
    }

    #[inline(always)]
    fn and(self, other: [u32; 8]) -> [u32; 8] {
        and_all(self, other)
    }

    #[inline(always)]
    fn add(self, other: [u32; 8]) -> [u32; 8] {
        add_all(self, other)
    }

    #[inline(always)]
    fn sub(self, other: [u32; 8]) -> [u32; 8] {
        sub_all(self, other)
    }

    #[inline(always)]
    fn or_lanes(self) -> u32 {
        or_lanes_all(self)
    }

    #[inline(always)]
    fn delta(current: [u32; 8], previous: [u32; 8]) -> [u32; 8] {
        delta_all(current, previous)
    }

    #[inline(always)]
    fn integrate(previous: [u32; 8], delta: [u32; 8]) -> [u32; 8] {
        integrate_all(previous, delta)
    }

    ghost some_lanes = { lit≤ tt };

    ghost few_lanes = { lit≤ tt };

    ghost words_count = { length-first_words 8 };

    ghost words_fit = { first_words-lt 8 };
}

#[inline(always)]
fn splat_all<const N: usize>(word: u32) -> [u32; N]
    ensures { first_words N result ≡ replicate N word }
{
    [word; N]
}

#[inline(always)]
fn from_words_all<const N: usize>(values: &[u32]) -> [u32; N]
    requires { length values.now ≡ N }
    ensures { first_words N result ≡ values.now }
{
    let mut words = [0; N];
    words.copy_from_slice(values);
    words
}

#[inline(always)]
fn to_words_all<const N: usize>(words: [u32; N], values: &mut [u32])
    requires { length values.old ≡ N }
    ensures { values.new ≡ first_words N words.entry }
{
    values.copy_from_slice(&words);
}

// A lane is read as a `u32` register.
#[inline(always)]
fn from_bytes_all<const N: usize>(bytes: &[u8]) -> [u32; N]
    requires { length bytes.now ≡ 4 * N }
    ensures { first_words N result ≡ words_of_bytes bytes.now }
{
    let mut words = [0; N];
    for (lane, word) in words.iter_mut().enumerate() {
        *word = u32::from_bytes(&bytes[4 * lane..4 * lane + 4]);
    }
    words
}

// A lane is written as a `u32` register.
#[inline(always)]
fn to_bytes_all<const N: usize>(words: [u32; N], bytes: &mut [u8])
    requires { length bytes.old ≡ 4 * N }
    ensures { bytes.new ≡ bytes_of_words (first_words N words.entry) }
{
    for (lane, word) in words.iter().enumerate() {
        word.to_bytes(&mut bytes[4 * lane..4 * lane + 4]);
    }
}

#[inline(always)]
fn shift_left_all<const N: usize>(mut words: [u32; N], shift: u32) -> [u32; N]
    requires { shift < 32 }
    ensures { first_words N result ≡ map (shifted_left shift) (first_words N words.entry) }
{
    for word in words.iter_mut() {
        *word <<= shift;
    }
    words
}

#[inline(always)]
fn shift_right_all<const N: usize>(mut words: [u32; N], shift: u32) -> [u32; N]
    requires { shift < 32 }
    ensures { first_words N result ≡ map (shifted_right shift) (first_words N words.entry) }
{
    for word in words.iter_mut() {
        *word >>= shift;
    }
    words
}

#[inline(always)]
fn or_all<const N: usize>(mut left: [u32; N], right: [u32; N]) -> [u32; N]
    ensures { first_words N result ≡ zip2 bit_or (first_words N left.entry) (first_words N right.entry) }
{
    for (lane, word) in left.iter_mut().enumerate() {
        *word |= right[lane];
    }
    left
}

#[inline(always)]
fn and_all<const N: usize>(mut left: [u32; N], right: [u32; N]) -> [u32; N]
    ensures { first_words N result ≡ zip2 bit_and (first_words N left.entry) (first_words N right.entry) }
{
    for (lane, word) in left.iter_mut().enumerate() {
        *word &= right[lane];
    }
    left
}

#[inline(always)]
fn add_all<const N: usize>(mut left: [u32; N], right: [u32; N]) -> [u32; N]
    ensures { first_words N result ≡ zip2 wrapping_sum (first_words N left.entry) (first_words N right.entry) }
{
    for (lane, word) in left.iter_mut().enumerate() {
        *word = word.wrapping_add(right[lane]);
    }
    left
}

#[inline(always)]
fn sub_all<const N: usize>(mut left: [u32; N], right: [u32; N]) -> [u32; N]
    ensures { first_words N result
        ≡ zip2 wrapping_difference (first_words N left.entry) (first_words N right.entry) }
{
    for (lane, word) in left.iter_mut().enumerate() {
        *word = word.wrapping_sub(right[lane]);
    }
    left
}

#[inline(always)]
fn or_lanes_all<const N: usize>(words: [u32; N]) -> u32
    ensures { result ≡ fold bit_or 0 (first_words N words.entry) }
{
    let mut all = 0;
    for word in &words {
        all |= *word;
    }
    all
}

// `before` is the word of the lane before.
#[inline(always)]
fn delta_all<const N: usize>(mut current: [u32; N], previous: [u32; N]) -> [u32; N]
    requires { 1 ≤ N }
    ensures { first_words N result
        ≡ differences (slice_index (first_words N previous.entry) (N - 1)) (first_words N current.entry) }
{
    let mut before = previous[N - 1];
    for slot in current.iter_mut() {
        let word = *slot;
        *slot = word.wrapping_sub(before);
        before = word;
    }
    current
}

// `sum` is the new word of the lane before.
#[inline(always)]
fn integrate_all<const N: usize>(previous: [u32; N], mut delta: [u32; N]) -> [u32; N]
    requires { 1 ≤ N }
    ensures { first_words N result
        ≡ running_sums (slice_index (first_words N previous.entry) (N - 1)) (first_words N delta.entry) }
{
    let mut sum = previous[N - 1];
    for word in delta.iter_mut() {
        sum = sum.wrapping_add(*word);
        *word = sum;
    }
    delta
}
