//! The trait of every register: each clause speaks of the whole list of words.

ghost use Rattle.std.specs.Prelude.{
  ◌≡◌,
  ℕ,
  ◌-◌,
  ◌*◌,
  ◌^◌,
  ◌<◌,
  ◌≤◌,
  List,
  length,
  map,
  slice_index,
  replicate,
  fold,
  bit_and,
  bit_or,
};
ghost use Rattle.std.specs.Simd.Lanes.{zip2};
ghost use Rattle.bitpacking_register.specs.Words.{
  shifted_left,
  shifted_right,
  wrapping_sum,
  wrapping_difference,
  bytes_of_words,
  words_of_bytes,
};
ghost use Rattle.bitpacking_register.specs.Deltas.{differences, running_sums};

/// A list of `LANES` words, lane 0 first.
// claim: registers/1 each operation does to the words what its name says
pub trait Register: Copy {
    /// How many words a register has: from 1 to 8.
    const LANES: usize;

    ghost LANES: { ℕ };

    ghost words: { Self → List ℕ };

    /// Returns one word in each lane.
    fn splat(word: u32) -> Self
        ensures { words result ≡ replicate LANES word };

    /// Returns the words of a slice of exactly `LANES`, in its order.
    fn from_words(values: &[u32]) -> Self
        requires { length values.now ≡ LANES }
        ensures { words result ≡ values.now };

    /// Writes the words into a slice of exactly `LANES`, in their order.
    fn to_words(self, values: &mut [u32])
        requires { length values.old ≡ LANES }
        ensures { values.new ≡ words self };

    /// Returns the words whose little-endian bytes are in a slice of exactly `4 * LANES`.
    fn from_bytes(bytes: &[u8]) -> Self
        requires { length bytes.now ≡ 4 * LANES }
        ensures { words result ≡ words_of_bytes bytes.now };

    /// Writes the little-endian bytes of the words into a slice of exactly `4 * LANES`.
    fn to_bytes(self, bytes: &mut [u8])
        requires { length bytes.old ≡ 4 * LANES }
        ensures { bytes.new ≡ bytes_of_words (words self) };

    /// Moves the bits of each word up by `shift`, below 32. What leaves a word is lost.
    fn shift_left(self, shift: u32) -> Self
        requires { shift < 32 }
        ensures { words result ≡ map (shifted_left shift) (words self) };

    /// Moves the bits of each word down by `shift`, below 32.
    fn shift_right(self, shift: u32) -> Self
        requires { shift < 32 }
        ensures { words result ≡ map (shifted_right shift) (words self) };

    fn or(self, other: Self) -> Self
        ensures { words result ≡ zip2 bit_or (words self) (words other) };

    fn and(self, other: Self) -> Self
        ensures { words result ≡ zip2 bit_and (words self) (words other) };

    /// Adds lane by lane, modulo 2 ^ 32.
    fn add(self, other: Self) -> Self
        ensures { words result ≡ zip2 wrapping_sum (words self) (words other) };

    /// Subtracts lane by lane, modulo 2 ^ 32.
    fn sub(self, other: Self) -> Self
        ensures { words result ≡ zip2 wrapping_difference (words self) (words other) };

    /// Returns the bits that are set in some lane.
    fn or_lanes(self) -> u32
        ensures { result ≡ fold bit_or 0 (words self) };

    /// Each word less the one before it, modulo 2 ^ 32. Before lane 0 comes the last lane of `previous`.
    fn delta(current: Self, previous: Self) -> Self
        ensures { words result ≡ differences (slice_index (words previous) (LANES - 1)) (words current) };

    /// Returns the running sums of `delta`, modulo 2 ^ 32, from the last lane of `previous` on.
    fn integrate(previous: Self, delta: Self) -> Self
        ensures { words result ≡ running_sums (slice_index (words previous) (LANES - 1)) (words delta) };

    ghost some_lanes: { 1 ≤ LANES };

    ghost few_lanes: { LANES ≤ 8 };

    ghost words_count: { (register : Self) → length (words register) ≡ LANES };

    ghost words_fit: { (register : Self) (lane : ℕ) → slice_index (words register) lane < 2 ^ 32 };
}
