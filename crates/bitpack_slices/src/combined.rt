//! What an operation makes of words, keys and high bytes.

ghost use Rattle.std.specs.Prelude.{◌≡◌, ℕ, ◌+◌, ◌<◌, ◌≤◌, ◌&&◌, ◌||◌, ◌⊎◌, ◌==◌, Bool, true, false};
ghost use Rattle.std.specs.Int.{bit_at};
ghost use Rattle.bitpack_slices.specs.Bitmaps.{has_bit};
ghost use Rattle.bitpack_slices.specs.Operations.{apply, can_give};

use crate::operation::Operation;

/// Combines the bits of two words.
#[inline(always)]
pub(crate) fn combined_word(operation: Operation, a: u64, b: u64) -> u64
    ensures { (i : ℕ) → (bit_at result i == 1) ≡ apply operation (bit_at a i == 1) (bit_at b i == 1) }
{
    match operation {
        Operation::And => a & b,
        Operation::Or => a | b,
        Operation::AndNot => a & !b,
        Operation::Xor => a ^ b,
    }
}

/// Combines 256 bits.
#[inline(always)]
pub fn combined_words(operation: Operation, a: [u64; 4], b: [u64; 4]) -> [u64; 4]
    ensures { (i : ℕ) → i < 256 → has_bit result i ≡ apply operation (has_bit a i) (has_bit b i) }
{
    [
        combined_word(operation, a[0], b[0]),
        combined_word(operation, a[1], b[1]),
        combined_word(operation, a[2], b[2]),
        combined_word(operation, a[3], b[3]),
    ]
}

/// Whether the answer has ids that only the first set has.
#[inline(always)]
pub fn retains_left(operation: Operation) -> bool
    ensures { result ≡ apply operation true false }
{
    match operation {
        Operation::And => false,
        _ => true,
    }
}

/// Whether the answer has ids that only the second set has.
#[inline(always)]
pub fn retains_right(operation: Operation) -> bool
    ensures { result ≡ apply operation false true }
{
    match operation {
        Operation::Or => true,
        Operation::Xor => true,
        _ => false,
    }
}

/// The lowest key that the answer can have, if one set has none below `a` and the other none below `b`.
pub fn lowest_key(operation: Operation, a: u32, b: u32) -> u32
    ensures either { (result ≡ a) ⊎ (result ≡ b) }
    ensures none { (k : ℕ) (p q : Bool) → k < result → (k < a → p ≡ false) → (k < b → q ≡ false) → apply operation p q ≡ false }
    // From it on the answer can have ids, if one set has some from `a` on and the other from `b` on.
    ensures some { (k : ℕ) (p q : Bool) → result ≤ k → (a ≤ k → p ≡ true) → (b ≤ k → q ≡ true) → can_give operation p q ≡ true }
{
    match operation {
        Operation::And => a.max(b),
        Operation::AndNot => a,
        _ => a.min(b),
    }
}

/// The high bytes that the answer can have, by the high bytes of two chunks.
#[inline(always)]
pub fn possible_highs(operation: Operation, a: &[u64; 4], b: &[u64; 4]) -> [u64; 4]
    // The answer has no id of a high byte that is left out.
    ensures both { (h : ℕ) → h < 256 → has_bit result h ≡ false → apply operation (has_bit a.now h) (has_bit b.now h) ≡ false }
    ensures left { (h : ℕ) → h < 256 → has_bit result h ≡ false → apply operation (has_bit a.now h) false ≡ false }
    ensures right { (h : ℕ) → h < 256 → has_bit result h ≡ false → apply operation false (has_bit b.now h) ≡ false }
    // If the answer has no ids that only the second has, the first has all these high bytes. Likewise for the second.
    ensures in_left { apply operation false true ≡ false → (h : ℕ) → h < 256 → has_bit result h ≡ true → has_bit a.now h ≡ true }
    ensures in_right { apply operation true false ≡ false → (h : ℕ) → h < 256 → has_bit result h ≡ true → has_bit b.now h ≡ true }
{
    let wider = match operation {
        Operation::And => Operation::And,
        Operation::AndNot => return *a,
        _ => Operation::Or,
    };
    combined_words(wider, *a, *b)
}
