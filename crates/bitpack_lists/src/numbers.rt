//! Integers as bytes: values as four bytes, the least first.

ghost use Rattle.std.specs.Prelude.{◌≡◌, ◌+◌, ◌*◌, ◌/◌, ◌<◌, ◌≤◌, ◌++◌, ℕ, List, drop, length, slice_index, vec_len, vec_capacity};
ghost use Rattle.bitpacking.specs.Codes.{AreWords};
ghost use Rattle.bitpacking.specs.Words.{bytes_of_words, word};

use crate::reserved::append;

/// The word whose bytes are those from this index on.
#[tactic(auto, using(crate::proofs::lemmas::blocks::PartLemmas::is_word))]
pub(crate) fn read_one(bytes: &[u8], index: usize) -> u32
    requires { index + 4 ≤ length bytes.now }
    ensures { result ≡ word (drop index bytes.now) 0 }
{
    u32::from_le_bytes([
        bytes[index],
        bytes[index + 1],
        bytes[index + 2],
        bytes[index + 3],
    ])
}

/// Reads as many words as the slice has, from the first byte on.
pub(crate) fn read_words(bytes: &[u8], values: &mut [u32])
    requires { 4 * length values.old ≤ length bytes.now }
    ensures { (k : ℕ) → k < length values.new → slice_index values.new k ≡ word bytes.now k }
{
    for index in 0..values.len() {
        values[index] = read_one(bytes, 4 * index);
    }
}

/// Appends the values whose bytes these are. There is room for them.
pub(crate) fn read_all(bytes: &[u8], out: &mut Vec<u32>)
    requires room { vec_len out.old + length bytes.now / 4 ≤ vec_capacity out.old }
    ensures items { (values : List ℕ) → AreWords values → bytes.now ≡ bytes_of_words values
        → out.new.items ≡ out.old.items ++ values }
{
    for index in 0..bytes.len() / 4 {
        out.push_reserved(read_one(bytes, 4 * index));
    }
}

/// Appends the bytes of the values. There is room for them.
pub(crate) fn write_all(values: &[u32], out: &mut Vec<u8>)
    requires room { vec_len out.old + 4 * length values.now ≤ vec_capacity out.old }
    ensures items { out.new.items ≡ out.old.items ++ bytes_of_words values.now }
{
    for value in values {
        append(out, &value.to_le_bytes());
    }
}
