//! Writes the body that an operation on two bodies of blocks gives, slice by slice.
//!
//! FORMAT.md, "Chunks":
//!
//! ```text
//! r - 1 | slice of the r high bytes that occur | r counts, each less 1 | r slices of low bytes
//! ```

ghost use Rattle.std.specs.Prelude.{◌≡◌, ℕ, ◌+◌, ◌-◌, ◌*◌, ◌<◌, ◌≤◌, ◌∷◌, ◌++◌, IfSome, false, length, take, true};
ghost use Rattle.bitpack_slices.specs.Bitmaps.{has_bit};
ghost use Rattle.bitpack_slices.specs.Bodies.{blocks, slice};
ghost use Rattle.bitpack_slices.specs.Body.{body};
ghost use Rattle.bitpack_slices.specs.Operations.{apply, combined, those};
ghost use Rattle.bitpack_slices.specs.Selections.{parts_numbers};
ghost use Rattle.bitpack_slices.specs.Slices.{IsBlocks, block_numbers};

use crate::bitmap::single_bits::set_bit;
use crate::bitmap::unpacking::unpack_bits;
use crate::bitmap::writing::{LONGEST_BLOCKS, put_slice};
use crate::blocks::Blocks;
use crate::chunk::bounds::most_bounds;
use crate::chunk::parts::Parts;
use crate::combined::{possible_highs, retains_left, retains_right};
use crate::operation::Operation;
use crate::slice::byte_len;
use crate::slice::selecting::put_both;

/// The room for the slices of a body, and for the bytes after them that may change too.
const ROOM: usize = 8288;

/// If both bodies have this many bytes, most slices are bits: two bitmaps are combined in less time.
const MANY: usize = 8192;

/// A body is looked up in another one if that has this many times its bytes.
const MORE: usize = 16;

/// Writes the body of the numbers that an operation other than AND on two bodies of blocks gives, if it is blocks too. Returns how many numbers
/// these are, and how many bytes the body has. If there is no number, it has no byte.
pub fn write_combined(
    operation: Operation,
    a: &[u8],
    b: &[u8],
    out: &mut [u8; LONGEST_BLOCKS],
) -> Option<(usize, usize)>
    requires a { IsBlocks (length (block_numbers a.now)) a.now }
    requires b { IsBlocks (length (block_numbers b.now)) b.now }
    requires left { apply operation true false ≡ true }
    ensures count { IfSome result (λ written. written.0 ≡ length (combined 65536 operation (block_numbers a.now) (block_numbers b.now))) }
    ensures small { IfSome result (λ written. written.1 ≤ 2 * written.0) }
    ensures most { IfSome result (λ written. written.1 ≤ 8449) }
    ensures written { IfSome result (λ written. 0 < written.0 → take written.1 out.new ≡ body (combined 65536 operation (block_numbers a.now) (block_numbers b.now))) }
{
    if is_slower(operation, a.len(), b.len()) {
        return None;
    }
    let (count, size) = write_blocks(operation, a, b, out);
    if count == 0 {
        return Some((0, 0));
    }
    if size >= 2 * count || Parts::new(&out[..size]).has_few_bounds(most_bounds(count)) {
        return None;
    }
    Some((count, size))
}

/// Whether two bodies of these lengths are combined in less time in another way. Only the time depends on it.
fn is_slower(operation: Operation, a: usize, b: usize) -> bool {
    match operation {
        Operation::AndNot if a < b / MORE => true,
        _ => a.min(b) >= MANY,
    }
}

/// Writes the blocks of the numbers that an operation on two bodies gives, if there are any. Returns how many numbers these are, and how many bytes the
/// blocks have.
fn write_blocks(
    operation: Operation,
    a: &[u8],
    b: &[u8],
    out: &mut [u8; LONGEST_BLOCKS],
) -> (usize, usize)
    requires a { IsBlocks (length (block_numbers a.now)) a.now }
    requires b { IsBlocks (length (block_numbers b.now)) b.now }
    requires left { apply operation true false ≡ true }
    ensures count { result.0 ≡ length (combined 65536 operation (block_numbers a.now) (block_numbers b.now)) }
    ensures most { result.1 ≤ 8449 }
    ensures written { 0 < result.0 → take result.1 out.new ≡ blocks (combined 65536 operation (block_numbers a.now) (block_numbers b.now)) }
{
    let mut starts = ([0; 257], [0; 257]);
    let x = Blocks::new(a, &mut starts.0);
    let y = Blocks::new(b, &mut starts.1);
    match operation {
        Operation::Or => write_each(Operation::Or, &x, &y, out),
        Operation::Xor => write_each(Operation::Xor, &x, &y, out),
        _ => write_each(Operation::AndNot, &x, &y, out),
    }
}

/// Writes the blocks that `write_blocks` writes, for an operation that the caller names, so that each operation has a loop of its own.
#[inline(always)]
fn write_each(
    operation: Operation,
    a: &Blocks,
    b: &Blocks,
    out: &mut [u8; LONGEST_BLOCKS],
) -> (usize, usize)
    ensures count { result.0 ≡ length (combined 65536 operation (parts_numbers a.now) (parts_numbers b.now)) }
    ensures most { result.1 ≤ 8449 }
    ensures written { 0 < result.0 → take result.1 out.new ≡ blocks (combined 65536 operation (parts_numbers a.now) (parts_numbers b.now)) }
{
    let mut occurring = [0; 4];
    let mut counts = [0; 256];
    let mut slices = [0; ROOM];
    let (count, kept, len) = put_slices(operation, a, b, &mut occurring, &mut counts, &mut slices);
    if count == 0 {
        return (0, 0);
    }
    let size = write_parts(&occurring, &counts[..kept], &slices[..len], out);
    (count, size)
}

/// Writes what blocks have: the high bytes that occur, of each how many numbers have it, less 1, and their slices. Returns how many bytes it wrote.
fn write_parts(
    occurring: &[u64; 4],
    counts: &[u8],
    slices: &[u8],
    out: &mut [u8; LONGEST_BLOCKS],
) -> usize
    requires some { 0 < length counts.now }
    requires counts { length counts.now ≡ length (those 256 (has_bit occurring.now)) }
    requires slices { length slices.now ≤ 32 * length counts.now }
    ensures most { result ≤ 8449 }
    ensures written { take result out.new ≡ (length counts.now - 1) ∷ (slice (those 256 (has_bit occurring.now)) ++ (counts.now ++ slices.now)) }
{
    let many = counts.len();
    let len = slices.len();
    let size = byte_len(many);
    let (head, rest) = out.split_at_mut(1);
    let (first, parts) = rest.split_at_mut(size);
    let (less, bytes) = parts.split_at_mut(many);
    put_slice(occurring, many, first);
    less.copy_from_slice(counts);
    bytes[..len].copy_from_slice(slices);
    head[0] = (many - 1) as u8;
    1 + size + many + len
}

/// Writes of each high byte that the answer has how many numbers have it, less 1, and the slice of their low bytes, and sets its bit. Returns how many
/// numbers there are, how many high bytes they have, and how many bytes the slices have.
#[inline(always)]
fn put_slices(
    operation: Operation,
    a: &Blocks,
    b: &Blocks,
    occurring: &mut [u64; 4],
    counts: &mut [u8; 256],
    slices: &mut [u8; ROOM],
) -> (usize, usize, usize)
    requires clear { (h : ℕ) → has_bit occurring.old h ≡ false }
    ensures few { result.2 ≤ 32 * result.1 }
    ensures count { result.0 ≡ length (combined 65536 operation (parts_numbers a.now) (parts_numbers b.now)) }
    ensures some { 0 < result.0 → 0 < result.1 }
    ensures occurring { result.1 ≡ length (those 256 (has_bit occurring.new)) }
    ensures blocks { (result.1 - 1) ∷ (slice (those 256 (has_bit occurring.new)) ++ (take result.1 counts.new ++ take result.2 slices.new))
        ≡ blocks (combined 65536 operation (parts_numbers a.now) (parts_numbers b.now)) }
{
    let occur = possible_highs(operation, &a.highs, &b.highs);
    let mut room = [0; 256];
    let many = unpack_bits(&occur, 0, &mut room, 0);
    let highs = &room[..many];
    let mut count = 0;
    let mut kept = 0;
    let mut next = 0;
    for index in 0..highs.len() {
        let high = highs[index] as usize;
        let x = a.slice_of(high, !retains_right(operation));
        let y = b.slice_of(high, !retains_left(operation));
        let (more, end) = put_both(operation, x, y, slices, next);
        if more > 0 {
            set_bit(occurring, high);
            counts[kept] = (more - 1) as u8;
            kept += 1;
        }
        count += more;
        next = end;
    }
    (count, kept, next)
}
