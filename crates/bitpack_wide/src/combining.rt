//! Combines two wide sets.

ghost use Rattle.std.specs.Prelude.{◌≡◌, ◌↔◌, ◌^◌, ◌<◌, ◌≤◌, [], IfErr, IfOk, IfSome, IsTrue, OnErr, length, None, take};
ghost use Rattle.bitpack_slices.specs.Follows.{Follow};
ghost use Rattle.bitpack_wide.specs.Combined.{PutsWide, answer};
ghost use Rattle.bitpack_wide.specs.Opened.{ids};

mod merging;
mod words;

use crate::combining::merging::merge;
use crate::combining::words::combine_words;
use crate::encoding::encode_to;
use crate::form::Form;
use crate::wide_error::WideError;
use crate::wide_set::WideSet;
use bitpack_slices::Operation;

/// Writes the ids that an operation on two wide sets gives at the start of the slice, and returns their number. Allocates nothing.
///
/// It requires work space for as many numbers as the slice has ids. Fails only with `Short`, if the slice has no room for the ids. Room for the
/// ids of both sets is always enough. Items after the ids may change, and any item if it fails.
pub fn combine_to(
    operation: Operation,
    a: &WideSet,
    b: &WideSet,
    space: &mut [u32],
    out: &mut [u64],
) -> Result<usize, WideError>
    requires { length out.old ≤ length space.old }
    ensures len { IfOk result (λ len. len ≡ length (answer operation (ids a.now) (ids b.now))) }
    // claim: wide/11 writes, counts the ids of an operation on two wide sets; without room other items may change
    ensures ids { IfOk result (λ len. take len out.new ≡ answer operation (ids a.now) (ids b.now)) }
    ensures short { IfErr result (λ e. e ≡ WideError.Short) }
    ensures room { OnErr result (length out.old < length (answer operation (ids a.now) (ids b.now))) }
{
    let room = out.len();
    match list(operation, a, b, room, space, out) {
        Some(count) => Ok(count),
        None => Err(WideError::Short),
    }
}

/// Writes the encoding of the wide set that an operation on two wide sets gives at the start of the slice, and returns its length in bytes.
/// Allocates nothing.
///
/// It requires work space for the ids of the answer, and for as many numbers; what this held is lost. The answer has at most 268,435,456 ids:
/// with more it fails with `TooLong`. It fails with `Short` if the work space has no room for the ids, or the slice for the set. If it fails, the
/// bytes are unchanged, and so are those after the set.
pub fn combine_set_to(
    operation: Operation,
    a: &WideSet,
    b: &WideSet,
    room: &mut [u64],
    space: &mut [u32],
    bytes: &mut [u8],
) -> Result<usize, WideError>
    requires { length room.old ≤ length space.old }
    // claim: wide/13 writes the encoding of the ids of an operation on two wide sets, if the work space has room for these
    ensures { PutsWide (length room.old) (answer operation (ids a.now) (ids b.now)) result bytes.old bytes.new }
{
    let count = combine_to(operation, a, b, space, room)?;
    encode_to(&room[..count], space, bytes)
}

/// How many ids an operation on two wide sets gives. Allocates nothing.
pub fn combine_count(operation: Operation, a: &WideSet, b: &WideSet) -> usize
    ensures count { result ≡ length (answer operation (ids a.now) (ids b.now)) }
    ensures few { result ≤ 2 ^ 29 }
{
    // To count what both have is the fastest.
    let both = list(Operation::And, a, b, usize::MAX, &mut [], &mut []).unwrap();
    match operation {
        Operation::And => both,
        Operation::Or => a.len() + b.len() - both,
        Operation::AndNot => a.len() - both,
        Operation::Xor => a.len() + b.len() - 2 * both,
    }
}

/// Whether no id is in both wide sets. Stops soon after the first such id, and allocates nothing.
pub fn is_disjoint(a: &WideSet, b: &WideSet) -> bool
    ensures { IsTrue result ↔ (answer Operation.And (ids a.now) (ids b.now) ≡ []) }
{
    gives_none(Operation::And, a, b)
}

/// Whether each id of the first wide set is in the second. Stops soon after the first other id, and allocates nothing.
pub fn is_subset(a: &WideSet, b: &WideSet) -> bool
    // claim: wide/12 as `sets/17`
    ensures { IsTrue result ↔ (answer Operation.AndNot (ids a.now) (ids b.now) ≡ []) }
{
    gives_none(Operation::AndNot, a, b)
}

// Whether an operation on two wide sets gives no id.
fn gives_none(operation: Operation, a: &WideSet, b: &WideSet) -> bool
    ensures { IsTrue result ↔ (answer operation (ids a.now) (ids b.now) ≡ []) }
{
    list(operation, a, b, 0, &mut [], &mut []).is_some()
}

/// Writes the ids that an operation on two wide sets gives, if there is room for all. Returns their number, or `None` if there are more than
/// `most`.
fn list(
    operation: Operation,
    a: &WideSet,
    b: &WideSet,
    most: usize,
    space: &mut [u32],
    out: &mut [u64],
) -> Option<usize>
    requires { length out.old ≤ length space.old }
    ensures few { IfSome result (λ count. count ≤ most) }
    ensures written { IfSome result (λ count. Follow (answer operation (ids a.now) (ids b.now)) out.old out.new 0 count) }
    ensures none { result ≡ None → most < length (answer operation (ids a.now) (ids b.now)) }
{
    if let Form::Words(directory) = a.form() {
        if let Form::Words(other) = b.form() {
            return combine_words(operation, directory, other, most, space, out);
        }
    }
    merge(operation, a, b, most, out)
}
