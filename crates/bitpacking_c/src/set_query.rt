//! Queries over views of id sets: trees of operations, whose ids come part by part, with work space of the caller.

ghost use Rattle.std.specs.Prelude.{◌≡◌, ◌/◌, length, map};
ghost use Rattle.bitpacking_c.specs.SetQueries.{AnswersQuery, refusal, step_of};

use crate::set_view::SetView;
use bitpack_queries::{AsStep, QueryError, Step, query_to, test_query};
use bitpack_slices::Operation;

// The numbers of operations.
const AND: u32 = 0xFFFF_FFFF;

const OR: u32 = 0xFFFF_FFFE;

const AND_NOT: u32 = 0xFFFF_FFFD;

const XOR: u32 = 0xFFFF_FFFC;

/// A step of a query as a number: one of the last four for an operation, or the index of a view.
#[repr(C)]
#[derive(Clone, Copy)]
pub struct QueryStep {
    pub(crate) number: u32,
}

impl AsStep for QueryStep {
    ghost its_step = { λ step. step_of step.number };

    #[inline(always)]
    fn as_step(&self) -> Step {
        numbered(self.number)
    }
}

/// The step of a number.
#[tactic(auto, unfolding(crate::specs::SetQueries::step_of))]
#[inline(always)]
pub(crate) fn numbered(number: u32) -> Step
    ensures { result ≡ step_of number }
{
    match number {
        AND => Step::Combine(Operation::And),
        OR => Step::Combine(Operation::Or),
        AND_NOT => Step::Combine(Operation::AndNot),
        XOR => Step::Combine(Operation::Xor),
        set => Step::Set(set as usize),
    }
}

/// Writes the ids from `next` on that the query has to the front of `ids`, in increasing order, as many as there are and fit, and returns how many
/// these are. Sets `next` to the least id that can come after them. If the steps have a fault, or `space` has no 1024 numbers for each operand that
/// waits at once, it returns the number of this, writes where or how many to `position`, and nothing else.
#[unsafe(no_mangle)]
pub extern "C" fn bitpacking_set_query(
    views: &[SetView<'_>],
    steps: &[QueryStep],
    space: &mut [u64],
    next: &mut u64,
    ids: &mut [u32],
    position: &mut usize,
) -> isize
    // claim: c/39 `set_query`: as `sets/26`, with steps as numbers
    ensures { AnswersQuery views.now (map (λ step. step_of step.number) steps.now) (length space.old / 1024)
        (next.old, next.new) (position.old, position.new) (space.old, space.new) ids.old ids.new result }
{
    if let Err(fault) = test_query(steps, views.len(), space.len() / 1024) {
        let (number, at) = refuse(fault);
        *position = at;
        return number;
    }
    let (bitmaps, _) = space.as_chunks_mut::<1024>();
    query_to(views, steps, bitmaps, next, ids).unwrap() as isize
}

/// What a call with a fault returns, and the position: of the step that has it, or how many operands are left or wait.
pub(crate) fn refuse(fault: QueryError) -> (isize, usize)
    ensures { result ≡ refusal fault }
{
    match fault {
        QueryError::NoSet(step) => (-8, step),
        QueryError::TooDeep(step) => (-9, step),
        QueryError::MissingOperand(step) => (-10, step),
        QueryError::LeftOver(operands) => (-11, operands),
        QueryError::Short(operands) => (-3, operands),
        _ => (-11, 0),
    }
}
