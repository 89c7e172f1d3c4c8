//! Tests the steps of a query.

ghost use Rattle.std.specs.Prelude.{◌≡◌, ◌≤◌, IfOk, None, map};
ghost use Rattle.bitpack_queries.specs.Queries.{FindsFault, fault_from, most_waiting, query_fault};

use crate::as_step::AsStep;
use crate::query_error::QueryError;
use crate::step::Step;

/// The most operands that wait at once.
pub(crate) const MOST_WAITING: usize = 64;

/// Tests the steps of a query over this many sets. Returns the most operands that wait at once.
pub(crate) fn test_steps<T: AsStep>(steps: &[T], sets: usize) -> Result<usize, QueryError>
    ensures fault { FindsFault result (fault_from 64 sets 0 0 (map T.its_step steps.now)) }
    ensures few { IfOk result (λ most. most ≤ 64) }
    ensures most { IfOk result (λ most. most ≡ most_waiting 0 (map T.its_step steps.now)) }
    // There is no fault either if no more operands may wait.
    ensures enough { IfOk result (λ most. fault_from most sets 0 0 (map T.its_step steps.now) ≡ None) }
{
    let mut depth = 0;
    let mut most: usize = 0;
    for i in 0..steps.len() {
        match steps[i].as_step() {
            Step::Set(set) => {
                if set >= sets {
                    return Err(QueryError::NoSet(i));
                }
                if depth == MOST_WAITING {
                    return Err(QueryError::TooDeep(i));
                }
                depth += 1;
                most = most.max(depth);
            }
            Step::Combine(_) => {
                if depth < 2 {
                    return Err(QueryError::MissingOperand(i));
                }
                depth -= 1;
            }
        }
    }
    if depth == 0 {
        return Err(QueryError::Empty);
    }
    if depth > 1 {
        return Err(QueryError::LeftOver(depth));
    }
    Ok(most)
}

/// Tests the steps of a query over this many sets, and that it has a bitmap for each operand that waits at once. Returns the most of these.
///
/// Fails as `query_to` does, which tests the same.
pub fn test_query<T: AsStep>(steps: &[T], sets: usize, bitmaps: usize) -> Result<usize, QueryError>
    ensures fault { FindsFault result (query_fault bitmaps sets (map T.its_step steps.now)) }
    ensures few { IfOk result (λ most. most ≤ bitmaps) }
    // There is no fault either if as many operands may wait as do, or 64.
    ensures sound { IfOk result (λ _. fault_from 64 sets 0 0 (map T.its_step steps.now) ≡ None) }
    ensures enough { IfOk result (λ most. fault_from most sets 0 0 (map T.its_step steps.now) ≡ None) }
{
    let most = test_steps(steps, sets)?;
    if most > bitmaps {
        return Err(QueryError::Short(most));
    }
    Ok(most)
}
