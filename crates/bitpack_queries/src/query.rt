//! Queries: trees of operations on sets. Their ids come part by part.

ghost use Rattle.std.specs.Prelude.{◌≡◌, ◌<◌, ◌++◌, IfErr, IfOk, MatchOption, None, OnErr, length, map, min, take, vec_capacity};
ghost use Rattle.bitpack_sets.specs.Opened.{ids};
ghost use Rattle.bitpack_slices.specs.Reads.{ids_from};
ghost use Rattle.bitpack_queries.specs.Queries.{FindsFault, IsLoaded, answer_of, fault_from, is_found, most_waiting, query_fault};

mod members;
pub(crate) mod packing;
mod running;
pub(crate) mod testing;
mod walking;

use crate::as_step::AsStep;
use crate::query_error::QueryError;
use crate::step::Step;
use bitpack_sets::{AsSet, IdSet};
use testing::{test_query, test_steps};
use walking::{END, Walk};

/// Writes the ids from `next` on that a query over sets has at the start of a slice, in increasing order, as many as there are and the slice has
/// room for. Returns how many it wrote, and sets `next` to the least id that can come after them. Later
/// items of the slice may change.
///
/// A query whose ids are asked for part by part is a `Query` with bitmaps of the caller: one for each operand that waits at once, which may hold
/// anything before. Each call loads the bodies of the first key anew. Allocates nothing.
///
/// Fails with the first fault of the steps, or with `Short` if there are too few bitmaps, and writes nothing then.
pub fn query_to<S: AsSet, T: AsStep>(
    sets: &[S],
    steps: &[T],
    bitmaps: &mut [[u64; 1024]],
    next: &mut u64,
    out: &mut [u32],
) -> Result<usize, QueryError>
    // claim: sets/26 `query_to` writes the next ids of a query, and the id from which the next call goes on; the caller lends a bitmap for
    //   each operand that waits; a call that fails changes nothing
    ensures fault { FindsFault result (query_fault (length bitmaps.old) (length sets.now) (map T.its_step steps.now)) }
    ensures unchanged { OnErr result ((next.new ≡ next.old) × (out.new ≡ out.old) × (bitmaps.new ≡ bitmaps.old)) }
    ensures len { IfOk result (λ len. len ≡ min (length out.old)
        (length (ids_from next.old (answer_of (map S.its_ids sets.now) (map T.its_step steps.now))))) }
    ensures ids { IfOk result (λ len. take len out.new ++ ids_from next.new (answer_of (map S.its_ids sets.now) (map T.its_step steps.now))
        ≡ ids_from next.old (answer_of (map S.its_ids sets.now) (map T.its_step steps.now))) }
{
    let most = test_query(steps, sets.len(), bitmaps.len())?;
    if *next >= END {
        return Ok(0);
    }
    let mut walk = Walk::new(*next);
    let count = walk.next_ids(sets, steps, &mut bitmaps[..most], out);
    *next = walk.next;
    Ok(count)
}

/// The ids that are left of a query. It has a bitmap of 8 KB for each operand that waits at once, and reads the bodies of a key only if the
/// answer can have ids of it.
#[derive(Drop)]
pub struct Query<'a> {
    sets: &'a [IdSet<'a>],
    steps: &'a [Step],
    bitmaps: Vec<[u64; 1024]>,
    walk: Walk,
    ghost sound: { fault_from 64 (length sets.now) 0 0 steps.now ≡ None },
    ghost enough: { fault_from (length bitmaps.items) (length sets.now) 0 0 steps.now ≡ None },
    ghost loaded: { IsLoaded (is_found (map ids sets.now) steps.now) walk.key walk.highs bitmaps.items },
}

impl<'a> Query<'a> {
    ghost use Rattle.bitpack_queries.specs.Queried.{left};

    /// A query over sets. Several steps may name one set, and up to 64 operands may wait at once: enough for a tree of 64 sets in any form.
    ///
    /// It tests the steps, and takes a vector for bitmaps, whose items are lost: one of 8 KB for each operand that waits at once. Fails with the
    /// first fault of the steps, or with `Memory` if the vector has no room for these and cannot grow. It grows at most once.
    pub fn new(
        sets: &'a [IdSet<'a>],
        steps: &'a [Step],
        mut bitmaps: Vec<[u64; 1024]>,
    ) -> Result<Query<'a>, QueryError>
        // The first fault of the steps, or `Memory` if they have none.
        ensures err { IfErr result (λ e. MatchOption (fault_from 64 (length sets.now) 0 0 steps.now)
            (e ≡ QueryError.Memory) (λ fault. e ≡ fault)) }
        ensures room { fault_from 64 (length sets.now) 0 0 steps.now ≡ None → OnErr result (vec_capacity bitmaps < most_waiting 0 steps.now) }
        ensures sound { IfOk result (λ _. fault_from 64 (length sets.now) 0 0 steps.now ≡ None) }
        // All ids are left.
        ensures all { IfOk result (λ query. left query ≡ answer_of (map ids sets.now) steps.now) }
    {
        let most = test_steps(steps, sets.len())?;
        if bitmaps.resize(most, [0; 1024]).is_err() {
            return Err(QueryError::Memory);
        }
        Ok(Query {
            sets,
            steps,
            bitmaps,
            walk: Walk::new(0),
        })
    }

    /// Writes the next ids at the start of the slice, in increasing order, as many as there are and it has room for. Returns how many it
    /// wrote. Later items of the slice may change.
    pub fn next_ids(&mut self, out: &mut [u32]) -> usize
        ensures len { result ≡ min (length out.old) (length (left self.old)) }
        // claim: sets/22-24 a query refuses faulty steps, writes the ids for which they are true, skips those below a target; fails with
        //   `Memory` only if there is no room for a bitmap for each operand that waits
        ensures ids { take result out.new ++ left self.new ≡ left self.old }
    {
        let bitmaps = self.bitmaps.as_mut_slice();
        self.walk.next_ids(self.sets, self.steps, bitmaps, out)
    }

    /// Passes over the ids that are left and below `target`. A target that was passed before changes nothing.
    pub fn seek(&mut self, target: u32)
        ensures { left self.new ≡ ids_from target (left self.old) }
    {
        self.walk.seek(target);
    }
}
