//! Walks through two sets chunk by chunk.

ghost use Rattle.std.specs.Prelude.{◌≡◌, ◌≤◌};
ghost use Rattle.bitpack_sets.specs.Chunks.{positions};

use bitpack_sets::chunks::{Chunks, NO_KEY};
use bitpack_slices::Operation;
use bitpack_slices::combined::{retains_left, retains_right};

/// What is left of two sets that are combined.
#[derive(Drop)]
pub(crate) struct Pair<'a> {
    pub(crate) operation: Operation,
    pub(crate) a: Chunks<'a>,
    pub(crate) b: Chunks<'a>,
    // Where the ids that are left begin.
    i: usize,
    j: usize,
    ghost a_within: { i ≤ positions a },
    ghost b_within: { j ≤ positions b },
}

/// The ids of a key in two sets: where they begin and end in each.
#[derive(Clone, Copy)]
pub(crate) struct Meeting {
    pub(crate) key: u32,
    pub(crate) a: (usize, usize),
    pub(crate) b: (usize, usize),
}

impl<'a> Pair<'a> {
    ghost use Rattle.std.specs.Prelude.{ℕ, ◌+◌, ◌^◌, ◌<◌, IfSome, IfNone, true, false};
    ghost use Rattle.bitpack_sets.specs.Chunks.{first_key, ids_from};
    ghost use Rattle.bitpack_slices.specs.Operations.{apply};
    ghost use Rattle.bitpack_queries.specs.Pairs.{IsMeeting, IsPart, left, meets, positions_left};
    ghost use Rattle.bitpack_slices.specs.Reads.{has};

    /// All of two sets.
    #[tactic(auto, unfolding(crate::specs::Pairs::left))]
    pub(crate) fn new(operation: Operation, a: Chunks<'a>, b: Chunks<'a>) -> Pair<'a>
        ensures left { (x : ℕ) → left result x ≡ apply operation (has x (ids_from a.entry 0)) (has x (ids_from b.entry 0)) }
        ensures places { positions_left result ≡ positions a.entry + positions b.entry }
    {
        Pair {
            operation,
            a,
            b,
            i: 0,
            j: 0,
        }
    }

    /// How many chunks, or ids of an array, are left of both.
    pub(crate) fn places(&self) -> usize
        ensures { result ≡ positions_left self.now }
    {
        (self.a.len() - self.i) + (self.b.len() - self.j)
    }

    /// The next key that the answer can have, or `None` if no id is left.
    pub(crate) fn next(&mut self) -> Option<Meeting>
        ensures none { IfNone result ((x : ℕ) → x < 2 ^ 32 → left self.old x ≡ false) }
        ensures meeting { IfSome result (λ meeting. IsMeeting self.new meeting) }
        ensures part { IfSome result (λ meeting. IsPart meeting.key (meets self.new meeting) (left self.old) (left self.new)) }
        // It goes on.
        ensures fewer { IfSome result (λ meeting. positions_left self.new < positions_left self.old) }
    {
        self.skip();
        let key = self.a.key(self.i).min(self.b.key(self.j));
        if key == NO_KEY {
            return None;
        }
        let a = (self.i, self.a.end(self.i, key));
        let b = (self.j, self.b.end(self.j, key));
        self.i = a.1;
        self.j = b.1;
        Some(Meeting { key, a, b })
    }

    // Passes over chunks that only one set has, if their ids are not in the answer.
    fn skip(&mut self)
        ensures left { (x : ℕ) → left self.old x ≡ left self.new x }
        ensures fewer { positions_left self.new ≤ positions_left self.old }
        // Then the answer can have ids of the lower key.
        ensures retains_left { first_key (ids_from self.new.a self.new.i) < first_key (ids_from self.new.b self.new.j) → apply self.new.operation true false ≡ true }
        ensures retains_right { first_key (ids_from self.new.b self.new.j) < first_key (ids_from self.new.a self.new.i) → apply self.new.operation false true ≡ true }
    {
        loop {
            let x = self.a.key(self.i);
            let y = self.b.key(self.j);
            if x < y && !retains_left(self.operation) {
                self.i = self.a.seek(self.i, y);
            } else if y < x && !retains_right(self.operation) {
                self.j = self.b.seek(self.j, x);
            } else {
                return;
            }
        }
    }
}
