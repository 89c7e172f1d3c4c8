//! What a set is like.
//! FORMAT.md, "Chunks".

ghost use Rattle.std.specs.Prelude.{◌≡◌, ◌+◌, ◌<◌, length};
ghost use Rattle.bitpack_sets.specs.Opened.{ids};
ghost use Rattle.bitpack_sets.specs.Sets.{encoding};

use crate::directory::Directory;
use crate::form::Form;
use crate::id_set::IdSet;
use bitpack_slices::chunk::Lows;

/// What a set is like.
#[repr(C)]
#[derive(Clone, Copy, PartialEq, Eq, Debug)]
pub struct Description {
    /// The number of ids.
    pub ids: usize,
    /// The number of bytes.
    pub bytes: usize,
    /// The number of chunks: 0 of a set that is not in chunks. Each has a body of one of three forms.
    pub chunks: usize,
    /// How many bodies are numbers of two bytes each.
    pub numbers: usize,
    /// How many bodies are blocks.
    pub blocks: usize,
    /// How many bodies are runs.
    pub runs: usize,
}

impl<'a> IdSet<'a> {
    ghost use Rattle.bitpack_sets.specs.Described.{Counts, chunks_of};

    /// What the set is like. Reads of each chunk its sizes and at most two bytes of its body.
    pub fn describe(&self) -> Description
        ensures ids { result.ids ≡ length (ids self.now) }
        ensures bytes { result.bytes ≡ length (encoding (ids self.now)) }
        // claim: sets/32 counts ids, bytes, chunks, bodies by form
        ensures bodies { Counts result (chunks_of (ids self.now)) }
    {
        let none = Description {
            ids: self.count,
            bytes: self.bytes.len(),
            chunks: 0,
            numbers: 0,
            blocks: 0,
            runs: 0,
        };
        match self.form() {
            Form::Chunks(directory) => directory.describe(none),
            _ => none,
        }
    }
}

impl<'a> Directory<'a> {
    ghost use Rattle.std.specs.Prelude.{[]};
    ghost use Rattle.bitpack_sets.specs.Described.{Counts};
    ghost use Rattle.bitpack_sets.specs.inner.BodyForms.{first_chunks};

    /// Adds all chunks to a description without any.
    fn describe(self, none: Description) -> Description
        requires { Counts none [] }
        ensures ids { result.ids ≡ none.ids }
        ensures bytes { result.bytes ≡ none.bytes }
        ensures bodies { Counts result (first_chunks self.entry.chunks self.entry.rest.now self.entry.chunks) }
    {
        let mut so_far = none;
        for chunk in 0..self.chunks {
            so_far = self.describe_chunk(chunk, so_far);
        }
        so_far
    }

    /// Adds a chunk to the description of those before it.
    fn describe_chunk(self, chunk: usize, so_far: Description) -> Description
        requires within { chunk < self.chunks }
        requires bodies { Counts so_far (first_chunks self.chunks self.rest.now chunk) }
        ensures ids { result.ids ≡ so_far.ids }
        ensures bytes { result.bytes ≡ so_far.bytes }
        ensures bodies { Counts result (first_chunks self.entry.chunks self.entry.rest.now (chunk + 1)) }
    {
        let chunks = so_far.chunks + 1;
        match self.lows(chunk) {
            Lows::Numbers(_) => Description {
                chunks,
                numbers: so_far.numbers + 1,
                ..so_far
            },
            Lows::Blocks(_) => Description {
                chunks,
                blocks: so_far.blocks + 1,
                ..so_far
            },
            Lows::Runs(_) => Description {
                chunks,
                runs: so_far.runs + 1,
                ..so_far
            },
        }
    }
}
