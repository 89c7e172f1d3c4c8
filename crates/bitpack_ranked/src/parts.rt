//! What a word adds to the score of a document, by how often it is there and how long the document is.

ghost use Rattle.std.specs.Prelude.{◌≡◌, ◌↔◌, ◌≤◌, ℕ, IsTrue, IfSome, None};
ghost use Rattle.bitpack_ranked.specs.Scores.{IsTable, part_at};
ghost use Rattle.bitpack_ranked.specs.inner.Walks.{greatest_part};

/// How many classes of lengths there are.
pub const CLASSES: usize = 256;

/// A part of a score for each count of a word and each class of lengths.
///
/// A table has a row for each count from 0 on, and in each row a part for each class. The last row is also for greater counts, and the last
/// class for greater classes. The first class is for the shortest documents: no part is above the first of its row. And in each
/// class the parts do not fall from one count to the next.
#[derive(Clone, Copy)]
pub struct Parts<'a> {
    table: &'a [u32],
    ghost right: { IsTable table.now },
}

impl<'a> Parts<'a> {
    /// The parts of a table, or `None` if it is not one.
    pub fn new(table: &'a [u32]) -> Option<Parts<'a>>
        // claim: ranked/3 a table of parts of scores: whole rows, monotone, first part greatest; `of_tested` requires one
        ensures table { IfSome result (λ parts. parts.table.now ≡ table.now) }
        ensures none { result ≡ None → IsTable table.now → ⊥ }
    {
        if is_table(table) {
            Some(Parts { table })
        } else {
            None
        }
    }

    /// The parts of a table that was tested before: it is not tested again.
    #[inline(always)]
    pub fn of_tested(table: &'a [u32]) -> Parts<'a>
        requires { IsTable table.now }
        ensures { result.table.now ≡ table.now }
    {
        Parts { table }
    }

    /// The part of a count and a class.
    #[inline(always)]
    pub fn part(&self, count: u32, class: u32) -> u32
        ensures { result ≡ part_at self.now.table.now count class }
    {
        let row = (count as usize).min(self.table.len() / CLASSES - 1);
        self.table[CLASSES * row + (class as usize).min(CLASSES - 1)]
    }

    /// A bound of the parts of counts up to one, in all classes.
    pub(crate) fn most(&self, count: u32) -> u32
        ensures { (less class : ℕ) → less ≤ count → part_at self.now.table.now less class ≤ result }
    {
        self.part(count, 0)
    }

    /// A bound of all parts.
    #[inline(always)]
    pub(crate) fn greatest(&self) -> u32
        ensures { result ≡ greatest_part self.now.table.now }
    {
        self.table[self.table.len() - CLASSES]
    }
}

/// Whether a table has whole rows, no part above the first of its row, and in each class parts that do not fall.
fn is_table(table: &[u32]) -> bool
    ensures { IsTrue result ↔ IsTable table.now }
{
    if table.len() < CLASSES || table.len() % CLASSES != 0 {
        return false;
    }
    for index in 0..table.len() {
        if table[index] > table[index - index % CLASSES] {
            return false;
        }
        if index + CLASSES < table.len() && table[index] > table[index + CLASSES] {
            return false;
        }
    }
    true
}
