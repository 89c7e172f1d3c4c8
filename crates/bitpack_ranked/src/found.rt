//! The best documents so far, the best of them first.

ghost use Rattle.std.specs.Prelude.{◌≡◌, ◌↔◌, ◌+◌, ◌≤◌, IsTrue, length, min, take};
ghost use Rattle.bitpack_ranked.specs.Ranked.{ComesBefore};
ghost use Rattle.bitpack_ranked.specs.inner.Selecting.{ImpliesFull, IsPositionFor, IsSelected};

/// A document with its score.
#[repr(C)]
#[derive(Clone, Copy, PartialEq, Eq, Debug)]
pub struct Scored {
    /// What the words of the document add up to.
    pub score: u64,
    /// The id of the document.
    pub id: u32,
}

/// Puts a document after the ones among the first `len` that come before it, and retains as many as there is room for. Returns how many these
/// are.
pub(crate) fn select(found: &mut [Scored], len: usize, document: Scored) -> usize
    requires { len ≤ length found.old }
    ensures len { result ≡ min (length found.old) (len + 1) }
    ensures selected { IsSelected (length found.old) document (take len found.old) (take result found.new) }
{
    let at = position_for(&found[..len], document);
    if at >= found.len() {
        return len;
    }
    let last = len.min(found.len() - 1);
    found.copy_within(at..last, at + 1);
    found[at] = document;
    last + 1
}

/// The index of the first document that comes after one, or the length if there is none.
fn position_for(found: &[Scored], document: Scored) -> usize
    ensures { IsPositionFor document found.now result }
{
    for index in 0..found.len() {
        if comes_before(document, found[index]) {
            return index;
        }
    }
    found.len()
}

/// Whether a document comes before another: its score is greater, or it is the same and the id is lower.
#[inline(always)]
fn comes_before(one: Scored, other: Scored) -> bool
    ensures { IsTrue result ↔ ComesBefore one other }
{
    one.score > other.score || (one.score == other.score && one.id < other.id)
}

/// Whether the first `len` fill the room, and come before each document with at most the score of one and no lower id.
#[inline(always)]
pub(crate) fn is_full(found: &[Scored], len: usize, document: Scored) -> bool
    requires { len ≤ length found.now }
    ensures { ImpliesFull (length found.now) document (take len found.now) result }
{
    len == found.len() && (len == 0 || comes_before(found[len - 1], document))
}
