//! Id sets, opened without a copy: a view in the caller's memory holds the bytes, and that they are a set.

ghost use Rattle.std.specs.Prelude.{◌≡◌, ◌≢◌, ◌≤◌, ◌&&◌, ℕ, [], length, nat_le, slice_index, take, None};
ghost use Rattle.std.specs.List.{filter};
ghost use Rattle.bitpack_sets.specs.Described.{Counts, chunks_of};
ghost use Rattle.bitpack_sets.specs.Faults.{fault};
ghost use Rattle.bitpack_sets.specs.Opened.{encoding_of, ids};
ghost use Rattle.bitpack_slices.specs.Reads.{has};
ghost use Rattle.bitpack_sets.specs.Reads.{ids_in};
ghost use Rattle.bitpack_sets.specs.Sets.{encoding};
ghost use Rattle.bitpack_sets.specs.Stated.{States};
ghost use Rattle.bitpacking_c.specs.IdSets.{Encodes, SeeksId, number_of_answer, set_fault_number};
ghost use Rattle.bitpacking_c.specs.Views.{Gets, UnpacksValues, WritesFound};

use bitpack_sets::{AsSet, Description, IdSet, Parts, front_len};

/// An id set that was opened. It borrows its bytes, which do not change while the view is used.
///
/// C has to set it before it is opened: to the empty set of the header, or all of it to zero, which is an empty set too.
#[repr(C)]
#[derive(Clone, Copy)]
pub struct SetView<'a> {
    pub(crate) bytes: &'a [u8],
    count: usize,
    chunks: usize,
    // What is after the counts.
    rest: &'a [u8],
    // Only a view that was opened has bytes. What opening them found is stored in it.
    ghost opened: { bytes.now ≢ [] → States bytes.now count chunks rest.now },
    ghost counted: { count ≡ length (ids_in bytes.now) },
}

impl<'a> SetView<'a> {
    ghost use Rattle.std.specs.Prelude.{IfSome};
    ghost use Rattle.bitpack_sets.specs.inner.Windows.{IsWindow};
    ghost use Rattle.bitpack_sets.specs.declared.window.Window.{Window};

    /// The view of an opened set, which has these bytes.
    fn of_set(bytes: &'a [u8], set: &IdSet<'a>) -> SetView<'a>
        requires { encoding_of set.now ≡ bytes.now }
        ensures { result.bytes.now ≡ bytes.now }
    {
        let parts = set.parts();
        SetView {
            bytes,
            count: parts.count,
            chunks: parts.chunks,
            rest: parts.rest,
        }
    }

    /// The set, if the view was opened. Reads none of the bytes.
    fn set(&self) -> Option<IdSet<'a>>
        ensures some { IfSome result (λ set. ids set ≡ ids_in self.now.bytes.now) }
        ensures bytes { IfSome result (λ set. encoding_of set ≡ self.now.bytes.now) }
        ensures none { result ≡ None → ids_in self.now.bytes.now ≡ [] }
        ensures form { result ≡ None → slice_index self.now.bytes.now 0 ≡ 0 }
    {
        if self.bytes.len() == 0 {
            return None;
        }
        Some(IdSet::from_parts(
            self.bytes,
            Parts {
                count: self.count,
                chunks: self.chunks,
                rest: self.rest,
            },
        ))
    }

    /// The set, which is the empty one if the view was not opened. Reads none of the bytes.
    #[inline(always)]
    pub(crate) fn read(&self) -> IdSet<'a>
        ensures ids { ids result ≡ ids_in self.now.bytes.now }
        // Windows of the one are of the other.
        ensures before { (window : Window) → IsWindow self.now.bytes.now window → IsWindow (encoding_of result) window }
        ensures after { (window : Window) → IsWindow (encoding_of result) window → IsWindow self.now.bytes.now window }
    {
        let Some(set) = self.set() else {
            return no_ids();
        };
        set
    }
}

impl<'a> AsSet for SetView<'a> {
    ghost its_ids = { λ view. ids_in view.bytes.now };

    #[inline(always)]
    fn as_set(&self) -> IdSet<'_> {
        self.read()
    }
}

/// Writes an id that was found and returns 1, or returns 0 and writes nothing.
#[inline(always)]
pub(crate) fn written(found: Option<u32>, id: &mut u32) -> i32
    ensures { WritesFound found id.old id.new result }
{
    match found {
        Some(found) => {
            *id = found;
            1
        }
        None => 0,
    }
}

/// The empty set.
fn no_ids<'a>() -> IdSet<'a>
    ensures ids { ids result ≡ [] }
    ensures form { slice_index (encoding_of result) 0 ≡ 128 }
{
    IdSet::of_tested(&[0x80])
}

/// Opens an id set. Tests all bytes. Returns 0, or the number of the first fault.
#[unsafe(no_mangle)]
// claim: c/11 c/18 opens exactly the bytes of a set, a column; `set_open_tested`, `column_open_tested` require that
pub extern "C" fn bitpacking_set_open<'a>(bytes: &'a [u8], view: &mut SetView<'a>) -> isize
    ensures answer { result ≡ set_fault_number (fault bytes.now) }
    ensures opened { fault bytes.now ≡ None → view.new.bytes.now ≡ bytes.now }
    ensures set { fault bytes.now ≡ None → Encodes bytes.now (ids_in view.new.bytes.now) }
    ensures unchanged { fault bytes.now ≢ None → view.new ≡ view.old }
{
    match IdSet::open(bytes) {
        Ok(set) => {
            *view = SetView::of_set(bytes, &set);
            0
        }
        Err(fault) => -20 - fault.number() as isize,
    }
}

/// Sets a view to bytes that `bitpacking_set_open` accepted before, and does not test them again.
#[unsafe(no_mangle)]
pub extern "C" fn bitpacking_set_open_tested<'a>(bytes: &'a [u8], view: &mut SetView<'a>)
    requires tested { fault bytes.now ≡ None }
    ensures opened { view.new.bytes.now ≡ bytes.now }
    ensures set { Encodes bytes.now (ids_in view.new.bytes.now) }
{
    *view = SetView::of_set(bytes, &IdSet::of_tested(bytes));
}

/// The length of the set at the front of the bytes, with any bytes after it. Returns 0 if its head has a fault, or if the bytes end before
/// the set does. Tests no more of it: it is opened afterwards.
#[unsafe(no_mangle)]
// claim: c/50 `set_front_len`: as `sets/31`
pub extern "C" fn bitpacking_set_front_len(bytes: &[u8]) -> usize
    ensures front { (n : ℕ) → n ≤ length bytes.now → fault (take n bytes.now) ≡ None → result ≡ n }
    ensures within { result ≤ length bytes.now }
{
    front_len(bytes).unwrap_or(0)
}

/// How many ids the set has.
#[unsafe(no_mangle)]
pub extern "C" fn bitpacking_set_len(view: &SetView<'_>) -> usize
    ensures { result ≡ length (ids_in view.now.bytes.now) }
{
    view.count
}

/// Returns 1 if the set has this id, and else 0.
#[unsafe(no_mangle)]
pub extern "C" fn bitpacking_set_contains(view: &SetView<'_>, id: u32) -> i32
    ensures { result ≡ number_of_answer (has id (ids_in view.now.bytes.now)) }
{
    let Some(set) = view.set() else {
        return 0;
    };
    if set.contains(id) { 1 } else { 0 }
}

/// How many ids are from `low` to `high`, both included.
#[unsafe(no_mangle)]
// claim: c/49 `set_count_between`: as `sets/30`
pub extern "C" fn bitpacking_set_count_between(view: &SetView<'_>, low: u32, high: u32) -> usize
    ensures { result ≡ length (filter (λ x. nat_le low x && nat_le x high) (ids_in view.now.bytes.now)) }
{
    view.as_set().count_between(low, high)
}

/// Writes what the set is like.
#[unsafe(no_mangle)]
// claim: c/51 `set_describe`: as `sets/32`
pub extern "C" fn bitpacking_set_describe(view: &SetView<'_>, to: &mut Description)
    ensures ids { to.new.ids ≡ length (ids_in view.now.bytes.now) }
    ensures bytes { to.new.bytes ≡ length (encoding (ids_in view.now.bytes.now)) }
    ensures bodies { Counts to.new (chunks_of (ids_in view.now.bytes.now)) }
{
    *to = view.as_set().describe();
}

/// Writes all ids to the front of `ids`, and returns their number. If there is no room for them it returns -3 and writes nothing. The
/// rest of `ids` is unchanged.
#[unsafe(no_mangle)]
pub extern "C" fn bitpacking_set_unpack(view: &SetView<'_>, ids: &mut [u32]) -> isize
    ensures { UnpacksValues (ids_in view.now.bytes.now) ids.old ids.new result }
{
    let Some(set) = view.set() else {
        return 0;
    };
    if ids.len() < set.len() {
        return -3;
    }
    set.copy_to(ids) as isize
}

/// Writes the id at a position and returns 1. From the number of ids on it returns 0 and writes nothing.
#[unsafe(no_mangle)]
pub extern "C" fn bitpacking_set_get(view: &SetView<'_>, position: usize, id: &mut u32) -> i32
    ensures { Gets (ids_in view.now.bytes.now) position id.old id.new result }
{
    let Some(set) = view.set() else {
        return 0;
    };
    written(set.select(position), id)
}

/// Writes the position of the first id that is at least the target, and the id, and returns 1. If every id is below the target it returns 0
/// and writes nothing.
#[unsafe(no_mangle)]
pub extern "C" fn bitpacking_set_seek(
    view: &SetView<'_>,
    target: u32,
    position: &mut usize,
    id: &mut u32,
) -> i32
    // claim: c/12-14 c/31 `set_len`, `set_contains`, `set_rank`, `set_get`, `set_seek`, `set_unpack`, `set_slice`: as `sets/2-4`; zeros are
    //   the empty set
    ensures { SeeksId (ids_in view.now.bytes.now) target (position.old, id.old) (position.new, id.new) result }
{
    let Some(set) = view.set() else {
        return 0;
    };
    let Some((at, found)) = set.seek(target) else {
        return 0;
    };
    *position = at;
    *id = found;
    1
}
