//! Wide sets, opened without a copy: a view in the caller's memory holds the bytes, and that they are a wide set.

ghost use Rattle.std.specs.Prelude.{◌≡◌, ◌≢◌, [], length, None};
ghost use Rattle.bitpack_slices.specs.Reads.{has, rank};
ghost use Rattle.bitpack_wide.specs.Faults.{fault};
ghost use Rattle.bitpack_wide.specs.Opened.{encoding_of, ids};
ghost use Rattle.bitpack_wide.specs.Reads.{ids_in};
ghost use Rattle.bitpack_wide.specs.Stated.{States};
ghost use Rattle.bitpacking_c.specs.IdSets.{SeeksId, number_of_answer};
ghost use Rattle.bitpacking_c.specs.Views.{Gets, UnpacksFrom, UnpacksValues};
ghost use Rattle.bitpacking_c.specs.WideSets.{EncodesWide, wide_fault_number};

use bitpack_wide::{Parts, WideSet};

/// A wide set that was opened. It borrows its bytes, which do not change while the view is used.
///
/// C has to set it before it is opened: to the empty wide set of the header, or all of it to zero, which is an empty wide set too.
#[repr(C)]
#[derive(Clone, Copy)]
pub struct WideSetView<'a> {
    bytes: &'a [u8],
    count: usize,
    words: usize,
    // What is after the counts.
    rest: &'a [u8],
    // Only a view that was opened has bytes. What opening them found is stored in it.
    ghost opened: { bytes.now ≢ [] → States bytes.now count words rest.now },
    ghost counted: { count ≡ length (ids_in bytes.now) },
}

impl<'a> WideSetView<'a> {
    /// The view of an opened wide set, which has these bytes.
    fn of_set(bytes: &'a [u8], set: &WideSet<'a>) -> WideSetView<'a>
        requires { encoding_of set.now ≡ bytes.now }
        ensures { result.bytes.now ≡ bytes.now }
    {
        let parts = set.parts();
        WideSetView {
            bytes,
            count: parts.count,
            words: parts.words,
            rest: parts.rest,
        }
    }

    /// The wide set, which is the empty one if the view was not opened. Reads none of the bytes.
    #[inline(always)]
    pub(crate) fn read(&self) -> WideSet<'a>
        ensures { ids result ≡ ids_in self.now.bytes.now }
    {
        if self.bytes.len() == 0 {
            return no_ids();
        }
        WideSet::from_parts(
            self.bytes,
            Parts {
                count: self.count,
                words: self.words,
                rest: self.rest,
            },
        )
    }
}

/// The empty wide set.
fn no_ids<'a>() -> WideSet<'a>
    ensures { ids result ≡ [] }
{
    WideSet::of_tested(&[0x09, 0x00, 0x60])
}

/// Opens a wide set. Tests all bytes. Returns 0, or the number of the first fault.
#[unsafe(no_mangle)]
pub extern "C" fn bitpacking_wide_set_open<'a>(bytes: &'a [u8], view: &mut WideSetView<'a>) -> isize
    // claim: c/54 `wide_set_open`, `wide_set_open_tested`: as `wide/1`, `wide/2`
    ensures answer { result ≡ wide_fault_number (fault bytes.now) }
    ensures opened { fault bytes.now ≡ None → view.new.bytes.now ≡ bytes.now }
    ensures set { fault bytes.now ≡ None → EncodesWide bytes.now (ids_in view.new.bytes.now) }
    ensures unchanged { fault bytes.now ≢ None → view.new ≡ view.old }
{
    match WideSet::open(bytes) {
        Ok(set) => {
            *view = WideSetView::of_set(bytes, &set);
            0
        }
        Err(fault) => -20 - fault.number() as isize,
    }
}

/// Sets a view to bytes that `bitpacking_wide_set_open` accepted before, and does not test them again.
#[unsafe(no_mangle)]
pub extern "C" fn bitpacking_wide_set_open_tested<'a>(bytes: &'a [u8], view: &mut WideSetView<'a>)
    requires tested { fault bytes.now ≡ None }
    ensures opened { view.new.bytes.now ≡ bytes.now }
    ensures set { EncodesWide bytes.now (ids_in view.new.bytes.now) }
{
    *view = WideSetView::of_set(bytes, &WideSet::of_tested(bytes));
}

/// How many ids the wide set has.
#[unsafe(no_mangle)]
pub extern "C" fn bitpacking_wide_set_len(view: &WideSetView<'_>) -> usize
    ensures { result ≡ length (ids_in view.now.bytes.now) }
{
    view.count
}

/// Returns 1 if the wide set has this id, and else 0.
#[unsafe(no_mangle)]
pub extern "C" fn bitpacking_wide_set_contains(view: &WideSetView<'_>, id: u64) -> i32
    ensures { result ≡ number_of_answer (has id (ids_in view.now.bytes.now)) }
{
    if view.read().contains(id) { 1 } else { 0 }
}

/// How many ids are below the target.
#[unsafe(no_mangle)]
pub extern "C" fn bitpacking_wide_set_rank(view: &WideSetView<'_>, target: u64) -> usize
    ensures { result ≡ rank target (ids_in view.now.bytes.now) }
{
    view.read().rank(target)
}

/// Writes the id at a position and returns 1. From the number of ids on it returns 0 and writes nothing.
#[unsafe(no_mangle)]
pub extern "C" fn bitpacking_wide_set_get(
    view: &WideSetView<'_>,
    position: usize,
    id: &mut u64,
) -> i32
    ensures { Gets (ids_in view.now.bytes.now) position id.old id.new result }
{
    match view.read().select(position) {
        Some(found) => {
            *id = found;
            1
        }
        None => 0,
    }
}

/// Writes the position of the first id that is at least the target, and the id, and returns 1. If every id is below the target it returns 0
/// and writes nothing.
#[unsafe(no_mangle)]
pub extern "C" fn bitpacking_wide_set_seek(
    view: &WideSetView<'_>,
    target: u64,
    position: &mut usize,
    id: &mut u64,
) -> i32
    // claim: c/55 `wide_set_len`, `wide_set_contains`, `wide_set_rank`, `wide_set_get`, `wide_set_seek`, `wide_set_unpack`, `wide_set_slice`:
    //   as `wide/3`, `wide/4`; zeros are the empty wide set
    ensures { SeeksId (ids_in view.now.bytes.now) target (position.old, id.old) (position.new, id.new) result }
{
    let Some((at, found)) = view.read().seek(target) else {
        return 0;
    };
    *position = at;
    *id = found;
    1
}

/// Writes all ids to the front of `ids`, and returns their number. If there is no room for them it returns -3 and writes nothing. The
/// rest of `ids` is unchanged.
#[unsafe(no_mangle)]
pub extern "C" fn bitpacking_wide_set_unpack(view: &WideSetView<'_>, ids: &mut [u64]) -> isize
    ensures { UnpacksValues (ids_in view.now.bytes.now) ids.old ids.new result }
{
    let set = view.read();
    if ids.len() < set.len() {
        return -3;
    }
    set.copy_to(ids) as isize
}

/// Writes the ids from a position on to the front of `ids`, as many as there are and as fit. Returns how many these are. The rest of `ids` is
/// unchanged.
#[unsafe(no_mangle)]
pub extern "C" fn bitpacking_wide_set_slice(
    view: &WideSetView<'_>,
    from: usize,
    ids: &mut [u64],
) -> isize
    ensures { UnpacksFrom from (ids_in view.now.bytes.now) ids.old ids.new result }
{
    view.read().copy_range(from, ids) as isize
}
