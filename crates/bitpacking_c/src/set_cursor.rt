//! A cursor of C: a position in the ids of a set that only moves forward, in the caller's memory.

ghost use Rattle.std.proofs.Props.{props};
ghost use Rattle.bitpack_sets.specs.inner.Windows.{IsWindow};

use crate::set_view::SetView;
use bitpack_sets::window::Window;

/// A position in the ids of a set. It has a copy of the view of the set, and borrows its bytes as the view does.
///
/// C has to set all of it to zero before it is started: it is then a cursor of the empty set.
#[repr(C)]
#[derive(Clone, Copy)]
pub struct SetCursor<'a> {
    pub(crate) set: SetView<'a>,
    pub(crate) window: Window,
    ghost reads: { IsWindow set.bytes.now window } by { Prim.hlevel props },
}
