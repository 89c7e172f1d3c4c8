//! A wide set whose ids come one after the other.
//! FORMAT.md, "Wide sets".

ghost use Rattle.std.proofs.Props.{props};
ghost use Rattle.bitpack_slices.specs.Props.{rising_prop};
ghost use Rattle.bitpack_wide.specs.Wide.{IsWide};

use crate::encoding::encode;
use crate::encoding::order::test_pushed;
use crate::wide_error::WideError;
use std::alloc::Global;

/// The ids of a wide set that is not finished. A vector holds them, since an encoded set begins with their number.
///
/// An id that is not above the one before it is refused when it is pushed, and the builder is unchanged.
#[derive(Drop)]
// claim: wide/9 as `sets/13-14`
pub struct WideSetBuilder {
    ids: Vec<u64>,
    pub ghost set: { IsWide ids.items } by { Prim.hlevel (props, rising_prop) },
}

impl WideSetBuilder {
    ghost use Rattle.std.specs.Prelude.{◌≡◌, ◌↔◌, ◌+◌, ◌-◌, ◌<◌, ◌≤◌, ◌++◌, ◌∷◌, [], IfErr, IsTrue, OnErr, OnOk, length, slice_get};
    ghost use Rattle.bitpack_wide.specs.Builders.{Pushes, ids_of_builder, room_of_builder};
    ghost use Rattle.bitpack_wide.specs.Written.{AppendsWide};

    /// Returns a builder without ids. Allocates nothing.
    pub fn new(alloc: Global) -> WideSetBuilder
        ensures { ids_of_builder result ≡ [] }
    {
        WideSetBuilder {
            ids: Vec::new(alloc),
        }
    }

    /// Pushes an id. It costs one comparison, and now and then the vector grows.
    ///
    /// Fails with `TooLong` if there are 268,435,456 ids, with `NotSorted` and the number of ids so far if the id is not above the last of
    /// them, or with `Memory`. The builder is then unchanged.
    pub fn push(&mut self, id: u64) -> Result<(), WideError>
        ensures { Pushes (room_of_builder self.old) (ids_of_builder self.old) (id ∷ []) (ids_of_builder self.new) result }
    {
        test_pushed(self.ids.as_slice(), &[id])?;
        match self.ids.push(id) {
            Ok(()) => Ok(()),
            Err(_) => Err(WideError::Memory),
        }
    }

    /// Pushes all these ids, or none. The vector grows at most once.
    ///
    /// Fails as [`push`](WideSetBuilder::push) does: `NotSorted` has the position in the set of the first id that is not above the one before
    /// it. The builder is then unchanged.
    pub fn push_all(&mut self, ids: &[u64]) -> Result<(), WideError>
        ensures { Pushes (room_of_builder self.old) (ids_of_builder self.old) ids.now (ids_of_builder self.new) result }
    {
        test_pushed(self.ids.as_slice(), ids)?;
        match self.ids.extend_from_slice(ids) {
            Ok(()) => Ok(()),
            Err(_) => Err(WideError::Memory),
        }
    }

    /// Makes room for `additional` more ids: pushing these then allocates nothing.
    ///
    /// Fails with `Memory`.
    pub fn make_room(&mut self, additional: usize) -> Result<(), WideError>
        ensures ids { ids_of_builder self.new ≡ ids_of_builder self.old }
        ensures room { OnOk result (length (ids_of_builder self.old) + additional ≤ room_of_builder self.new) }
        ensures memory { IfErr result (λ e. e ≡ WideError.Memory) }
        ensures room_lacks { OnErr result (room_of_builder self.old < length (ids_of_builder self.old) + additional) }
    {
        match self.ids.reserve(additional) {
            Ok(()) => Ok(()),
            Err(_) => Err(WideError::Memory),
        }
    }

    /// The number of ids that were pushed.
    pub fn len(&self) -> usize
        ensures { result ≡ length (ids_of_builder self.now) }
    {
        self.ids.len()
    }

    /// Whether no id was pushed.
    pub fn is_empty(&self) -> bool
        ensures { IsTrue result ↔ (ids_of_builder self.now ≡ []) }
    {
        self.ids.is_empty()
    }

    /// The last id that was pushed: the next one has to be above it. It is `None` exactly if there is no id.
    pub fn last(&self) -> Option<u64>
        ensures { result ≡ slice_get (ids_of_builder self.now) (length (ids_of_builder self.now) - 1) }
    {
        self.ids.as_slice().last().copied()
    }

    /// The ids that were pushed.
    pub fn ids(&self) -> &[u64]
        ensures { result.now ≡ ids_of_builder self.now }
    {
        self.ids.as_slice()
    }

    /// Appends the set of the ids. The builder retains them, so that more can be pushed.
    ///
    /// It requires work space for as many numbers as there are ids. Fails with `Memory` if the vector has no room for the set and cannot grow; it
    /// grows at most once.
    pub fn encode(&self, space: &mut [u32], out: &mut Vec<u8>) -> Result<(), WideError>
        requires { length (ids_of_builder self.now) ≤ length space.old }
        ensures { AppendsWide (ids_of_builder self.now) result out.old out.new }
    {
        encode(self.ids.as_slice(), space, out)
    }
}
