//! A set whose ids come one after the other.
//! FORMAT.md, "Id sets".

ghost use Rattle.std.proofs.Props.{props};
ghost use Rattle.bitpack_slices.specs.Props.{rising_prop};
ghost use Rattle.bitpack_sets.specs.Sets.{IsSet};

use crate::encoding::append_set;
use crate::encoding::order::test_pushed;
use bitpack_slices::SetError;
use std::alloc::Global;

/// The ids of a set that is not finished. A vector holds them, since an encoded set begins with their number.
///
/// An id that is not above the one before it is refused when it is pushed, and the builder is unchanged.
#[derive(Drop)]
// claim: sets/13-14 a builder takes increasing ids, all of a call or none; encodes them
pub struct SetBuilder {
    ids: Vec<u32>,
    pub ghost set: { IsSet ids.items } by { Prim.hlevel (props, rising_prop) },
}

impl SetBuilder {
    ghost use Rattle.std.specs.Prelude.{◌≡◌, ◌↔◌, ◌+◌, ◌-◌, ◌<◌, ◌≤◌, ◌++◌, ◌∷◌, [], IfErr, IsTrue, OnErr, OnOk, length, slice_get, vec_capacity, vec_len};
    ghost use Rattle.bitpack_sets.specs.Builders.{Pushes, ids_of_builder, room_of_builder};
    ghost use Rattle.bitpack_sets.specs.Sets.{encoding};

    /// Returns a builder without ids. Allocates nothing.
    pub fn new(alloc: Global) -> SetBuilder
        ensures { ids_of_builder result ≡ [] }
    {
        SetBuilder {
            ids: Vec::new(alloc),
        }
    }

    /// Pushes an id. It costs one comparison, and now and then the vector grows.
    ///
    /// Fails with `TooLong` if there are 268,435,456 ids, with `NotSorted` and the number of ids so far if the id is not above the last of
    /// them, or with `Memory`. The builder is then unchanged.
    pub fn push(&mut self, id: u32) -> Result<(), SetError>
        ensures { Pushes (room_of_builder self.old) (ids_of_builder self.old) (id ∷ []) (ids_of_builder self.new) result }
    {
        test_pushed(self.ids.as_slice(), &[id])?;
        match self.ids.push(id) {
            Ok(()) => Ok(()),
            Err(_) => Err(SetError::Memory),
        }
    }

    /// Pushes all these ids, or none. The vector grows at most once.
    ///
    /// Fails as [`push`](SetBuilder::push) does: `NotSorted` has the position in the set of the first id that is not above the one before
    /// it. The builder is then unchanged.
    pub fn push_all(&mut self, ids: &[u32]) -> Result<(), SetError>
        ensures { Pushes (room_of_builder self.old) (ids_of_builder self.old) ids.now (ids_of_builder self.new) result }
    {
        test_pushed(self.ids.as_slice(), ids)?;
        match self.ids.extend_from_slice(ids) {
            Ok(()) => Ok(()),
            Err(_) => Err(SetError::Memory),
        }
    }

    /// Makes room for `additional` more ids: pushing these then allocates nothing.
    ///
    /// Fails with `Memory`.
    pub fn make_room(&mut self, additional: usize) -> Result<(), SetError>
        ensures ids { ids_of_builder self.new ≡ ids_of_builder self.old }
        ensures room { OnOk result (length (ids_of_builder self.old) + additional ≤ room_of_builder self.new) }
        ensures memory { IfErr result (λ e. e ≡ SetError.Memory) }
        ensures room_lacks { OnErr result (room_of_builder self.old < length (ids_of_builder self.old) + additional) }
    {
        match self.ids.reserve(additional) {
            Ok(()) => Ok(()),
            Err(_) => Err(SetError::Memory),
        }
    }

    /// The number of ids that were pushed.
    pub fn len(&self) -> usize
        ensures { result ≡ length (ids_of_builder self.now) }
    {
        self.ids.len()
    }

    /// Whether no id was pushed.
    pub fn is_empty(&self) -> bool
        ensures { IsTrue result ↔ (ids_of_builder self.now ≡ []) }
    {
        self.ids.is_empty()
    }

    /// The last id that was pushed: the next one has to be above it. It is `None` exactly if there is no id.
    pub fn last(&self) -> Option<u32>
        ensures { result ≡ slice_get (ids_of_builder self.now) (length (ids_of_builder self.now) - 1) }
    {
        self.ids.as_slice().last().copied()
    }

    /// The ids that were pushed.
    pub fn ids(&self) -> &[u32]
        ensures { result.now ≡ ids_of_builder self.now }
    {
        self.ids.as_slice()
    }

    /// Appends the set of the ids. The builder retains them, so that more can be pushed.
    ///
    /// Fails with `Memory` if the vector has no room for the set and cannot grow; it grows at most once.
    pub fn encode(&self, out: &mut Vec<u8>) -> Result<(), SetError>
        ensures ok { OnOk result (out.new.items ≡ out.old.items ++ encoding (ids_of_builder self.now)) }
        ensures memory { IfErr result (λ e. e ≡ SetError.Memory) }
        ensures room { OnErr result (vec_capacity out.old < vec_len out.old + length (encoding (ids_of_builder self.now))) }
        ensures unchanged { OnErr result (out.new.items ≡ out.old.items) }
        ensures capacity { OnErr result (vec_capacity out.new ≡ vec_capacity out.old) }
    {
        append_set(self.ids.as_slice(), out)
    }
}
