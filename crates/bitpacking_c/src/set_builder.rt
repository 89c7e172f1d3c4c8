//! A builder of C: the ids of a set that come one after the other, in a buffer of the caller.

ghost use Rattle.std.proofs.Props.{props};
ghost use Rattle.std.specs.Prelude.{◌≤◌, length, take};
ghost use Rattle.bitpack_slices.specs.Props.{rising_prop};
ghost use Rattle.bitpack_sets.specs.Sets.{IsSet};

use bitpack_sets::test_pushed;
use bitpack_slices::SetError;

/// The ids of a set that is not finished. It borrows the buffer that has them.
///
/// C has to set all of it to zero before it is started: it is then a builder without room.
#[repr(C)]
#[derive(Drop)]
pub struct SetBuilder<'a> {
    pub(crate) ids: &'a mut [u32],
    pub(crate) count: usize,
    pub ghost within: { count ≤ length ids.now },
    pub ghost set: { IsSet (take count ids.now) } by { Prim.hlevel (props, rising_prop) },
}

impl<'a> SetBuilder<'a> {
    ghost use Rattle.std.specs.Prelude.{◌≡◌, ◌^◌, ◌<◌, IfOk};
    ghost use Rattle.bitpacking_c.specs.SetBuilders.{PushesSet};

    /// Pushes all these ids, or none. Returns how many ids there are then.
    #[inline(always)]
    pub(crate) fn extend(&mut self, pushed: &[u32]) -> Result<usize, SetError>
        ensures pushes { PushesSet self.old self.new pushed.now result }
        ensures small { IfOk result (λ count. count < 2 ^ 63) }
        ensures same_buffer { self.new.ids.ghost_name ≡ self.old.ids.ghost_name }
    {
        let count = self.count;
        let buffer = &mut *self.ids;
        test_pushed(&buffer[..count], pushed)?;
        let end = count + pushed.len();
        if end > buffer.len() {
            return Err(SetError::Short);
        }
        buffer[count..end].copy_from_slice(pushed);
        self.count = end;
        Ok(end)
    }
}
