//! A builder of C: the values of a column that come one after the other, in a buffer of the caller.

ghost use Rattle.std.specs.Prelude.{◌≡◌, ◌≤◌, None, length, take};
ghost use Rattle.bitpack_columns.specs.Written.{refusal};
ghost use Rattle.bitpacking_c.specs.Columns.{known_kind};

use crate::column_view::kind_of_number;
use bitpack_columns::{ColumnError, test_pushed};

/// The values of a column that is not finished. It borrows the buffer that has them.
///
/// C has to set all of it to zero before it is started: it is then a builder of a plain column, without room.
#[repr(C)]
#[derive(Drop)]
pub struct ColumnBuilder<'a> {
    pub(crate) values: &'a mut [u32],
    pub(crate) count: usize,
    pub(crate) kind: u8,
    pub ghost within: { count ≤ length values.now },
    pub ghost column: { refusal (known_kind kind) (take count values.now) ≡ None },
}

impl<'a> ColumnBuilder<'a> {
    ghost use Rattle.std.specs.Prelude.{◌^◌, ◌<◌, IfOk};
    ghost use Rattle.bitpacking_c.specs.ColumnBuilders.{PushesColumn};

    /// Pushes all these values, or none. Returns how many values there are then.
    #[inline(always)]
    pub(crate) fn extend(&mut self, pushed: &[u32]) -> Result<usize, ColumnError>
        ensures pushes { PushesColumn self.old self.new pushed.now result }
        ensures small { IfOk result (λ count. count < 2 ^ 63) }
        ensures same_buffer { self.new.values.ghost_name ≡ self.old.values.ghost_name }
    {
        let count = self.count;
        let buffer = &mut *self.values;
        test_pushed(kind_of_number(self.kind), &buffer[..count], pushed)?;
        let end = count + pushed.len();
        if end > buffer.len() {
            return Err(ColumnError::Short);
        }
        buffer[count..end].copy_from_slice(pushed);
        self.count = end;
        Ok(end)
    }
}
