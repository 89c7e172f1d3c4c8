//! The calls on builders of columns.

ghost use Rattle.std.specs.Prelude.{◌≡◌, ◌∷◌, ◌<◌, ◌≤◌, [], length, pos, negsuc};
ghost use Rattle.bitpack_columns.specs.Written.{WritesColumn};
ghost use Rattle.bitpacking_c.specs.ColumnBuilders.{PushesColumn, StartsColumn, pushed_to};
ghost use Rattle.bitpacking_c.specs.Columns.{AnswersColumn, NumbersColumn, known_kind};

use crate::column_builder::ColumnBuilder;
use crate::column_packing::{answer, pack};
use crate::column_view::kind_of_number;

/// Starts a builder of a column, of kind 0 for plain and 1 for sorted. Pushed values go into `values`, which the builder borrows. Returns 0;
/// or for another kind -23, and then the builder is unchanged.
#[unsafe(no_mangle)]
pub extern "C" fn bitpacking_column_builder_start<'a>(
    builder: &mut ColumnBuilder<'a>,
    kind: u8,
    values: &'a mut [u32],
) -> isize
    ensures started { kind ≤ 1 → (result ≡ pos 0) × StartsColumn kind values.old builder.new }
    ensures same_buffer { kind ≤ 1 → builder.new.values.ghost_name ≡ values.entry.ghost_name }
    ensures unknown { 1 < kind → (result ≡ negsuc 22) × (builder.new ≡ builder.old) }
{
    if kind > 1 {
        return -23;
    }
    *builder = ColumnBuilder {
        values,
        count: 0,
        kind,
    };
    0
}

/// Pushes a value and returns how many values there are then. If it is out of order it returns -30, if there are 268,435,456 values -25, and
/// if the buffer is full -3; then nothing is written.
#[unsafe(no_mangle)]
pub extern "C" fn bitpacking_column_builder_push(
    builder: &mut ColumnBuilder<'_>,
    value: u32,
) -> isize
    ensures answer { NumbersColumn result (PushesColumn builder.old builder.new (value ∷ [])) }
    ensures same_buffer { builder.new.values.ghost_name ≡ builder.old.values.ghost_name }
{
    let mut position = 0;
    answer(builder.extend(&[value]), &mut position)
}

/// Pushes all these values, or none, and returns how many values there are then. It has the faults of `bitpacking_column_builder_push`. The
/// position in the column of the first value out of order is written.
#[unsafe(no_mangle)]
pub extern "C" fn bitpacking_column_builder_extend(
    builder: &mut ColumnBuilder<'_>,
    values: &[u32],
    position: &mut usize,
) -> isize
    ensures answer { AnswersColumn result position.old position.new
        (PushesColumn builder.old builder.new values.now) }
    ensures same_buffer { builder.new.values.ghost_name ≡ builder.old.values.ghost_name }
{
    answer(builder.extend(values), position)
}

/// How many values were pushed.
#[unsafe(no_mangle)]
pub extern "C" fn bitpacking_column_builder_len(builder: &ColumnBuilder<'_>) -> usize
    ensures { result ≡ length (pushed_to builder.now) }
{
    builder.count
}

/// Writes the column of the values at the start of `bytes`, and returns its length. The rest of `bytes` is unchanged. If there is no room it
/// returns -3 and writes nothing.
#[unsafe(no_mangle)]
pub extern "C" fn bitpacking_column_builder_finish(
    builder: &ColumnBuilder<'_>,
    bytes: &mut [u8],
) -> isize
    ensures { NumbersColumn result (λ answer. WritesColumn (known_kind builder.now.kind)
        (pushed_to builder.now) answer bytes.old bytes.new) }
{
    let values = &builder.values[..builder.count];
    let mut position = 0;
    answer(
        pack(kind_of_number(builder.kind), values, bytes),
        &mut position,
    )
}
