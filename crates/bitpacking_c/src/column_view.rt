//! Columns, opened without a copy: a view in the caller's memory holds the bytes, and that they are a column.

ghost use Rattle.std.specs.Prelude.{◌≡◌, ◌≢◌, [], length, None};
ghost use Rattle.bitpack_columns.specs.declared.column_kind.ColumnKind.TheVariants.{Plain};
ghost use Rattle.bitpack_columns.specs.Columns.{kind_bit};
ghost use Rattle.bitpack_columns.specs.Faults.{fault};
ghost use Rattle.bitpack_columns.specs.Opened.{kind_of, values};
ghost use Rattle.bitpack_columns.specs.Sound.{States};
ghost use Rattle.bitpack_columns.specs.Stated.{kind_in, values_in};
ghost use Rattle.bitpacking_c.specs.Columns.{EncodeColumn, column_fault_number, known_kind};
ghost use Rattle.bitpacking_c.specs.Views.{Gets, UnpacksFrom, UnpacksValues};

use bitpack_columns::{Column, ColumnBytes, ColumnKind, Parts};

/// A column that was opened. It borrows its bytes, which do not change while the view is used.
///
/// C has to set it before it is opened: to the empty column of the header, or all of it to zero, which is an empty plain column too.
#[repr(C)]
#[derive(Clone, Copy)]
pub struct ColumnView<'a> {
    bytes: &'a [u8],
    count: usize,
    // What is after the count and the first value.
    rest: ColumnBytes<'a>,
    first: u32,
    kind: u8,
    // Only a view that was opened has bytes. What opening them found is stored in it.
    ghost opened: { bytes.now ≢ [] → States bytes.now (known_kind kind) count first rest.bytes.now },
    ghost counted: { count ≡ length (values_in bytes.now) },
    ghost numbered: { kind ≡ kind_bit (kind_in bytes.now) },
}

impl<'a> ColumnView<'a> {
    ghost use Rattle.bitpack_columns.specs.Opened.{encoding_of};

    /// The view of an opened column, which has these bytes.
    fn of_column(bytes: &'a [u8], column: &Column<'a>) -> ColumnView<'a>
        requires { encoding_of column.now ≡ bytes.now }
        ensures { result.bytes.now ≡ bytes.now }
    {
        let parts = column.parts();
        ColumnView {
            bytes,
            count: parts.count,
            rest: parts.rest,
            first: parts.first,
            kind: number_of(parts.kind),
        }
    }

    /// The column. Reads none of its bytes. If the view was not opened it is the empty plain column.
    #[inline(always)]
    pub(crate) fn column(&self) -> Column<'a>
        ensures values { values result ≡ values_in self.now.bytes.now }
        ensures kind { kind_of result ≡ kind_in self.now.bytes.now }
    {
        if self.bytes.len() == 0 {
            return no_values();
        }
        Column::from_parts(
            self.bytes,
            Parts {
                kind: kind_of_number(self.kind),
                count: self.count,
                first: self.first,
                rest: self.rest,
            },
        )
    }
}

/// The empty plain column.
fn no_values<'a>() -> Column<'a>
    ensures values { values result ≡ [] }
    ensures kind { kind_of result ≡ Plain }
{
    Column::of_tested(&[0x40])
}

/// The number of a kind.
fn number_of(kind: ColumnKind) -> u8
    ensures { result ≡ kind_bit kind }
{
    match kind {
        ColumnKind::Plain => 0,
        ColumnKind::Sorted => 1,
    }
}

/// The kind with a number, which is 0 or 1.
#[inline(always)]
pub(crate) fn kind_of_number(number: u8) -> ColumnKind
    ensures { result ≡ known_kind number }
{
    if number == 0 {
        ColumnKind::Plain
    } else {
        ColumnKind::Sorted
    }
}

/// Opens a column. Tests all bytes. Returns 0, or the number of the first fault.
#[unsafe(no_mangle)]
pub extern "C" fn bitpacking_column_open<'a>(bytes: &'a [u8], view: &mut ColumnView<'a>) -> isize
    ensures answer { result ≡ column_fault_number (fault bytes.now) }
    // claim: c/11
    ensures opened { fault bytes.now ≡ None → view.new.bytes.now ≡ bytes.now }
    ensures column { fault bytes.now ≡ None → EncodeColumn view.new.bytes.now }
    ensures unchanged { fault bytes.now ≢ None → view.new ≡ view.old }
{
    match Column::open(bytes) {
        Ok(column) => {
            *view = ColumnView::of_column(bytes, &column);
            0
        }
        Err(fault) => -20 - fault.number() as isize,
    }
}

/// Sets a view to bytes that `bitpacking_column_open` accepted before, and does not test them again.
#[unsafe(no_mangle)]
pub extern "C" fn bitpacking_column_open_tested<'a>(bytes: &'a [u8], view: &mut ColumnView<'a>)
    requires tested { fault bytes.now ≡ None }
    ensures opened { view.new.bytes.now ≡ bytes.now }
    ensures column { EncodeColumn view.new.bytes.now }
{
    *view = ColumnView::of_column(bytes, &Column::of_tested(bytes));
}

/// How many values the column has.
#[unsafe(no_mangle)]
pub extern "C" fn bitpacking_column_len(view: &ColumnView<'_>) -> usize
    ensures { result ≡ length (values_in view.now.bytes.now) }
{
    view.count
}

/// The kind of the column: 0 for plain, and 1 for sorted.
#[unsafe(no_mangle)]
pub extern "C" fn bitpacking_column_kind(view: &ColumnView<'_>) -> u8
    ensures { result ≡ kind_bit (kind_in view.now.bytes.now) }
{
    view.kind
}

/// Writes the value at a position and returns 1. From the length on it returns 0 and writes nothing.
#[unsafe(no_mangle)]
pub extern "C" fn bitpacking_column_get(
    view: &ColumnView<'_>,
    position: usize,
    item: &mut u32,
) -> i32
    ensures { Gets (values_in view.now.bytes.now) position item.old item.new result }
{
    match view.column().get(position) {
        Some(found) => {
            *item = found;
            1
        }
        None => 0,
    }
}

/// Writes all values to the front of `values`, and returns their number. If there is no room for them it returns -3 and writes nothing.
/// The rest of `values` is unchanged.
#[unsafe(no_mangle)]
pub extern "C" fn bitpacking_column_unpack(view: &ColumnView<'_>, values: &mut [u32]) -> isize
    ensures { UnpacksValues (values_in view.now.bytes.now) values.old values.new result }
{
    if values.len() < view.count {
        return -3;
    }
    view.column().copy_to(values) as isize
}

/// Writes the values from a position on to the front of `values`, as many as there are and as fit. Returns how many these are. The rest of
/// `values` is unchanged.
#[unsafe(no_mangle)]
pub extern "C" fn bitpacking_column_range(
    view: &ColumnView<'_>,
    from: usize,
    values: &mut [u32],
) -> isize
    // claim: c/19-20 `column_len`, `column_kind`, `column_get`, `column_unpack`, `column_range`: as `columns/2-6`; zeros are the empty
    //   plain column
    ensures { UnpacksFrom from (values_in view.now.bytes.now) values.old values.new result }
{
    view.column().copy_range(from, values) as isize
}
