//! A column whose values come one after the other.
//! FORMAT.md, "Columns".

ghost use Rattle.std.specs.Prelude.{◌≡◌, ◌^◌, ◌≤◌, None, length, slice_index};
ghost use Rattle.bitpack_columns.specs.Faults.{first_out};

use crate::column_error::ColumnError;
use crate::column_kind::ColumnKind;
use crate::encoding::encode;
use crate::encoding::order::test_pushed;
use std::alloc::Global;

/// The values of a column that is not finished. A vector holds them, since an encoded column begins with their number.
///
/// A value of a sorted column that is below the one before it is refused when it is pushed, and the builder is unchanged.
#[derive(Drop)]
// claim: columns/14 as `sets/13-14`, of values
pub struct ColumnBuilder {
    kind: ColumnKind,
    values: Vec<u32>,
    pub ghost few: { length values.items ≤ 2 ^ 28 },
    pub ghost ordered: { first_out kind (slice_index values.items 0) values.items ≡ None },
}

impl ColumnBuilder {
    ghost use Rattle.std.specs.Prelude.{◌↔◌, ◌+◌, ◌-◌, ◌<◌, ◌++◌, ◌∷◌, [], IfErr, IsTrue, OnErr, OnOk, slice_get, vec_capacity, vec_len};
    ghost use Rattle.bitpack_columns.specs.Builders.{Pushes, kind_of_builder, room_of_builder, values_of_builder};
    ghost use Rattle.bitpack_columns.specs.Columns.{IsColumn, encoding};

    /// Returns a builder without values. Allocates nothing.
    pub fn new(alloc: Global, kind: ColumnKind) -> ColumnBuilder
        ensures kind { kind_of_builder result ≡ kind }
        ensures values { values_of_builder result ≡ [] }
    {
        ColumnBuilder {
            kind,
            values: Vec::new(alloc),
        }
    }

    /// Pushes a value. It costs one comparison, and now and then the vector grows.
    ///
    /// Fails with `TooLong` if there are 268,435,456 values, with `NotSorted` and the number of values so far if the value is below the last of
    /// them in a sorted column, or with `Memory`. The builder is then unchanged.
    pub fn push(&mut self, value: u32) -> Result<(), ColumnError>
        ensures kind { kind_of_builder self.new ≡ kind_of_builder self.old }
        ensures pushes { Pushes ColumnError.Memory (kind_of_builder self.old) (room_of_builder self.old)
            (values_of_builder self.old) (value ∷ []) (values_of_builder self.new) result }
    {
        test_pushed(self.kind, self.values.as_slice(), &[value])?;
        match self.values.push(value) {
            Ok(()) => Ok(()),
            Err(_) => Err(ColumnError::Memory),
        }
    }

    /// Pushes all these values, or none. The vector grows at most once.
    ///
    /// Fails as [`push`](ColumnBuilder::push) does: `NotSorted` has the position in the column of the first value that is below the one before
    /// it. The builder is then unchanged.
    pub fn push_all(&mut self, values: &[u32]) -> Result<(), ColumnError>
        ensures kind { kind_of_builder self.new ≡ kind_of_builder self.old }
        ensures pushes { Pushes ColumnError.Memory (kind_of_builder self.old) (room_of_builder self.old)
            (values_of_builder self.old) values.now (values_of_builder self.new) result }
    {
        test_pushed(self.kind, self.values.as_slice(), values)?;
        match self.values.extend_from_slice(values) {
            Ok(()) => Ok(()),
            Err(_) => Err(ColumnError::Memory),
        }
    }

    /// Makes room for `additional` more values: pushing these then allocates nothing.
    ///
    /// Fails with `Memory`.
    pub fn make_room(&mut self, additional: usize) -> Result<(), ColumnError>
        ensures kind { kind_of_builder self.new ≡ kind_of_builder self.old }
        ensures values { values_of_builder self.new ≡ values_of_builder self.old }
        ensures room { OnOk result (length (values_of_builder self.old) + additional ≤ room_of_builder self.new) }
        ensures memory { IfErr result (λ e. e ≡ ColumnError.Memory) }
        ensures room_lacks { OnErr result (room_of_builder self.old < length
            (values_of_builder self.old) + additional) }
    {
        match self.values.reserve(additional) {
            Ok(()) => Ok(()),
            Err(_) => Err(ColumnError::Memory),
        }
    }

    /// Whether the values are in order.
    pub fn kind(&self) -> ColumnKind
        ensures { result ≡ kind_of_builder self.now }
    {
        self.kind
    }

    /// The number of values that were pushed.
    pub fn len(&self) -> usize
        ensures { result ≡ length (values_of_builder self.now) }
    {
        self.values.len()
    }

    /// Whether no value was pushed.
    pub fn is_empty(&self) -> bool
        ensures { IsTrue result ↔ (values_of_builder self.now ≡ []) }
    {
        self.values.is_empty()
    }

    /// The last value that was pushed. It is `None` exactly if there is no value.
    pub fn last(&self) -> Option<u32>
        ensures { result ≡ slice_get (values_of_builder self.now) (length (values_of_builder self.now) - 1) }
    {
        self.values.as_slice().last().copied()
    }

    /// The values that were pushed.
    pub fn values(&self) -> &[u32]
        ensures { result.now ≡ values_of_builder self.now }
    {
        self.values.as_slice()
    }

    /// Appends the encoding of the values. The builder retains them, so that more can be pushed.
    ///
    /// Fails with `Memory` if the vector has no room for the column and cannot grow; it grows at most once.
    pub fn encode(&self, out: &mut Vec<u8>) -> Result<(), ColumnError>
        ensures column { OnOk result (IsColumn (kind_of_builder self.now) (values_of_builder self.now)) }
        ensures ok { OnOk result (out.new.items
            ≡ out.old.items ++ encoding (kind_of_builder self.now) (values_of_builder self.now)) }
        ensures memory { IfErr result (λ e. e ≡ ColumnError.Memory) }
        ensures room { OnErr result (vec_capacity out.old
            < vec_len out.old + length (encoding (kind_of_builder self.now) (values_of_builder self.now))) }
        ensures unchanged { OnErr result (out.new.items ≡ out.old.items) }
        ensures capacity { OnErr result (vec_capacity out.new ≡ vec_capacity out.old) }
    {
        encode(self.kind, self.values.as_slice(), out)
    }
}
