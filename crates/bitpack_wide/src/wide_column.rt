//! A wide column, read without unpacking all of it. It is zero-copy: it borrows its bytes.
//!
//! FORMAT.md, "Wide columns".

mod bounds;
mod chunk;
mod chunks;
mod copying;
mod filling;
mod getting;
mod opening;
mod seeing;
mod tables;
mod testing;

ghost use Rattle.std.specs.Prelude.{◌≡◌};
ghost use Rattle.bitpacking.specs.Bits.{AreBytes};
ghost use Rattle.bitpack_sets.specs.Opened as sets;
ghost use Rattle.bitpack_wide.specs.WideColumnReads as reads;
ghost use Rattle.bitpack_wide.specs.WideColumnSound.{States};
ghost use Rattle.bitpack_wide.specs.WideColumns as columns;

use crate::wide_column_error::WideColumnError;
use bitpack_sets::IdSet;
use opening::{read_wide_column, test_wide_column};

/// A column of 64-bit values. Any of them may be missing. Its bytes were tested when it was opened: reading it tests nothing again and cannot fail.
#[derive(Clone, Copy)]
pub struct WideColumn<'a> {
    pub(crate) bytes: &'a [u8],
    pub(crate) count: usize,
    // What is after the count.
    pub(crate) rest: &'a [u8],
    // The positions without a value.
    pub(crate) missing: IdSet<'a>,
    ghost are_bytes: { AreBytes bytes.now },
    ghost states: { States bytes.now count rest.now },
    ghost is_missing: { sets.encoding_of missing ≡ reads.part_at (columns.chunks_of count) rest.now 0 },
}

impl<'a> WideColumn<'a> {
    ghost use Rattle.std.specs.Prelude.{IfOk, None, length};
    ghost use Rattle.bitpack_groups.specs.Faults.{FindsFault};
    ghost use Rattle.bitpack_wide.specs.WideColumnFaults.{fault};
    ghost use Rattle.bitpack_wide.specs.WideOpened.{encoding_of, values};

    /// Opens an encoded wide column. Tests all bytes, accepts any, and allocates nothing.
    pub fn open(bytes: &'a [u8]) -> Result<WideColumn<'a>, WideColumnError>
        // Bytes with a fault are refused for the first, and bytes without one are opened.
        // claim: wide_columns/2 opens the bytes of a wide column; names others' first fault
        ensures fault { FindsFault result (fault bytes.now) }
        ensures bytes { IfOk result (λ column. encoding_of column ≡ bytes.now) }
        // The bytes are the encoding of these values.
        ensures column { IfOk result (λ column. columns.IsWideColumn (values column)) }
        ensures encoding { IfOk result (λ column. columns.encoding (values column) ≡ bytes.now) }
    {
        let (count, rest, missing) = test_wide_column(bytes)?;
        Ok(WideColumn {
            bytes,
            count,
            rest,
            missing,
        })
    }

    /// The column whose bytes were opened before: they are not tested again. It is for a caller who stores only the bytes of columns that were
    /// opened.
    pub fn of_tested(bytes: &'a [u8]) -> WideColumn<'a>
        // claim: wide_columns/6 as `sets/11`
        requires sound { fault bytes.now ≡ None }
        ensures bytes { encoding_of result ≡ bytes.now }
        ensures column { columns.IsWideColumn (values result) }
        ensures encoding { columns.encoding (values result) ≡ bytes.now }
    {
        let (count, rest, missing) = read_wide_column(bytes);
        WideColumn {
            bytes,
            count,
            rest,
            missing,
        }
    }

    /// The number of values, missing ones too.
    pub fn len(&self) -> usize
        ensures { result ≡ length (values self.now) }
    {
        self.count
    }
}
