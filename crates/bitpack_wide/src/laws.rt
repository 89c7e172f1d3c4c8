//! Laws of the definitions, each the contract of a function that does nothing at run time, for generic code to call.
//!
//! The definitions are in `specs/`: `IsWide` and `encoding` in Wide, `fault` in Faults, `ids_in` in Reads. Wide columns have theirs in
//! WideColumns, WideColumnFaults and WideColumnReads.

ghost use Rattle.bitpack_wide.specs.Laws.{EncodingIsRead, IdsAreRead, LongestEncoding, NoFault, OneWide};
ghost use Rattle.bitpack_wide.specs.WideColumnLaws.{ValuesAreRead};

/// A wide set has one encoding, and encoded bytes have one wide set. Bytes have no fault exactly if they encode a wide set, which is the one
/// that is read from them.
// claim: wide/5 unique encoding
pub fn one_encoding()
    ensures set { OneWide }
    ensures fault { NoFault }
    ensures read { IdsAreRead }
    ensures back { EncodingIsRead }
{}

/// A wide set of n ids has at most 33 * n / 4 + 22 bytes, rounded down.
// claim: wide/10 at most 33 * n / 4 + 22 bytes
pub fn longest_encoding()
    ensures { LongestEncoding }
{}

/// The values that are read from bytes without a fault are a wide column, and the bytes are its encoding.
// claim: wide_columns/5 bytes without a fault are the encoding of their values
pub fn one_column_encoding()
    ensures read { ValuesAreRead }
{}
