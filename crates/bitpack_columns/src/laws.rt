//! Laws of the definitions, each the contract of a function that does nothing at run time, for generic code to call.
//!
//! The definitions are in `specs/`: `IsColumn` and `encoding` in Columns, `fault` in Faults, `kind_in` and `values_in` in Stated.

ghost use Rattle.bitpack_columns.specs.Laws.{EncodingIsRead, LongestEncoding, NoFault, OneColumn, ValuesAreRead};

/// A column has one encoding, and encoded bytes have one column. Bytes have no fault exactly if they encode a column, which is the one
/// that is read from them.
pub fn one_encoding()
    ensures column { OneColumn }
    ensures fault { NoFault }
    ensures read { ValuesAreRead }
    ensures back { EncodingIsRead }
{}

/// A column of n values has at most 17 * n / 4 + 16 bytes, rounded down.
// claim: columns/16-17 unique encoding, of at most 17 * n / 4 + 16 bytes
pub fn longest_encoding()
    ensures { LongestEncoding }
{}
