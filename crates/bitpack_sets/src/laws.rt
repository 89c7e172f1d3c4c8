//! Laws of the definitions, each the contract of a function that does nothing at run time, for generic code to call.
//!
//! The definitions are in `specs/`: `IsSet` and `encoding` in Sets, `fault` in Faults, `ids_in` in Reads.

ghost use Rattle.bitpack_sets.specs.Laws.{EncodingIsRead, IdsAreRead, LongestEncoding, NoFault, OneSet};

/// A set has one encoding, and encoded bytes have one set. Bytes have no fault exactly if they encode a set, which is the one that is
/// read from them.
pub fn one_encoding()
    ensures set { OneSet }
    ensures fault { NoFault }
    ensures read { IdsAreRead }
    ensures back { EncodingIsRead }
{}

/// A set of n ids has at most 9 * n / 2 + 10 bytes, rounded down.
// claim: sets/5 sets/10 unique encoding, of at most 9 * n / 2 + 10 bytes
pub fn longest_encoding()
    ensures { LongestEncoding }
{}
