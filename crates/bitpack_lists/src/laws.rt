//! Laws of the definitions, each the contract of a function that does nothing at run time, for generic code to call.
//!
//! The definitions are in `specs/`: `Loose` and `Chained` in Chains; `is_loose` in Parts; `List1` and `fault1` in Version1; `List2` and
//! `fault2` in Version2.

ghost use Rattle.bitpack_lists.specs.Laws.{ChainsReadBack, LooseFitsSmaller, NoFault1, NoFault2, OneEncoding1, OneEncoding2, OneList1, OneList2};

/// `unpack_all` returns the values that `pack_all` packed.
// claim: chains/4 unpacking returns what was packed
pub fn chains_read_back()
    ensures { ChainsReadBack }
{}

/// Values have at most one encoded list of each version, and an encoded list belongs to one kind and one list. Bytes have no fault exactly if
/// they are an encoded list; a fault in a width says that a smaller one holds the same codes.
pub fn one_text()
    ensures encoding { OneEncoding1 }
    ensures list { OneList1 }
    ensures fault { NoFault1 }
    // claim: lists/9 unique encoding; which widths are loose
    ensures loose { LooseFitsSmaller }
    // claim: lists2/15 unique encoding
    ensures encoding2 { OneEncoding2 }
    ensures list2 { OneList2 }
    ensures fault2 { NoFault2 }
{}
