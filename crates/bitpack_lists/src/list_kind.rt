//! The kinds of packed lists.

ghost use Rattle.std.specs.Prelude.{◌≡◌};
ghost use Rattle.bitpack_lists.specs.Chains;
ghost use Rattle.bitpack_lists.specs.Parts.{first_kind, kind_byte, kind_of_byte};

use bitpacking::Kind;
use std::fmt;

/// What is packed instead of the values of a list.
#[derive(Clone, Copy, PartialEq, Eq, Debug)]
pub enum ListKind {
    /// The values.
    Plain,
    /// The difference of each value and the one before it, modulo 2 ^ 32. Before the first comes 0.
    Sorted,
    /// One less than that, modulo 2 ^ 32. Before the first comes `u32::MAX`, so that a list may begin
    /// with 0.
    StrictlySorted,
}

impl ListKind {
    /// The byte of the kind.
    pub(crate) fn byte(self) -> u8
        ensures { result ≡ kind_byte self }
    {
        match self {
            ListKind::Plain => 0,
            ListKind::Sorted => 1,
            ListKind::StrictlySorted => 2,
        }
    }

    /// The kind of a byte that is at most 2.
    pub(crate) fn of_byte(byte: u8) -> ListKind
        ensures { result ≡ kind_of_byte byte }
    {
        match byte {
            0 => ListKind::Plain,
            1 => ListKind::Sorted,
            _ => ListKind::StrictlySorted,
        }
    }

    /// The kind of the first block of a list.
    pub(crate) fn first(self) -> Kind
        ensures { result ≡ first_kind self }
    {
        match self {
            ListKind::Plain => Kind::Plain,
            ListKind::Sorted => Kind::Sorted(0),
            ListKind::StrictlySorted => Kind::StrictlySorted(None),
        }
    }
}

impl fmt::Display for ListKind {
    fn fmt<W: fmt::Write>(&self, f: &mut fmt::Formatter<W>) -> fmt::Result {
        f.write_str(match self {
            ListKind::Plain => "plain",
            ListKind::Sorted => "sorted",
            ListKind::StrictlySorted => "strictly sorted",
        })
    }
}

/// The kind of the block after one of this kind that ends with this value.
pub(crate) fn next_kind(kind: Kind, last: u32) -> Kind
    ensures { result ≡ Rattle.bitpack_lists.specs.Chains.next_kind kind last }
{
    match kind {
        Kind::Plain => Kind::Plain,
        Kind::Sorted(_) => Kind::Sorted(last),
        Kind::StrictlySorted(_) => Kind::StrictlySorted(Some(last)),
    }
}
