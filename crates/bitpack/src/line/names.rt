//! Parsing the names of packers, kinds and kinds of lists.

ghost use Rattle.std.specs.Prelude.{◌≡◌};
ghost use Rattle.bitpack.specs.Grammar.{SpellsKind, list_kind_string, packer_string};
ghost use Rattle.bitpack.specs.inner.Found.{Finds};

use super::PackerName;
use super::numbers::parse_word;
use crate::ListKind;
use bitpacking::Kind;

pub(crate) fn parse_packer(string: &str) -> Option<PackerName>
    ensures { Finds (λ packer. string.now ≡ packer_string packer) result }
{
    match string {
        "1x" => Some(PackerName::OneLane),
        "4x" => Some(PackerName::FourLanes),
        "8x" => Some(PackerName::EightLanes),
        "4s" => Some(PackerName::FourScalar),
        "8s" => Some(PackerName::EightScalar),
        _ => None,
    }
}

pub(crate) fn parse_kind(string: &str) -> Option<Kind>
    ensures { Finds (SpellsKind string.now) result }
{
    if string == "plain" {
        return Some(Kind::Plain);
    }
    let (name, initial) = string.split_once(':')?;
    match name {
        "sorted" => Some(Kind::Sorted(parse_word(initial)?)),
        "strict" if initial == "none" => Some(Kind::StrictlySorted(None)),
        "strict" => Some(Kind::StrictlySorted(Some(parse_word(initial)?))),
        _ => None,
    }
}

pub(crate) fn parse_list_kind(string: &str) -> Option<ListKind>
    ensures { Finds (λ kind. string.now ≡ list_kind_string kind) result }
{
    match string {
        "plain" => Some(ListKind::Plain),
        "sorted" => Some(ListKind::Sorted),
        "strict" => Some(ListKind::StrictlySorted),
        _ => None,
    }
}
