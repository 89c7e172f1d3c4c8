//! What the laws of lists and of the line language are good for. Each function calls one law, and its contract needs it.

ghost use Rattle.std.specs.Prelude.{◌≡◌, ◌<◌, ◌≤◌, ◌^◌, ℕ, List, IsTrue, IfOk, IfErr, length};
ghost use Rattle.bitpacking.specs.Bits.{AreBytes};
ghost use Rattle.bitpacking.specs.Layout.{Layout};
ghost use Rattle.bitpacking.specs.Width.{Fits};
ghost use Rattle.bitpack.specs.Answers.{IsAnswer};
ghost use Rattle.bitpack.specs.Grammar.{Request, Spells};
ghost use Rattle.bitpack_lists.specs.declared.list_kind.ListKind.{ListKind};
ghost use Rattle.bitpack_lists.specs.Parts.{is_loose};
ghost use Rattle.bitpack_lists.specs.Version1.{List1};
ghost use Rattle.bitpack_lists.specs.Version2.{List2};

use bitpack::laws::{one_answer, one_command, one_text};
use bitpack::{ListError, ListKind, list, list2};
use bitpacking::BitPacker;
use std::alloc::Global;

/// Packs a list by two packers of one format. The bytes are equal.
pub fn encoding_by_two<P: BitPacker, Q: BitPacker>(
    alloc: Global,
    packer: &P,
    other: &Q,
    kind: ListKind,
    values: &[u32],
) -> Result<(Vec<u8>, Vec<u8>), ListError>
    requires format { Q.lanes ≡ P.lanes }
    ensures encoding { IfOk result (λ encodings. List1 P.lanes kind values.now encodings.0.items) }
    ensures same { IfOk result (λ encodings. encodings.1.items ≡ encodings.0.items) }
    ensures memory { length values.now ≤ 2 ^ 28 → IfErr result (λ e. e ≡ ListError.Memory) }
{
    one_text();
    let mut encoding = Vec::new(alloc);
    list::encode(packer, kind, values, &mut encoding)?;
    let mut same = Vec::new(alloc);
    list::encode(other, kind, values, &mut same)?;
    Ok((encoding, same))
}

/// Packs a list in version 2; packs it in version 1 and upgrades the result. The bytes are equal.
pub fn encoding_by_upgrade<P: BitPacker>(
    alloc: Global,
    packer: &P,
    kind: ListKind,
    values: &[u32],
) -> Result<(Vec<u8>, Vec<u8>), ListError>
    ensures encoding { IfOk result (λ encodings. List2 P.lanes kind values.now encodings.0.items) }
    ensures same { IfOk result (λ encodings. encodings.1.items ≡ encodings.0.items) }
{
    one_text();
    let mut encoding = Vec::new(alloc);
    list2::encode(packer, kind, values, &mut encoding)?;
    let mut old = Vec::new(alloc);
    list::encode(packer, kind, values, &mut old)?;
    let mut same = Vec::new(alloc);
    list2::upgrade(packer, &old, &mut same)?;
    Ok((encoding, same))
}

/// A version 2 encoding belongs to one list.
// claim: uses/12 each law has a use
pub fn no_two_lists()
    ensures { (kind other_kind : ListKind) (values others encoding : List ℕ) → AreBytes encoding
        → List2 4 kind values encoding → List2 4 other_kind others encoding
        → (other_kind ≡ kind) × (others ≡ values) }
{
    one_text();
}

/// A width is refused as loose if a smaller one holds its codes.
pub fn a_width_too_great()
    ensures { (codes bytes : List ℕ) → Layout 4 7 codes bytes → Fits codes 6 → IsTrue (is_loose 4 7 bytes) }
{
    one_text();
}

/// A width that is refused as loose is above another that its codes fit.
pub fn a_smaller_width()
    ensures { (codes bytes : List ℕ) → Layout 4 7 codes bytes → IsTrue (is_loose 4 7 bytes)
        → (width : ℕ) × (width < 7) × Fits codes width }
{
    one_text();
}

/// A line is not two commands.
pub fn no_two_commands()
    ensures { (line : List ℕ) (packer : _) (command other : Request) → Spells line packer command
        → Spells line packer other → command ≡ other }
{
    one_command();
}

/// A line has no two answers.
pub fn no_two_answers()
    ensures { (line answer other : List ℕ) → IsAnswer line answer → IsAnswer line other → answer ≡ other }
{
    one_answer();
}

/// A line is not a command of two packers.
pub fn no_two_packers()
    ensures { (line : List ℕ) (packer other : _) (command other_command : Request)
        → Spells line packer command → Spells line other other_command → packer ≡ other }
{
    one_command();
}

/// Each line has an answer.
pub fn an_answer()
    ensures { (line : List ℕ) → (answer : List ℕ) × IsAnswer line answer }
{
    one_answer();
}
