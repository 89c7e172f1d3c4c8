//! What answers are made of: refusals, numbers, bytes and values.

ghost use Rattle.std.specs.Prelude.{◌≡◌, IfOk};
ghost use Rattle.std.specs.Fmt.{decimal};
ghost use Rattle.bitpacking.specs.Bits.{AreBytes};
ghost use Rattle.bitpacking.specs.Codes.{AreWords};
ghost use Rattle.bitpack.specs.Answers.{printed, printed_bytes, printed_found, printed_values, refused};

use super::Answer;
use std::alloc::{AllocError, Global};

/// A refusal, by its number.
pub(crate) fn refuse(alloc: Global, number: u8) -> Result<Answer, AllocError>
    ensures { IfOk result (λ answer. printed answer ≡ refused number) }
{
    Ok(Answer::Printed(format!(in alloc; "refused {number}")?))
}

/// A number.
pub(crate) fn format_number(alloc: Global, number: usize) -> Result<Answer, AllocError>
    ensures { IfOk result (λ answer. printed answer ≡ decimal number) }
{
    Ok(Answer::Printed(format!(in alloc; "{number}")?))
}

/// A position and the value there, or `none`.
pub(crate) fn format_found(alloc: Global, found: Option<(usize, u32)>) -> Result<Answer, AllocError>
    ensures { IfOk result (λ answer. printed answer ≡ printed_found found) }
{
    match found {
        Some((position, value)) => { Ok(Answer::Printed(format!(in alloc; "{position} {value}")?)) }
        None => Ok(Answer::Printed(String::from_str(alloc, "none")?)),
    }
}

/// Bytes as pairs of lower-case digits.
// claim: lines/9 the crate `hex` prints bytes; the compiler tests it
pub(crate) fn format_bytes(alloc: Global, bytes: &[u8]) -> Result<Answer, AllocError>
    ensures answer { IfOk result (λ answer. printed answer ≡ printed_bytes bytes.now) }
    ensures range { AreBytes bytes.now }
{
    let printed = if bytes.is_empty() {
        String::from_str(alloc, "-")?
    } else {
        hex::encode(alloc, bytes)?
    };
    Ok(Answer::Printed(printed))
}

/// Values, which are printed later.
pub(crate) fn copy_values(alloc: Global, values: &[u32]) -> Result<Answer, AllocError>
    ensures answer { IfOk result (λ answer. printed answer ≡ printed_values values.now) }
    ensures range { AreWords values.now }
{
    Ok(Answer::Values(values.to_vec(alloc)?))
}
