//! Writing bytes so that what was written is known if a write fails.

ghost use Rattle.std.specs.Prelude.{◌≡◌, OnOk, OnErr, IfErr};
ghost use Rattle.std.specs.Io.KnownBytes.{Appends, Keeps};
ghost use Rattle.bitpack.specs.Lines.{AppendsBeginning};

use super::run_error::RunError;
use std::io::Write;

/// Writes all bytes, by one call or more. The first call that fails or writes nothing is the last.
pub(crate) fn write_all<W: Write>(writer: &mut W, bytes: &[u8]) -> Result<(), RunError>
    ensures ok { OnOk result (Appends (W.contents writer.old) (W.contents writer.new) bytes.now) }
    ensures err { OnErr result (AppendsBeginning (W.contents writer.old) (W.contents writer.new) bytes.now) }
    ensures kind { IfErr result (λ e. e ≡ RunError.Write) }
{
    let mut left = bytes;
    while !left.is_empty() {
        match writer.write(left) {
            Ok(0) | Err(_) => return Err(RunError::Write),
            Ok(count) => left = &left[count..],
        }
    }
    Ok(())
}

/// Flushes the writer.
pub(crate) fn flush<W: Write>(writer: &mut W) -> Result<(), RunError>
    ensures unchanged { Keeps (W.contents writer.old) (W.contents writer.new) }
    ensures kind { IfErr result (λ e. e ≡ RunError.Write) }
{
    match writer.flush() {
        Ok(()) => Ok(()),
        Err(_) => Err(RunError::Write),
    }
}
