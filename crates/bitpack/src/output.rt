//! The bytes of answers that are not yet written. They are put one after another, and written together.

ghost use Rattle.std.specs.Prelude.{◌≡◌, ◌+◌, ◌≤◌, ℕ, List, [], ◌++◌, length, take, OnOk, OnErr, IfErr};
ghost use Rattle.std.specs.Io.KnownBytes.{Appends};
ghost use Rattle.bitpack.specs.Lines.{AppendsBeginning, AppendsBut, StopsAfter};

use super::run_error::RunError;
use super::writing::write_all;
use std::io::Write;
use std::marker::Model;

/// The most bytes that are buffered.
const ROOM: usize = 65_536;

/// The bytes that are buffered. It allocates only for these.
#[derive(Drop)]
pub(crate) struct Output {
    bytes: [u8; ROOM],
    len: usize,
}

impl Model for Output {
    ghost Value = { List ℕ };

    ghost view = { λ output. take output.len output.bytes };

    ghost invariant = { λ output. output.len ≤ 65536 };
}

impl Output {
    pub(crate) fn new() -> Output
        ensures { result ≡ [] }
    {
        Output {
            bytes: [0; ROOM],
            len: 0,
        }
    }

    /// Writes the bytes that are buffered.
    pub(crate) fn write_out<W: Write>(&mut self, writer: &mut W) -> Result<(), RunError>
        ensures empty { OnOk result (self.new ≡ []) }
        ensures ok { OnOk result (Appends (W.contents writer.old) (W.contents writer.new) self.old) }
        ensures err { OnErr result (AppendsBeginning (W.contents writer.old) (W.contents writer.new) self.old) }
        ensures kind { IfErr result (λ e. e ≡ RunError.Write) }
    {
        let len = self.len;
        write_all(writer, &self.bytes[..len])?;
        self.len = 0;
        Ok(())
    }

    /// Writes the bytes that are buffered, since memory ran out. If that fails, it is a failed write that ends the run.
    pub(crate) fn end_without_memory<W: Write>(&mut self, writer: &mut W) -> RunError
        ensures { StopsAfter result (W.contents writer.old) (W.contents writer.new) self.old self.old }
    {
        match self.write_out(writer) {
            Ok(()) => RunError::Memory,
            Err(error) => error,
        }
    }

    /// Puts bytes after the ones that are buffered. If there is no room, all buffered bytes are written first.
    pub(crate) fn put<W: Write>(&mut self, writer: &mut W, bytes: &[u8]) -> Result<(), RunError>
        ensures ok { OnOk result
            (AppendsBut (W.contents writer.old) (W.contents writer.new) (self.old ++ bytes.now) self.new) }
        ensures err { OnErr result
            (AppendsBeginning (W.contents writer.old) (W.contents writer.new) (self.old ++ bytes.now)) }
        ensures kind { IfErr result (λ e. e ≡ RunError.Write) }
    {
        if bytes.len() <= ROOM - self.len {
            self.buffer(bytes);
            return Ok(());
        }
        self.write_out(writer)?;
        if bytes.len() <= ROOM {
            self.buffer(bytes);
            return Ok(());
        }
        write_all(writer, bytes)
    }

    /// Buffers bytes that there is room for.
    fn buffer(&mut self, bytes: &[u8])
        requires room { length self.old + length bytes.now ≤ 65536 }
        ensures { self.new ≡ self.old ++ bytes.now }
    {
        let end = self.len + bytes.len();
        self.bytes[self.len..end].copy_from_slice(bytes);
        self.len = end;
    }
}
