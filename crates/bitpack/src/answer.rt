//! The answer to a line.

ghost use Rattle.std.specs.Prelude.{IfErr, IfOk, OnOk};
ghost use Rattle.bitpack.specs.inner.Found.{request_of};
ghost use Rattle.bitpack.specs.Answers.{IsAnswer, IsReply, lanes_of, printed};
ghost use Rattle.bitpack.specs.Lines.{AppendsAnswer, StopsAtAnswer};

mod digits;
mod formatting;
mod lists;
mod printing;
mod replies;
mod upgrades;

use crate::line::{Command, LINE_LIMIT, Line, PackerName, ParseError, parse_line};
use crate::output::Output;
use crate::{ListKind, RunError};
use bitpacking::{BitPacker, BitPacker1x, BitPacker4x, BitPacker8x, Counted};
use formatting::refuse;
use lists::{answer_dec, answer_enc, answer_seek};
use printing::put_answer;
use replies::{answer_pack, answer_size, answer_unpack, answer_width};
use std::alloc::{AllocError, Global};
use std::io::Write;
use upgrades::answer_upgrade;

// The numbers of the refusals of lines.
const NOT_SPELLED: u8 = 1;

const NOT_A_BLOCK: u8 = 2;

const TOO_WIDE: u8 = 3;

const TOO_GREAT: u8 = 4;

const NOT_ITS_BYTES: u8 = 5;

const TOO_LONG: u8 = 6;

/// An answer, before it is printed.
#[derive(Drop)]
pub(crate) enum Answer {
    /// What is printed as it is.
    Printed(String),
    /// The values of a block.
    Values(Vec<u32>),
    /// The kind and the values of a packed list.
    List(ListKind, Vec<u32>),
}

/// Writes the answer to a line into the output, with its line feed. If memory lacks for it, no part of it is written.
pub(crate) fn answer_line<W: Write>(
    alloc: Global,
    line: &[u8],
    output: &mut Output,
    writer: &mut W,
) -> Result<(), RunError>
    ensures ok { OnOk result
        (AppendsAnswer (W.contents writer.old) (W.contents writer.new) output.old output.new line.now) }
    ensures err { IfErr result
        (λ e. StopsAtAnswer e (W.contents writer.old) (W.contents writer.new) output.old line.now) }
{
    let Ok(answer) = answer_to(alloc, line) else {
        return Err(output.end_without_memory(writer));
    };
    put_answer(output, writer, &answer)?;
    output.put(writer, b"\n")
}

/// The answer to a line, without its line feed.
pub(crate) fn answer_to(alloc: Global, line: &[u8]) -> Result<Answer, AllocError>
    ensures { IfOk result (λ answer. IsAnswer line.now (printed answer)) }
{
    if line.len() > LINE_LIMIT {
        return refuse(alloc, TOO_LONG);
    }
    match parse_line(alloc, line) {
        Ok(line) => reply(alloc, &line),
        Err(ParseError::Spelling) => refuse(alloc, NOT_SPELLED),
        Err(ParseError::Memory) => Err(AllocError),
    }
}

fn reply(alloc: Global, line: &Line) -> Result<Answer, AllocError>
    ensures { IfOk result
        (λ answer. IsReply (lanes_of line.now.packer) (request_of line.now.command) (printed answer)) }
{
    match line.packer {
        PackerName::OneLane => reply_by(alloc, &BitPacker1x::new(), &line.command),
        PackerName::FourLanes => reply_by(alloc, &BitPacker4x::new(), &line.command),
        PackerName::EightLanes => reply_by(alloc, &BitPacker8x::new(), &line.command),
        PackerName::FourScalar => reply_by(alloc, &BitPacker4x::scalar(), &line.command),
        PackerName::EightScalar => reply_by(alloc, &BitPacker8x::scalar(), &line.command),
    }
}

fn reply_by<P: Counted>(alloc: Global, packer: &P, command: &Command) -> Result<Answer, AllocError>
    ensures { IfOk result (λ answer. IsReply P.lanes (request_of command.now) (printed answer)) }
{
    match command {
        Command::Size(width) => answer_size::<P>(alloc, *width),
        Command::Width(kind, values) => answer_width(alloc, packer, *kind, values.as_slice()),
        Command::Pack(kind, width, values) => {
            answer_pack(alloc, packer, *kind, *width, values.as_slice())
        }
        Command::Unpack(kind, width, bytes) => {
            answer_unpack(alloc, packer, *kind, *width, bytes.as_slice())
        }
        Command::Enc(kind, values) => answer_enc(alloc, packer, *kind, values.as_slice()),
        Command::Dec(bytes) => answer_dec(alloc, packer, bytes.as_slice()),
        Command::Seek(target, bytes) => answer_seek(alloc, packer, *target, bytes.as_slice()),
        Command::Upgrade(bytes) => answer_upgrade(alloc, packer, bytes.as_slice()),
    }
}
