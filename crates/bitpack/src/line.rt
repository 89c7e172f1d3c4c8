//! Parsing a line: the packer that it names and the command that it spells.

ghost use Rattle.std.specs.Prelude.{map};
ghost use Rattle.bitpack.specs.Grammar.{Spells};
ghost use Rattle.bitpack.specs.inner.Found.{Asks, Parses, asked_by};

mod bytes;
mod error;
mod forms;
mod names;
mod numbers;
mod values;

use crate::ListKind;
use bitpacking::Kind;
pub(crate) use error::ParseError;
use forms::parse_command;
use names::parse_packer;
use std::alloc::Global;

/// The packers that a line can name.
#[derive(Clone, Copy)]
pub(crate) enum PackerName {
    /// `1x`
    OneLane,
    /// `4x`
    FourLanes,
    /// `8x`
    EightLanes,
    /// `4s`: four lanes on arrays
    FourScalar,
    /// `8s`: eight lanes on arrays
    EightScalar,
}

/// The command of a line for its packer.
#[derive(Drop)]
pub(crate) enum Command {
    /// `size`: how many bytes a block takes at a width.
    Size(u8),
    /// `width`: the least width of a block.
    Width(Kind, Vec<u32>),
    /// `pack`: the bytes of a block at a width.
    Pack(Kind, u8, Vec<u32>),
    /// `unpack`: the block of the bytes at a width.
    Unpack(Kind, u8, Vec<u8>),
    /// `enc`: the bytes of a packed list.
    Enc(ListKind, Vec<u32>),
    /// `dec`: the list of the bytes.
    Dec(Vec<u8>),
    /// `seek`: the first value of the list of the bytes that is at least a target.
    Seek(u32, Vec<u8>),
    /// `upgrade`: the list of the bytes, converted to version 2.
    Upgrade(Vec<u8>),
}

/// A line that was parsed.
#[derive(Drop)]
pub(crate) struct Line {
    pub(crate) packer: PackerName,
    pub(crate) command: Command,
}

/// The most bytes of a line, and the most values that one line can spell.
pub(crate) const LINE_LIMIT: usize = 65_536;

/// The most fields of a line.
const MOST_FIELDS: usize = 5;

/// Parses a line. It is an error if the line is not in the grammar, or if memory runs out.
pub(crate) fn parse_line(alloc: Global, line: &[u8]) -> Result<Line, ParseError>
    ensures { Parses asked_by (λ asked. Spells line.now asked.0 asked.1) result }
{
    let Ok(string) = std::str::from_utf8(line) else {
        return Err(ParseError::Spelling);
    };
    let fields: Vec<&str> = string.split(' ').take(MOST_FIELDS + 1).collect(alloc)?;
    parse_fields(alloc, &fields)
}

fn parse_fields(alloc: Global, fields: &[&str]) -> Result<Line, ParseError>
    ensures { Parses asked_by (λ asked. Asks (map (λ field. field.now) fields.now) asked.0 asked.1) result }
{
    let [verb, packer, arguments @ ..] = fields else {
        return Err(ParseError::Spelling);
    };
    let packer = parse_packer(packer).ok_or(ParseError::Spelling)?;
    let command = parse_command(alloc, verb, arguments)?;
    Ok(Line { packer, command })
}
