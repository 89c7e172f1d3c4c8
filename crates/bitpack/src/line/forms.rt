//! The forms of a line: which fields follow each verb.

ghost use Rattle.std.specs.Prelude.{[], ◌∷◌, map};
ghost use Rattle.bitpack.specs.Grammar.{SpellsRequest};
ghost use Rattle.bitpack.specs.inner.Found.{Parses, request_of};

use super::Command;
use super::bytes::parse_bytes;
use super::error::ParseError::{self, Spelling};
use super::names::{parse_kind, parse_list_kind};
use super::numbers::{parse_width, parse_word};
use super::values::parse_values;
use std::alloc::Global;

/// Parses the command that a verb and the fields after the packer spell.
pub(crate) fn parse_command(
    alloc: Global,
    verb: &str,
    arguments: &[&str],
) -> Result<Command, ParseError>
    ensures { Parses request_of (SpellsRequest verb.now (map (λ field. field.now) arguments.now)) result }
{
    match arguments {
        [first] => parse_with_one(alloc, verb, first),
        [first, second] => parse_with_two(alloc, verb, first, second),
        [first, second, third] => parse_with_three(alloc, verb, first, second, third),
        _ => Err(Spelling),
    }
}

fn parse_with_one(alloc: Global, verb: &str, first: &str) -> Result<Command, ParseError>
    ensures { Parses request_of (SpellsRequest verb.now (first.now ∷ [])) result }
{
    match verb {
        "size" => Ok(Command::Size(parse_width(first).ok_or(Spelling)?)),
        "dec" => Ok(Command::Dec(parse_bytes(alloc, first)?)),
        "upgrade" => Ok(Command::Upgrade(parse_bytes(alloc, first)?)),
        _ => Err(Spelling),
    }
}

fn parse_with_two(
    alloc: Global,
    verb: &str,
    first: &str,
    second: &str,
) -> Result<Command, ParseError>
    ensures { Parses request_of (SpellsRequest verb.now (first.now ∷ second.now ∷ [])) result }
{
    match verb {
        "width" => Ok(Command::Width(
            parse_kind(first).ok_or(Spelling)?,
            parse_values(alloc, second)?,
        )),
        "enc" => Ok(Command::Enc(
            parse_list_kind(first).ok_or(Spelling)?,
            parse_values(alloc, second)?,
        )),
        "seek" => Ok(Command::Seek(
            parse_word(first).ok_or(Spelling)?,
            parse_bytes(alloc, second)?,
        )),
        _ => Err(Spelling),
    }
}

fn parse_with_three(
    alloc: Global,
    verb: &str,
    first: &str,
    second: &str,
    third: &str,
) -> Result<Command, ParseError>
    ensures { Parses request_of (SpellsRequest verb.now (first.now ∷ second.now ∷ third.now ∷ [])) result }
{
    match verb {
        "pack" => Ok(Command::Pack(
            parse_kind(first).ok_or(Spelling)?,
            parse_width(second).ok_or(Spelling)?,
            parse_values(alloc, third)?,
        )),
        "unpack" => Ok(Command::Unpack(
            parse_kind(first).ok_or(Spelling)?,
            parse_width(second).ok_or(Spelling)?,
            parse_bytes(alloc, third)?,
        )),
        _ => Err(Spelling),
    }
}
