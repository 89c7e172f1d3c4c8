//! Parsing values: items with commas between them.

ghost use Rattle.std.specs.Prelude.{◌≤◌, vec_len};
ghost use Rattle.bitpack.specs.Grammar.{SpellsValues};
ghost use Rattle.bitpack.specs.inner.Found.{AddsItem, Finds, Parses, SpellsItem};

use super::LINE_LIMIT;
use super::error::ParseError;
use super::numbers::{parse_count, parse_word};
use std::alloc::Global;

/// One value or a repeated one.
#[derive(Clone, Copy)]
pub(crate) enum Item {
    /// `5`
    Once(u32),
    /// `5*3`
    Times(u32, u32),
}

fn parse_item(string: &str) -> Option<Item>
    ensures { Finds (SpellsItem string.now) result }
{
    match string.split_once('*') {
        None => Some(Item::Once(parse_word(string)?)),
        Some((value, count)) => Some(Item::Times(parse_word(value)?, parse_count(count)?)),
    }
}

/// Appends the values of an item, unless these are too many.
fn push_item(values: &mut Vec<u32>, string: &str) -> Result<(), ParseError>
    requires { vec_len values.old ≤ LINE_LIMIT }
    ensures { Parses (λ _. values.new.items) (AddsItem string.now values.old.items) result }
{
    let (value, count) = match parse_item(string).ok_or(ParseError::Spelling)? {
        Item::Once(value) => (value, 1),
        Item::Times(value, count) => (value, count as usize),
    };
    if count > LINE_LIMIT - values.len() {
        return Err(ParseError::Spelling);
    }
    values.resize(values.len() + count, value)?;
    Ok(())
}

/// The values that a string spells, with their repeats. Nothing is reserved for values that are too many.
pub(crate) fn parse_values(alloc: Global, string: &str) -> Result<Vec<u32>, ParseError>
    ensures { Parses (λ values. values.items) (SpellsValues string.now) result }
{
    let mut values = Vec::new(alloc);
    if string == "-" {
        return Ok(values);
    }
    for item in string.split(',') {
        push_item(&mut values, item)?;
    }
    Ok(values)
}
