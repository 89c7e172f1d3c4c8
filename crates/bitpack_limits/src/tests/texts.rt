//! Lines and answers that are too long to write down.

use super::running::line_is_answered;
use std::alloc::{AllocError, Global};
use std::process::Abort;

/// A part of a text.
#[derive(Clone, Copy)]
pub(super) enum Part<'a> {
    Text(&'a str),
    /// A text, repeated.
    Repeated(&'a str, usize),
    /// The first number, the step to the next, and how many numbers: each is `step` more than the one before it, modulo 2 ^ 32.
    Counted(u32, u32, usize),
}

/// Appends a text, repeated.
fn push_repeated(all: &mut String, text: &str, count: usize) -> Result<(), AllocError> {
    for _ in 0..count {
        all.push_str(text)?;
    }
    Ok(())
}

/// Appends a number, after a comma if it is not the first.
fn push_number(
    alloc: Global,
    all: &mut String,
    number: u32,
    first: bool,
) -> Result<(), AllocError> {
    let text = format!(in alloc; "{number}")?;
    if !first {
        all.push(',')?;
    }
    all.push_str(text.as_str())
}

/// Appends `count` numbers.
fn push_counted(
    alloc: Global,
    all: &mut String,
    first: u32,
    step: u32,
    count: usize,
) -> Result<(), AllocError> {
    let mut number = first;
    for position in 0..count {
        push_number(alloc, all, number, position == 0)?;
        number = number.wrapping_add(step);
    }
    Ok(())
}

/// Appends a part.
fn push_part(alloc: Global, all: &mut String, part: Part) -> Result<(), AllocError> {
    match part {
        Part::Text(text) => all.push_str(text),
        Part::Repeated(text, count) => push_repeated(all, text, count),
        Part::Counted(first, step, count) => push_counted(alloc, all, first, step, count),
    }
}

/// Appends the parts.
fn push_parts(alloc: Global, all: &mut String, parts: &[Part]) -> Result<(), AllocError> {
    for part in parts {
        push_part(alloc, all, *part)?;
    }
    Ok(())
}

/// The text of the parts.
pub(super) fn text_of(alloc: Global, parts: &[Part]) -> Result<String, AllocError> {
    let mut all = String::new(alloc);
    push_parts(alloc, &mut all, parts)?;
    Ok(all)
}

/// The line of these parts has the answer of those.
pub(super) fn parts_are_answered(
    rt: &impl Abort,
    alloc: Global,
    line: &[Part],
    step: usize,
    wanted: &[Part],
) -> Result<(), AllocError> {
    let line = text_of(alloc, line)?;
    let wanted = text_of(alloc, wanted)?;
    line_is_answered(rt, alloc, line.as_str(), b"", step, wanted.as_str());
    Ok(())
}
