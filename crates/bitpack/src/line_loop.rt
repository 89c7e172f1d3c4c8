//! The loop that reads lines and writes their answers.

ghost use Rattle.std.specs.Prelude.{◌≡◌, ◌≢◌, ℕ, Option, List, [], ◌∷◌, ◌++◌, OnOk, IfErr, IfSome, IsErrOf};
ghost use Rattle.bitpack.specs.Lines.{AnsweredSoFar, AnswersAll, AnswersEnded, AnswersFirst, AnswersInPart, AppendsAnswers, StopsWithin, line_prefix, lines};

use super::answer::answer_line;
use super::line::LINE_LIMIT;
use super::output::Output;
use super::run_error::RunError;
use super::writing::flush;
use std::alloc::{AllocError, Global};
use std::io::{Read, Write};

/// The most bytes of one read.
const PIECE: usize = 65_536;

/// Appends a byte to the line. A line that is too long has one byte more than the limit; its further bytes are dropped.
fn push_byte(line: &mut Vec<u8>, byte: u8) -> Result<(), AllocError>
    ensures { (started : List ℕ) → line.old.items ≡ line_prefix started
        → OnOk result (line.new.items ≡ line_prefix (started ++ byte ∷ [])) }
{
    if line.len() <= LINE_LIMIT {
        line.push(byte)?;
    }
    Ok(())
}

/// Handles the next byte of the input: a line feed ends the line, and its answer is written to the output.
fn handle_byte<W: Write>(
    alloc: Global,
    line: &mut Vec<u8>,
    byte: u8,
    output: &mut Output,
    writer: &mut W,
) -> Result<(), RunError>
    ensures ok { (before : Option (List ℕ)) (input : List ℕ)
        → AnsweredSoFar before (W.contents writer.old) output.old input line.old.items
        → OnOk result (AnsweredSoFar before (W.contents writer.new) output.new (input ++ byte ∷ []) line.new.items) }
    ensures err { (before : Option (List ℕ)) (input rest : List ℕ)
        → AnsweredSoFar before (W.contents writer.old) output.old input line.old.items
        → IfErr result (λ e. StopsWithin e before (W.contents writer.new) (lines (input ++ byte ∷ rest))) }
{
    if byte == b'\n' {
        answer_line(alloc, line.as_slice(), output, writer)?;
        line.clear();
        return Ok(());
    }
    match push_byte(line, byte) {
        Ok(()) => Ok(()),
        Err(_) => Err(output.end_without_memory(writer)),
    }
}

/// Handles the next bytes of the input, in order, and writes the answers to the lines that they end.
fn handle_bytes<W: Write>(
    alloc: Global,
    line: &mut Vec<u8>,
    bytes: &[u8],
    output: &mut Output,
    writer: &mut W,
) -> Result<(), RunError>
    ensures ok { (before : Option (List ℕ)) (input : List ℕ)
        → AnsweredSoFar before (W.contents writer.old) output.old input line.old.items
        → OnOk result (AnsweredSoFar before (W.contents writer.new) output.new (input ++ bytes.now) line.new.items) }
    ensures err { (before : Option (List ℕ)) (input : List ℕ)
        → AnsweredSoFar before (W.contents writer.old) output.old input line.old.items
        → IfErr result (λ e. StopsWithin e before (W.contents writer.new) (lines (input ++ bytes.now))) }
    ensures empty { OnOk result (output.new ≡ []) }
{
    for byte in bytes {
        handle_byte(alloc, line, *byte, output, writer)?;
    }
    output.write_out(writer)
}

/// Answers the last line if it has no line feed, and writes the answer.
fn answer_last<W: Write>(
    alloc: Global,
    line: &[u8],
    output: &mut Output,
    writer: &mut W,
) -> Result<(), RunError>
    ensures ok { (before : Option (List ℕ)) (input : List ℕ)
        → AnsweredSoFar before (W.contents writer.old) output.old input line.now
        → OnOk result (AppendsAnswers before (W.contents writer.new) (lines input)) }
    ensures err { (before : Option (List ℕ)) (input : List ℕ)
        → AnsweredSoFar before (W.contents writer.old) output.old input line.now
        → IfErr result (λ e. StopsWithin e before (W.contents writer.new) (lines input)) }
{
    if line.is_empty() {
        return output.write_out(writer);
    }
    answer_line(alloc, line, output, writer)?;
    output.write_out(writer)
}

/// Reads lines to the end of input and writes one answer for each; then flushes, once.
///
/// Before it reads again, the answer to each line that has ended is written. The first read or write that fails ends the run, and
/// so does an allocation; only the one for the fields of a line is tried twice. After a failure nothing is flushed. A reader that
/// has more after `u64::MAX` reads counts as failed. At most 65,537 bytes of a line are in memory, whatever the input.
pub fn run<R: Read, W: Write>(alloc: Global, reader: &mut R, writer: &mut W) -> Result<(), RunError>
    // The reader read an input to its end, and all its lines were answered.
    ensures ok { OnOk result
        (AnswersAll (R.remaining reader.old) (R.remaining reader.new) (W.contents writer.old) (W.contents writer.new)) }
    // For a reader whose bytes are known.
    ensures whole { OnOk result (IfSome (R.remaining reader.old)
        (λ input. AppendsAnswers (W.contents writer.old) (W.contents writer.new) (lines input))) }
    // The lines that ended in what was read were answered, and nothing else was written.
    ensures read { IsErrOf result RunError.Read → AnswersEnded (R.remaining reader.old) (R.remaining reader.new)
        (W.contents writer.old) (W.contents writer.new) }
    // What was written is a beginning of the answers to what was read.
    // claim: lines/3-6 after `Ok` all answers were written, after `Read` the answers to the lines that had ended, after `Write` a beginning
    //   of the answers, after `Memory` whole answers
    ensures stopped { IfErr result (λ e. e ≢ RunError.Read → AnswersInPart (R.remaining reader.old)
        (R.remaining reader.new) (W.contents writer.old) (W.contents writer.new)) }
    // If memory ran out, it is whole answers.
    ensures memory { IsErrOf result RunError.Memory → AnswersFirst (R.remaining reader.old) (R.remaining reader.new)
        (W.contents writer.old) (W.contents writer.new) }
{
    let mut line = Vec::new(alloc);
    let mut output = Output::new();
    let mut piece = [0; PIECE];
    for _ in 0..u64::MAX {
        let Ok(count) = reader.read(&mut piece) else {
            return Err(RunError::Read);
        };
        if count == 0 {
            answer_last(alloc, line.as_slice(), &mut output, writer)?;
            return flush(writer);
        }
        handle_bytes(alloc, &mut line, &piece[..count], &mut output, writer)?;
    }
    Err(RunError::Read)
}
