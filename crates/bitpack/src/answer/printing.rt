//! Writes answers into the output. Values are written one by one, so that a long list needs no memory beside its
//! values.

ghost use Rattle.std.specs.Prelude.{◌≡◌, [], ◌∷◌, ◌++◌, OnOk, OnErr, IfErr};
ghost use Rattle.std.specs.Fmt.{decimal};
ghost use Rattle.bitpack.specs.Grammar.{list_kind_string};
ghost use Rattle.bitpack.specs.Answers.{printed, printed_list, printed_values};
ghost use Rattle.bitpack.specs.Lines.{AppendsBeginning, AppendsBut};

use super::Answer;
use super::digits::{MOST_DIGITS, write_digits};
use crate::output::Output;
use crate::{ListKind, RunError};
use std::io::Write;

fn put_value<W: Write>(output: &mut Output, writer: &mut W, value: u32) -> Result<(), RunError>
    ensures ok { OnOk result
        (AppendsBut (W.contents writer.old) (W.contents writer.new) (output.old ++ decimal value) output.new) }
    ensures err { OnErr result
        (AppendsBeginning (W.contents writer.old) (W.contents writer.new) (output.old ++ decimal value)) }
    ensures kind { IfErr result (λ e. e ≡ RunError.Write) }
{
    let mut bytes = [0; MOST_DIGITS];
    let start = write_digits(value, &mut bytes);
    output.put(writer, &bytes[start..])
}

/// Puts values as decimals, with commas between them.
fn put_values<W: Write>(output: &mut Output, writer: &mut W, values: &[u32]) -> Result<(), RunError>
    ensures ok { OnOk result (AppendsBut (W.contents writer.old) (W.contents writer.new)
        (output.old ++ printed_values values.now) output.new) }
    ensures err { OnErr result
        (AppendsBeginning (W.contents writer.old) (W.contents writer.new) (output.old ++ printed_values values.now)) }
    ensures kind { IfErr result (λ e. e ≡ RunError.Write) }
{
    let Some((first, rest)) = values.split_first() else {
        return output.put(writer, b"-");
    };
    put_value(output, writer, *first)?;
    for value in rest {
        output.put(writer, b",")?;
        put_value(output, writer, *value)?;
    }
    Ok(())
}

/// The name of a kind of lists, and a space.
fn list_kind_prefix(kind: ListKind) -> &'static str
    ensures { result.now ≡ list_kind_string kind ++ 32 ∷ [] }
{
    match kind {
        ListKind::Plain => "plain ",
        ListKind::Sorted => "sorted ",
        ListKind::StrictlySorted => "strict ",
    }
}

/// Puts a list as its kind, a space and its values.
fn put_list<W: Write>(
    output: &mut Output,
    writer: &mut W,
    kind: ListKind,
    values: &[u32],
) -> Result<(), RunError>
    ensures ok { OnOk result (AppendsBut (W.contents writer.old) (W.contents writer.new)
        (output.old ++ printed_list kind values.now) output.new) }
    ensures err { OnErr result (AppendsBeginning (W.contents writer.old) (W.contents writer.new)
        (output.old ++ printed_list kind values.now)) }
    ensures kind { IfErr result (λ e. e ≡ RunError.Write) }
{
    output.put(writer, list_kind_prefix(kind).as_bytes())?;
    put_values(output, writer, values)
}

/// Writes an answer, without its line feed.
pub(crate) fn put_answer<W: Write>(
    output: &mut Output,
    writer: &mut W,
    answer: &Answer,
) -> Result<(), RunError>
    ensures ok { OnOk result
        (AppendsBut (W.contents writer.old) (W.contents writer.new) (output.old ++ printed answer.now) output.new) }
    ensures err { OnErr result
        (AppendsBeginning (W.contents writer.old) (W.contents writer.new) (output.old ++ printed answer.now)) }
    ensures kind { IfErr result (λ e. e ≡ RunError.Write) }
{
    match answer {
        Answer::Printed(string) => output.put(writer, string.as_bytes()),
        Answer::Values(values) => put_values(output, writer, values.as_slice()),
        Answer::List(kind, values) => put_list(output, writer, *kind, values.as_slice()),
    }
}
