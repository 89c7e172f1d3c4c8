//! The answers to lines that are in memory.

ghost use Rattle.std.specs.Prelude.{◌≡◌, ◌≢◌, ◌++◌, ℕ, List, Some, OnOk, IfErr, IsErrOf};
ghost use Rattle.bitpack.specs.declared.run_error.RunError.TheVariants.{Memory, Read};
ghost use Rattle.bitpack.specs.Lines.{AppendsAnswers, AppendsAnswersFirst, AppendsAnswersInPart, AreAnswers, IsBeginning, ended, lines};

use bitpack::{RunError, run};
use std::alloc::Global;

/// Appends the answers to lines that are in memory. If that fails, a beginning of the answers may have been appended: if memory ran
/// out, whole answers.
pub fn answer_lines(alloc: Global, input: &[u8], answers: &mut Vec<u8>) -> Result<(), RunError>
    ensures ok { OnOk result ((more : List ℕ) × AreAnswers (lines input.now) more
        × (answers.new.items ≡ answers.old.items ++ more)) }
    // claim: uses/9-10 a failed run appended a beginning of the answers
    ensures err { IfErr result (λ e. e ≢ Read → (read : List ℕ) × IsBeginning read input.now
        × AppendsAnswersInPart (Some answers.old.items) (Some answers.new.items) (lines read)) }
    ensures memory { IsErrOf result Memory → (read : List ℕ) × IsBeginning read input.now
        × AppendsAnswersFirst (Some answers.old.items) (Some answers.new.items) (lines read) }
    ensures read { IsErrOf result Read → (read : List ℕ) × IsBeginning read input.now
        × AppendsAnswers (Some answers.old.items) (Some answers.new.items) (ended read) }
{
    let mut reader = input;
    run(alloc, &mut reader, answers)
}
