//! Laws of the definitions, each the contract of a function that does nothing at run time, for generic code to call.
//!
//! The definitions are in `specs/`: `Spells` and the fields as text in Grammar; `IsAnswer` and the replies in Answers; the lines
//! of an input and `AreAnswers` in Lines. Those of chains and packed lists are in the `specs/` of `bitpack_lists`.

ghost use Rattle.bitpack.specs.Laws.{OneAnswer, OneCommand};

pub use bitpack_lists::laws::{chains_read_back, one_text};

/// A line spells at most one command.
pub fn one_command()
    // claim: lines/1 a line is read as the only command that it spells
    ensures { OneCommand }
{}

/// Every line has exactly one answer.
pub fn one_answer()
    // claim: lines/2 the answer is the first refusal, or what the definitions say
    ensures { OneAnswer }
{}
