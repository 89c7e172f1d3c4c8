//! The program: answers each line of its standard input on its standard output, which is not buffered.
#![tactic(auto)]

use bitpack::{ending, run};
use std::process::ExitCode;

fn main(rt: HostRuntime) -> ExitCode {
    let outcome = run(rt.alloc(), &mut rt.stdin(), &mut rt.stdout());
    let (status, message) = ending(&outcome);
    if !message.is_empty() {
        // If standard error is closed too, only the status tells of the failure.
        let _ = eprintln!(rt; "{message}");
    }
    ExitCode::from(status)
}

#[cfg(test)]
mod tests;
