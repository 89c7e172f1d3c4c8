//! Ranked search: the best documents of a query over id sets and columns, by a score that adds up what each word is worth.
#![tactic(auto)]

mod adding;
mod among;
mod as_term;
mod block_bounds;
mod bounding;
mod bounds;
mod candidates;
mod found;
mod others;
mod parts;
mod ranking;
mod retaining;
mod term;
mod walk;
mod words;
mod worked_scores;

pub use among::best_among;
pub use as_term::AsTerm;
pub use block_bounds::BlockBounds;
pub use bounding::bound_blocks;
pub use found::Scored;
pub use parts::{CLASSES, Parts};
pub use ranking::{best, best_bounded};
pub use term::{Term, TermError};
pub use walk::Walk;
