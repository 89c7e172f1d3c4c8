//! Each file has tests that refuse memory or run long, with the tests that share its helpers.

mod blocks;
mod calls;
mod chains;
mod checks;
mod documented;
mod fakes;
mod intersect;
mod large;
mod list2;
mod list2_memory;
mod list_growths;
mod list_memory;
mod lists;
mod longest_answer;
mod memory;
mod nine_calls;
mod no_memory;
mod oracle;
mod running;
mod seek;
mod short_of_memory;
mod texts;
mod upgrade_memory;
mod worked;
