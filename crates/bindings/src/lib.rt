//! The cores of `words` for callers in C, as the benchmark is: slices cross as a pointer and a length, and an answer as
//! two numbers. Nothing is lent but what the caller passes.
#![tactic(auto)]

mod export;
mod letter;
mod reply;

pub use export::{zuligmaw_form, zuligmaw_separate};
pub use letter::Letter;
pub use reply::Reply;
