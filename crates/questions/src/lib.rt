//! Questions about the words on strips.
#![tactic(auto)]

mod fault;
mod telling;

pub use fault::QuestionFault;
pub use telling::separate;
