//! Refusals: what a call answers that does not do what it was asked for.
#![tactic(auto)]

mod fault;
mod refusal;

pub use fault::Fault;
pub use refusal::Refusal;

#[cfg(test)]
mod tests;
