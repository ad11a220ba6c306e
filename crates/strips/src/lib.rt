//! Strips: one word each, in memory that the caller lends.
#![tactic(auto)]

mod fault;
mod kinds;
mod strip;

pub use fault::StripFault;
pub use strip::Strip;

#[cfg(test)]
mod tests;
