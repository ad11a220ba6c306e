//! Words as slices of letters: which words a word has as subsequences, when two words agree on the short ones, the form
//! of a word, which is the same for all words that agree, and the first row that tells two words apart. The definitions
//! are in `specs/`, what is shown of them in `proofs/`.
#![tactic(auto)]

mod both;
mod climb;
mod fault;
mod forming;
mod lean;
mod lent;
mod pairing;
mod ranks;
mod reading;
mod row;
mod separating;
mod sort;
mod stairs;
mod stretches;
mod telling;
mod told;
mod tree;
mod vector;

pub use fault::WordFault;
pub use forming::{form, form_in_place};
pub use separating::separate;
pub use told::{Side, Telling};

#[cfg(test)]
mod tests;
