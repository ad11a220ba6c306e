//! Letters: what one tap of a plate is written as.
//!
//! The two traits say what any kind of letter must keep (an order; a code), as laws that generic
//! code may use. The kinds themselves are `Mode` and `Tap`.
#![tactic(auto)]

mod coded;
mod kind;
mod mode;
mod ordered;
mod tap;

pub use coded::CodedLetter;
pub use kind::{Kind, UnknownKind};
pub use mode::Mode;
pub use ordered::OrderedLetter;
pub use tap::Tap;

#[cfg(test)]
mod tests;
