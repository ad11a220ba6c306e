//! Word files: how plates and their words stand in bytes.
#![tactic(auto)]

mod fault;
mod line;
mod listing;
mod number;
mod output;
mod reader;
mod word;

pub use fault::FileFault;
pub use line::{WriteFault, write_line, write_refusal};
pub use listing::list;
pub use number::{Number, NumberFault, read_number};
pub use reader::{Reader, Record};
pub use word::Letters;

#[cfg(test)]
mod tests;
