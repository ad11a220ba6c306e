//! Each plate of a word file and the next: the lines that tell them apart, one by one and as a whole run.
#![tactic(auto)]

mod advancing;
mod comparing;
mod fault;
mod loading;
mod memory;
mod plate;
mod run;
mod sink;
mod stepping;
mod stop;

pub use fault::{LONGEST_FILE, RunFault};
pub use memory::Memory;
pub use plate::{PlateOnStrip, read_plate};
pub use run::{print_lines, text_of};
pub use sink::Sink;
pub use stepping::{NextLine, step};

#[cfg(test)]
mod tests;
