// The lines that `shuffle` reads and writes (docs/SPECIFICATION.md §8.1 to §8.3).
#![tactic(auto)]

pub mod input;
pub mod read;
pub mod write;
