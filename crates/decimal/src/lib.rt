// Numbers as decimal text: read from a field, and written into a lent buffer (docs/SPECIFICATION.md §8.1).
#![tactic(auto)]

pub mod read;
pub mod write;
