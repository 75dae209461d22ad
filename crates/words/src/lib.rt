// Numbers of 1, 2 and 4 bytes: read at an offset of a file, and written into a lent slice.
// Internal: the readers and writers of film files call it.
#![tactic(auto)]

pub mod numbers; // numbers.rt: numbers at an offset of a file
pub mod put; // put.rt: numbers written into a slice
