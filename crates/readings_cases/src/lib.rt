// The cases of `readings`: standard input line by line, the fields of a line, the operation that a line asks with its buffers, and what is printed.
#![tactic(auto)]

pub mod lines; // lines.rt: standard input, line by line
pub mod fields; // fields.rt: numbers and lists of a line
pub mod operations; // operations.rt: the operations, with the fields and buffers of each
mod show; // show.rt: what is printed
pub mod tally; // tally.rt: how many cases were run, and how they ended
