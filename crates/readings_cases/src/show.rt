// What is printed of a list: its numbers in brackets, with runs of four and more shortened.
use std::fmt::Display;
use std::io::{self, Write};

// Prints a run of equal numbers, with a space before each number but the list's first.
fn show_run<W: Write, T: Display>(
    out: &mut W,
    first: bool,
    number: &T,
    count: usize,
) -> io::Result<()> {
    if !first {
        write!(out, " ")?;
    }
    write!(out, "{number}")?;
    if count > 3 {
        return write!(out, "*{count}");
    }
    for _ in 1..count {
        write!(out, " {number}")?;
    }
    Ok(())
}

// Prints a list.
pub(crate) fn show_list<W: Write, T: Display + PartialEq>(
    out: &mut W,
    list: &[T],
) -> io::Result<()> {
    write!(out, " [")?;
    for (at, run) in list.chunk_by(|a, b| a == b).enumerate() {
        if let Some(number) = run.first() {
            show_run(out, at == 0, number, run.len())?;
        }
    }
    write!(out, "]")
}
