// Runs the cases of standard input on the proved operations and on the second engine, and says of each whether they agree.
#![tactic(auto)]

mod answer; // answer.rt: the number and the values that an engine answers
mod proved; // proved.rt: a case on the proved operations
mod other; // other.rt: a case on the second engine
mod compare; // compare.rt: one line on both engines

use compare::run_line;
use readings_cases::lines::read_line;
use readings_cases::tally::Tally;
use std::alloc::Global;
use std::io::{self, BufRead, BufReader, BufWriter, Write};

// Runs every line of the input.
fn run_lines<R: BufRead, W: Write>(alloc: Global, input: &mut R, out: &mut W) -> io::Result<Tally> {
    let mut tally = Tally::default();
    let mut line = Vec::new(alloc);
    // A loop that waits on input has to be counted.
    for _ in 0..u64::MAX {
        if !read_line(input, &mut line)? {
            break;
        }
        run_line(out, alloc, &line, &mut tally)?;
    }
    Ok(tally)
}

fn main(rt: HostRuntime) -> io::Result<()> {
    let alloc = rt.alloc();
    let mut input = BufReader::with_capacity(alloc, 65536, rt.stdin())?;
    let mut out = BufWriter::new(alloc, io::writer(&rt))?;
    let tally = run_lines(alloc, &mut input, &mut out)?;
    writeln!(out, "{tally}")?;
    out.flush()
}
