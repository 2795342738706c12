// One line on both engines: what each answers, what it leaves in the buffers, and whether the two agree.
use crate::answer::Answer;
use crate::{other, proved};
use readings_cases::fields::{Fault, Fields, Unread};
use readings_cases::lines::LONGEST;
use readings_cases::operations::{Case, Lists};
use readings_cases::tally::Tally;
use std::alloc::Global;
use std::io::{self, Write};

// Prints what an engine answered, and the buffers as it left them.
fn show_answer<W: Write>(
    out: &mut W,
    engine: &str,
    answer: Answer,
    case: Case,
    lists: &Lists,
) -> io::Result<()> {
    write!(out, "{engine} {answer}")?;
    case.show_buffers(lists, out)?;
    writeln!(out)
}

// Runs a case on both engines; whether they agree in the answer and in every place of the buffers.
fn run_both<W: Write>(out: &mut W, case: Case, mut ours: Lists) -> io::Result<bool> {
    let mut theirs = ours.clone()?;
    let proved = proved::run(case, &mut ours);
    show_answer(out, "proved", proved, case, &ours)?;
    let second = other::run(case, &mut theirs);
    show_answer(out, "second", second, case, &theirs)?;
    Ok(proved == second && ours == theirs)
}

// Runs the case of an operation's name, and counts it.
fn run_case<W: Write>(
    out: &mut W,
    name: &[u8],
    case: Case,
    lists: Lists,
    tally: &mut Tally,
) -> io::Result<()> {
    let line = tally.line;
    write!(out, "{line} ")?;
    out.write_all(name)?;
    writeln!(out)?;
    let agree = run_both(out, case, lists)?;
    tally.count_case(agree);
    writeln!(out, "{}", if agree { "agree" } else { "DIFFER" })
}

// Runs a line; one of spaces or one that begins with # is no case.
pub fn run_line<W: Write>(
    out: &mut W,
    alloc: Global,
    line: &[u8],
    tally: &mut Tally,
) -> io::Result<()> {
    tally.count_line();
    let mut fields = Fields::of(alloc, line);
    let name = fields.word();
    let case = if line.len() > LONGEST {
        Err(Unread::Fault(Fault::Large))
    } else if name.is_empty() || name.starts_with(b"#") {
        return Ok(());
    } else {
        Case::read(name, &mut fields)
    };
    match case {
        Ok((case, lists)) => run_case(out, name, case, lists, tally),
        Err(Unread::Fault(fault)) => {
            tally.count_fault(fault);
            let line = tally.line;
            writeln!(out, "{line} {fault}")
        }
        Err(Unread::Memory(error)) => Err(io::Error::from(error)),
    }
}
