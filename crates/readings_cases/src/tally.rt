// How many lines were read and cases run, and how they ended.
use crate::fields::Fault;
use std::fmt;

// The number of lines read, of cases on which the engines agreed and differed, and of lines that were no case.
#[derive(Clone, Copy, Default)]
pub struct Tally {
    pub line: u64,
    cases: u64,
    agreed: u64,
    differed: u64,
    bad: u64,
    large: u64,
}

// Counts one more, where there is room for it.
fn count(counter: &mut u64) {
    *counter = counter.saturating_add(1);
}

impl Tally {
    // Counts a line.
    pub fn count_line(&mut self) {
        count(&mut self.line);
    }

    // Counts a case.
    pub fn count_case(&mut self, agree: bool) {
        count(&mut self.cases);
        count(if agree {
            &mut self.agreed
        } else {
            &mut self.differed
        });
    }

    // Counts a line that is no case.
    pub fn count_fault(&mut self, fault: Fault) {
        match fault {
            Fault::Bad => count(&mut self.bad),
            Fault::Large => count(&mut self.large),
        }
    }
}

impl fmt::Display for Tally {
    fn fmt<W: fmt::Write>(&self, f: &mut fmt::Formatter<W>) -> fmt::Result {
        let Tally {
            cases,
            agreed,
            differed,
            bad,
            large,
            ..
        } = *self;
        write!(
            f,
            "cases {cases}, agreed {agreed}, differed {differed}, bad {bad}, too large {large}"
        )
    }
}
