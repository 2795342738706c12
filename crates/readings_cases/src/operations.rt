// The operations that a case can ask: the numbers of each, and its lists: words, and the buffers as they are before.
ghost use Rattle.std.specs.Prelude.{◌≡◌, IfOk, IsSome};
ghost use Rattle.readings_cases.specs.declared.operations.Case.TheVariants.{Ask};

use crate::fields::{Fault, Fields, Unread};
use crate::show::show_list;
use std::alloc::Global;
use std::io::{self, Write};

// The most bytes that a file has, and the size of the room for the text of `ask`.
const FILE: usize = 32769;

pub const TEXT: usize = 262144;

// The most numbers of other lists: marks and pairs, the table of a valuation, rows of bits, scratch and reasons, and all lists of words.
const MARKS: usize = 2048;

const TABLE: usize = 32768;

const ROWS: usize = 20480;

const REASON: usize = 4096;

const WORDS: usize = 16384;

// A net, whose words stand in the lists: its numbers of objects and kinds, and the set of origins.
#[derive(Clone, Copy, PartialEq, Eq)]
pub struct Net {
    pub o: u32,
    pub k: u32,
    pub set: u32,
}

// A statement about two nodes, asked of a net.
#[derive(Clone, Copy, PartialEq, Eq)]
pub struct Asked {
    pub net: Net,
    pub x: u32,
    pub y: u32,
    pub sign: u32,
}

// An operation of the two engines with the numbers that it is asked about.
#[derive(Clone, Copy, PartialEq, Eq)]
pub enum Case {
    CheckNet {
        net: Net,
    },
    CheckWord {
        o: u32,
        k: u32,
        word: u32,
    },
    Scan {
        net: Net,
        start: u32,
        budget: u32,
    },
    Question {
        net: Net,
        x: u32,
        y: u32,
    },
    Questions {
        net: Net,
    },
    Completion {
        net: Net,
    },
    CompletionByRows {
        net: Net,
    },
    AnswerInRows {
        o: u32,
        k: u32,
        x: u32,
        y: u32,
    },
    Clash {
        net: Net,
    },
    Compact {
        o: u32,
        k: u32,
    },
    Mend {
        o: u32,
        k: u32,
    },
    Valuation {
        net: Net,
    },
    Satisfies {
        o: u32,
        k: u32,
        x: u32,
        y: u32,
        sign: u32,
    },
    Reason {
        asked: Asked,
    },
    ReasonCheck {
        asked: Asked,
    },
    Proof {
        asked: Asked,
    },
    ProofCheck {
        asked: Asked,
    },
    Explain {
        asked: Asked,
    },
    DerivationCheck {
        asked: Asked,
    },
    Unit {
        net: Net,
        budget: u32,
    },
    File,
    Ask,
}

// The lists of a case: what its operation is asked about and the buffers that it is lent; the others are empty, and but for `ask` there is
// no text.
#[derive(Clone, PartialEq, Eq, Drop)]
pub struct Lists {
    // The words of the net, or those that are to be mended.
    pub words: Vec<u32>,
    pub pairs: Vec<u16>,
    pub answers: Vec<u8>,
    pub marks: Vec<u8>,
    // A completion, a compacted list, a proof, a derivation or its lines, a program; the kept words of a mending.
    pub list: Vec<u32>,
    pub dropped: Vec<u32>,
    pub yes: Vec<u64>,
    pub no: Vec<u64>,
    pub table: Vec<u8>,
    pub scratch: Vec<u16>,
    pub reason: Vec<u16>,
    pub file: Vec<u8>,
    pub text: Option<Box<[u8; TEXT]>>,
}

impl Lists {
    // No lists and no text.
    fn empty(alloc: Global) -> Lists {
        Lists {
            words: Vec::new(alloc),
            pairs: Vec::new(alloc),
            answers: Vec::new(alloc),
            marks: Vec::new(alloc),
            list: Vec::new(alloc),
            dropped: Vec::new(alloc),
            yes: Vec::new(alloc),
            no: Vec::new(alloc),
            table: Vec::new(alloc),
            scratch: Vec::new(alloc),
            reason: Vec::new(alloc),
            file: Vec::new(alloc),
            text: None,
        }
    }
}

impl Net {
    // Reads a net, and its words into the lists.
    fn read(fields: &mut Fields, lists: &mut Lists) -> Result<Net, Unread> {
        let o = fields.number()?;
        let k = fields.number()?;
        lists.words = fields.list(WORDS)?;
        let set = fields.number()?;
        Ok(Net { o, k, set })
    }
}

impl Asked {
    // Reads a net and a statement.
    fn read(fields: &mut Fields, lists: &mut Lists) -> Result<Asked, Unread> {
        Ok(Asked {
            net: Net::read(fields, lists)?,
            x: fields.number()?,
            y: fields.number()?,
            sign: fields.number()?,
        })
    }
}

impl Case {
    // Reads the fields of the operation of that name, which end the line. With `ask` there is a text.
    pub fn read(name: &[u8], fields: &mut Fields) -> Result<(Case, Lists), Unread>
        ensures { IfOk result (λ read. read.0 ≡ Ask → IsSome read.1.text) }
    {
        let mut lists = Lists::empty(fields.alloc);
        let case = Case::read_fields(name, fields, &mut lists)?;
        fields.end()?;
        Ok((case, lists))
    }

    // Reads the fields of the operation of that name, and no further. The borrow checker takes no function that reads those of all operations,
    // so there are four, and each hands on what it does not know.
    fn read_fields(name: &[u8], fields: &mut Fields, lists: &mut Lists) -> Result<Case, Unread>
        ensures { IfOk result (λ case. case ≡ Ask → IsSome lists.new.text) }
    {
        let case = match name {
            b"check_net" => Case::CheckNet {
                net: Net::read(fields, lists)?,
            },
            b"check_word" => Case::CheckWord {
                o: fields.number()?,
                k: fields.number()?,
                word: fields.number()?,
            },
            b"scan" => {
                let net = Net::read(fields, lists)?;
                let start = fields.number()?;
                let budget = fields.number()?;
                lists.marks = fields.list(MARKS)?;
                Case::Scan { net, start, budget }
            }
            b"question" => {
                let net = Net::read(fields, lists)?;
                let x = fields.number()?;
                let y = fields.number()?;
                lists.marks = fields.list(MARKS)?;
                Case::Question { net, x, y }
            }
            b"questions" => {
                let net = Net::read(fields, lists)?;
                lists.pairs = fields.list(MARKS)?;
                lists.answers = fields.list(MARKS)?;
                lists.marks = fields.list(MARKS)?;
                Case::Questions { net }
            }
            b"clash" => {
                let net = Net::read(fields, lists)?;
                lists.marks = fields.list(MARKS)?;
                Case::Clash { net }
            }
            _ => return Case::read_lists(name, fields, lists),
        };
        Ok(case)
    }

    // The same of those that write lists of words, rows or a valuation.
    fn read_lists(name: &[u8], fields: &mut Fields, lists: &mut Lists) -> Result<Case, Unread>
        ensures { IfOk result (λ case. case ≡ Ask → IsSome lists.new.text) }
    {
        let case = match name {
            b"completion" => {
                let net = Net::read(fields, lists)?;
                lists.marks = fields.list(MARKS)?;
                lists.list = fields.list(WORDS)?;
                Case::Completion { net }
            }
            b"completion_by_rows" => {
                let net = Net::read(fields, lists)?;
                lists.yes = fields.list(ROWS)?;
                lists.no = fields.list(ROWS)?;
                lists.list = fields.list(WORDS)?;
                Case::CompletionByRows { net }
            }
            b"compact" => {
                let o = fields.number()?;
                let k = fields.number()?;
                lists.list = fields.list(WORDS)?;
                lists.marks = fields.list(MARKS)?;
                Case::Compact { o, k }
            }
            b"mend" => {
                let o = fields.number()?;
                let k = fields.number()?;
                lists.words = fields.list(WORDS)?;
                lists.list = fields.list(WORDS)?;
                lists.dropped = fields.list(WORDS)?;
                lists.marks = fields.list(MARKS)?;
                Case::Mend { o, k }
            }
            b"valuation" => {
                let net = Net::read(fields, lists)?;
                lists.table = fields.list(TABLE)?;
                lists.marks = fields.list(MARKS)?;
                Case::Valuation { net }
            }
            _ => return Case::read_asked(name, fields, lists),
        };
        Ok(case)
    }

    // The same of those that are asked about one statement.
    fn read_asked(name: &[u8], fields: &mut Fields, lists: &mut Lists) -> Result<Case, Unread>
        ensures { IfOk result (λ case. case ≡ Ask → IsSome lists.new.text) }
    {
        let case = match name {
            b"answer_in_rows" => {
                let o = fields.number()?;
                let k = fields.number()?;
                lists.yes = fields.list(ROWS)?;
                lists.no = fields.list(ROWS)?;
                let x = fields.number()?;
                let y = fields.number()?;
                Case::AnswerInRows { o, k, x, y }
            }
            b"satisfies" => {
                let o = fields.number()?;
                let k = fields.number()?;
                lists.table = fields.list(TABLE)?;
                let x = fields.number()?;
                let y = fields.number()?;
                let sign = fields.number()?;
                Case::Satisfies { o, k, x, y, sign }
            }
            b"reason" => {
                let asked = Asked::read(fields, lists)?;
                lists.scratch = fields.list(REASON)?;
                lists.reason = fields.list(REASON)?;
                Case::Reason { asked }
            }
            b"reason_check" => {
                let asked = Asked::read(fields, lists)?;
                lists.reason = fields.list(REASON)?;
                Case::ReasonCheck { asked }
            }
            b"proof" => {
                let asked = Asked::read(fields, lists)?;
                lists.scratch = fields.list(REASON)?;
                lists.list = fields.list(WORDS)?;
                Case::Proof { asked }
            }
            b"proof_check" => {
                let asked = Asked::read(fields, lists)?;
                lists.list = fields.list(WORDS)?;
                Case::ProofCheck { asked }
            }
            _ => return Case::read_others(name, fields, lists),
        };
        Ok(case)
    }

    // The same of those about derivations, the unit and files.
    fn read_others(name: &[u8], fields: &mut Fields, lists: &mut Lists) -> Result<Case, Unread>
        ensures { IfOk result (λ case. case ≡ Ask → IsSome lists.new.text) }
    {
        let case = match name {
            b"explain" => {
                let asked = Asked::read(fields, lists)?;
                lists.scratch = fields.list(REASON)?;
                lists.reason = fields.list(REASON)?;
                lists.list = fields.list(WORDS)?;
                Case::Explain { asked }
            }
            b"derivation_check" => {
                let asked = Asked::read(fields, lists)?;
                lists.list = fields.list(WORDS)?;
                Case::DerivationCheck { asked }
            }
            b"unit" => {
                let net = Net::read(fields, lists)?;
                lists.list = fields.list(WORDS)?;
                let budget = fields.number()?;
                lists.marks = fields.list(MARKS)?;
                Case::Unit { net, budget }
            }
            b"file" => {
                lists.file = fields.list(FILE)?;
                Case::File
            }
            b"ask" => {
                lists.file = fields.list(FILE)?;
                lists.text = Some(fields.room()?);
                Case::Ask
            }
            _ => return Err(Unread::Fault(Fault::Bad)),
        };
        Ok(case)
    }

    // Prints the buffers that the operation was lent to write in.
    pub fn show_buffers<W: Write>(self, lists: &Lists, out: &mut W) -> io::Result<()> {
        match self {
            Case::Scan { .. } | Case::Question { .. } | Case::Clash { .. } | Case::Unit { .. } => {
                show_list(out, &lists.marks)
            }
            Case::Questions { .. } => {
                show_list(out, &lists.answers)?;
                show_list(out, &lists.marks)
            }
            Case::Completion { .. } => {
                show_list(out, &lists.marks)?;
                show_list(out, &lists.list)
            }
            Case::CompletionByRows { .. } => {
                show_list(out, &lists.yes)?;
                show_list(out, &lists.no)?;
                show_list(out, &lists.list)
            }
            Case::Compact { .. } => {
                show_list(out, &lists.list)?;
                show_list(out, &lists.marks)
            }
            Case::Mend { .. } => {
                show_list(out, &lists.list)?;
                show_list(out, &lists.dropped)?;
                show_list(out, &lists.marks)
            }
            Case::Valuation { .. } => {
                show_list(out, &lists.table)?;
                show_list(out, &lists.marks)
            }
            Case::Reason { .. } => {
                show_list(out, &lists.scratch)?;
                show_list(out, &lists.reason)
            }
            Case::Proof { .. } => {
                show_list(out, &lists.scratch)?;
                show_list(out, &lists.list)
            }
            Case::Explain { .. } => {
                show_list(out, &lists.scratch)?;
                show_list(out, &lists.reason)?;
                show_list(out, &lists.list)
            }
            Case::Ask => match &lists.text {
                Some(text) => show_list(out, text.as_slice()),
                None => Ok(()),
            },
            Case::CheckNet { .. }
            | Case::CheckWord { .. }
            | Case::AnswerInRows { .. }
            | Case::Satisfies { .. }
            | Case::ReasonCheck { .. }
            | Case::ProofCheck { .. }
            | Case::DerivationCheck { .. }
            | Case::File => Ok(()),
        }
    }
}

#[cfg(test)]
mod tests {
    use super::*;

    #[test]
    fn reads_a_file(rt: HostRuntime) {
        let mut fields = Fields::of(rt.alloc(), b" [1 2*3] ");
        match Case::read(b"file", &mut fields) {
            Ok((Case::File, lists)) => {
                assert_eq!(rt; lists.file.as_slice(), [1, 2, 2, 2].as_slice());
            }
            _ => panic!(rt; "no case"),
        }
    }

    #[test]
    fn reads_room_for_a_text(rt: HostRuntime) {
        let mut fields = Fields::of(rt.alloc(), b" [] 7");
        match Case::read(b"ask", &mut fields) {
            Ok((Case::Ask, lists)) => match &lists.text {
                Some(text) => {
                    assert_eq!(rt; text[0], 7);
                    assert_eq!(rt; text[TEXT - 1], 7);
                }
                None => panic!(rt; "no room"),
            },
            _ => panic!(rt; "no case"),
        }
    }
}
