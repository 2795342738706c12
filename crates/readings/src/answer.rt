// The number and the values that an engine answers.
use netfile::Malformed;
use std::fmt;

// A number of the table with its values, 0 where the number has none.
#[derive(Clone, Copy, PartialEq, Eq)]
pub struct Answer {
    number: u32,
    first: u32,
    second: u32,
}

// A size as a u32, the largest u32 where it does not fit.
fn narrow(size: usize) -> u32 {
    u32::try_from(size).unwrap_or(u32::MAX)
}

impl Answer {
    // The size of the text of `ask`.
    pub fn of_text(size: usize) -> Answer {
        Answer {
            number: 0,
            first: narrow(size),
            second: 0,
        }
    }
}

impl From<net::Reply> for Answer {
    fn from(reply: net::Reply) -> Answer {
        Answer {
            number: reply.number,
            first: reply.first,
            second: reply.second,
        }
    }
}

impl From<second::Reply> for Answer {
    fn from(reply: second::Reply) -> Answer {
        Answer {
            number: reply.number,
            first: reply.first,
            second: reply.second,
        }
    }
}

// The contents of a file: where its questions and its set start, or the place of a 9.
impl From<Result<(usize, usize), Malformed>> for Answer {
    fn from(contents: Result<(usize, usize), Malformed>) -> Answer {
        match contents {
            Ok((questions, set)) => Answer {
                number: 0,
                first: narrow(questions),
                second: narrow(set),
            },
            Err(malformed) => Answer {
                number: 9,
                first: malformed.place,
                second: 0,
            },
        }
    }
}

impl fmt::Display for Answer {
    fn fmt<W: fmt::Write>(&self, f: &mut fmt::Formatter<W>) -> fmt::Result {
        let Answer {
            number,
            first,
            second,
        } = *self;
        write!(f, "{number} {first} {second}")
    }
}
