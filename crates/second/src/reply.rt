// An answer: its number in the table, and the values that go with that number.
use crate::places::narrow;

// A number of the table with its values, 0 where the number has none.
#[derive(Clone, Copy)]
pub struct Reply {
    pub number: u32,
    pub first: u32,
    pub second: u32,
}

// Number 0 with its two values.
pub fn given(first: u32, second: u32) -> Reply {
    Reply {
        number: 0,
        first,
        second,
    }
}

// Why a word is illegal: its tail is no node, its head is no kind, or its origin is above 3.
#[derive(Clone, Copy)]
pub enum Cause {
    Tail,
    Head,
    Origin,
}

impl Cause {
    // Its number.
    pub fn number(self) -> u32 {
        match self {
            Cause::Tail => 1,
            Cause::Head => 2,
            Cause::Origin => 3,
        }
    }
}

// Why a call is refused, in the order of the table's numbers.
#[derive(Clone, Copy)]
pub enum Refusal {
    Nodes,
    Words,
    Word { index: usize, cause: Cause },
    Asked,
    Room,
    Budget { count: u32 },
    NothingThere,
    List { needed: usize, which: u32 },
    File { place: u32 },
    Pairs,
    Depth,
    Unproved { step: u32 },
    Table,
    Set,
    Command { place: usize },
}

impl From<Refusal> for Reply {
    fn from(refusal: Refusal) -> Reply {
        let (number, first, second) = match refusal {
            Refusal::Nodes => (1, 0, 0),
            Refusal::Words => (2, 0, 0),
            Refusal::Word { index, cause } => (3, narrow(index), cause.number()),
            Refusal::Asked => (4, 0, 0),
            Refusal::Room => (5, 0, 0),
            Refusal::Budget { count } => (6, count, 0),
            Refusal::NothingThere => (7, 0, 0),
            Refusal::List { needed, which } => (8, narrow(needed), which),
            Refusal::File { place } => (9, place, 0),
            Refusal::Pairs => (10, 0, 0),
            Refusal::Depth => (11, 0, 0),
            Refusal::Unproved { step } => (12, step, 0),
            Refusal::Table => (13, 0, 0),
            Refusal::Set => (15, 0, 0),
            Refusal::Command { place } => (16, narrow(place), 0),
        };
        Reply {
            number,
            first,
            second,
        }
    }
}

// The reply of a call that is answered or refused.
pub fn reply_of(outcome: Result<Reply, Refusal>) -> Reply {
    match outcome {
        Ok(reply) => reply,
        Err(refusal) => Reply::from(refusal),
    }
}
