// The nodes, the words and the set of a net, what its links say, and numbers 1 to 4 and 15 of the number table.
ghost use Rattle.std.specs.Prelude.{◌<◌, ◌≤◌};

use crate::reply::{Cause, Refusal};

// The set of origin 0 alone.
const PLAIN: u32 = 1;

// A word without its origin is below this.
const ORIGIN: u32 = 2097152;

// Whether something is, or is not, of a kind.
#[derive(Clone, Copy, PartialEq, Eq)]
pub enum Sign {
    Is,
    IsNot,
}

impl Sign {
    // The sign of a number.
    pub fn of(number: u32) -> Option<Sign> {
        match number {
            0 => Some(Sign::Is),
            1 => Some(Sign::IsNot),
            _ => None,
        }
    }

    // The other one.
    pub fn other(self) -> Sign {
        match self {
            Sign::Is => Sign::IsNot,
            Sign::IsNot => Sign::Is,
        }
    }

    // Its number.
    pub fn number(self) -> u32
        ensures { result ≤ 1 }
    {
        match self {
            Sign::Is => 0,
            Sign::IsNot => 1,
        }
    }
}

// That the node x is, or is not, of the kind y.
#[derive(Clone, Copy, PartialEq, Eq)]
pub struct Statement {
    pub x: u32,
    pub y: u32,
    pub sign: Sign,
}

impl Statement {
    // x → y.
    pub fn is(x: u32, y: u32) -> Statement {
        Statement {
            x,
            y,
            sign: Sign::Is,
        }
    }

    // x ↛ y.
    pub fn is_not(x: u32, y: u32) -> Statement {
        Statement {
            x,
            y,
            sign: Sign::IsNot,
        }
    }

    // What a plain word says.
    pub fn of(word: u32) -> Statement {
        let (x, y) = (word / 2048, word / 2 % 1024);
        if word % 2 == 0 {
            Statement::is(x, y)
        } else {
            Statement::is_not(x, y)
        }
    }

    // The plain word that says it.
    pub fn word(self) -> u32 {
        self.x % 2048 * 2048 + self.y % 1024 * 2 + self.sign.number()
    }
}

// How many objects and kinds there are: the objects are the first nodes, and the kinds the others.
#[derive(Clone, Copy)]
pub struct Nodes {
    pub objects: u32,
    pub kinds: u32,
}

impl Nodes {
    // How many nodes there are.
    pub fn count(self) -> usize
        ensures { result < 8589934592 }
    {
        self.objects as usize + self.kinds as usize
    }

    // The first kind, as an index.
    pub fn first_kind(self) -> usize {
        self.objects as usize
    }

    // Whether x is a node.
    pub fn is_node(self, x: u32) -> bool {
        (x as usize) < self.count()
    }

    // Whether y is a kind.
    pub fn is_kind(self, y: u32) -> bool {
        self.objects <= y && self.is_node(y)
    }

    // Number 1.
    pub fn check(self) -> Result<(), Refusal> {
        if self.count() > 1024 {
            return Err(Refusal::Nodes);
        }
        Ok(())
    }

    // Why a word is illegal, if it is.
    pub fn check_word(self, word: u32) -> Result<(), Cause> {
        if word / ORIGIN > 3 {
            return Err(Cause::Origin);
        }
        let link = Statement::of(word % ORIGIN);
        if !self.is_node(link.x) {
            return Err(Cause::Tail);
        }
        if !self.is_kind(link.y) {
            return Err(Cause::Head);
        }
        Ok(())
    }

    // The same of a word that has to be plain: 2,097,152 and more is a tail outside every net.
    fn check_plain(self, word: u32) -> Result<(), Cause> {
        if word >= ORIGIN {
            return Err(Cause::Tail);
        }
        self.check_word(word)
    }

    // Numbers 1 to 3 of a list of plain words.
    pub fn check_list(self, words: &[u32]) -> Result<(), Refusal> {
        self.check()?;
        if words.len() > 2097152 {
            return Err(Refusal::Words);
        }
        for (index, &word) in words.iter().enumerate() {
            if let Err(cause) = self.check_plain(word) {
                return Err(Refusal::Word { index, cause });
            }
        }
        Ok(())
    }

    // The statement (x, y, sign), if it is one of a node and a kind; else number 4.
    pub fn statement(self, x: u32, y: u32, sign: u32) -> Result<Statement, Refusal> {
        let sign = Sign::of(sign).ok_or(Refusal::Asked)?;
        if !self.is_node(x) || !self.is_kind(y) {
            return Err(Refusal::Asked);
        }
        Ok(Statement { x, y, sign })
    }

    // The marks of all nodes, in front of lent bytes; else number 5.
    pub fn marks<'a>(self, bytes: &'a mut [u8]) -> Result<&'a mut [u8], Refusal> {
        bytes.get_mut(..self.count()).ok_or(Refusal::Room)
    }
}

// A net: its nodes, its words, and the set of origins of which the words are chosen, whose bit i is for origin i.
#[derive(Clone, Copy)]
pub struct Net<'a> {
    pub nodes: Nodes,
    pub words: &'a [u32],
    pub set: u32,
}

impl<'a> Net<'a> {
    // The net of plain words.
    pub fn plain(nodes: Nodes, words: &'a [u32]) -> Net<'a> {
        Net {
            nodes,
            words,
            set: PLAIN,
        }
    }

    // Numbers 1, 2, 15 and 3, in this order. All words are tested, chosen or not.
    pub fn check(self) -> Result<(), Refusal> {
        self.nodes.check()?;
        if self.words.len() > 2097152 {
            return Err(Refusal::Words);
        }
        if self.set > 15 {
            return Err(Refusal::Set);
        }
        for (index, &word) in self.words.iter().enumerate() {
            if let Err(cause) = self.nodes.check_word(word) {
                return Err(Refusal::Word { index, cause });
            }
        }
        Ok(())
    }

    // Those of a net, and then number 4 for a call about the statement (x, y, sign).
    pub fn statement(self, x: u32, y: u32, sign: u32) -> Result<Statement, Refusal> {
        self.check()?;
        self.nodes.statement(x, y, sign)
    }

    // What a word of the net says, if its origin is in the set.
    pub fn link(self, word: u32) -> Option<Statement> {
        let chosen = match word / ORIGIN {
            0 => self.set % 2,
            1 => self.set / 2 % 2,
            2 => self.set / 4 % 2,
            3 => self.set / 8 % 2,
            _ => 0,
        };
        if chosen == 0 {
            return None;
        }
        Some(Statement::of(word % ORIGIN))
    }

    // The index of the first chosen word that says something. The numbers are compared first, since nearly all words differ in them.
    pub fn index_of(self, said: Statement) -> Option<usize> {
        let plain = said.word();
        self.words.iter().position(|&word| word % ORIGIN == plain && self.link(word) == Some(said))
    }

    // Whether a chosen word says it.
    pub fn has(self, said: Statement) -> bool {
        self.index_of(said).is_some()
    }
}
