// The fields of a line: decimal numbers, and lists of them in brackets.
use std::alloc::{AllocError, Global};
use std::fmt;

// What can be wrong with a line: its form, or its size.
#[derive(Clone, Copy, PartialEq, Eq)]
pub enum Fault {
    Bad,
    Large,
}

impl fmt::Display for Fault {
    fn fmt<W: fmt::Write>(&self, f: &mut fmt::Formatter<W>) -> fmt::Result {
        f.write_str(match self {
            Fault::Bad => "bad case",
            Fault::Large => "too large",
        })
    }
}

// Why a line gave no case: a fault of the line, or that memory ran out.
#[derive(Clone, Copy)]
pub enum Unread {
    Fault(Fault),
    Memory(AllocError),
}

impl From<Fault> for Unread {
    fn from(fault: Fault) -> Unread {
        Unread::Fault(fault)
    }
}

impl From<AllocError> for Unread {
    fn from(error: AllocError) -> Unread {
        Unread::Memory(error)
    }
}

// Whether a byte parts two fields: a space, a tab or a carriage return.
fn is_space(byte: u8) -> bool {
    matches!(byte, b' ' | b'\t' | b'\r')
}

// The bytes in front that pass a test, and the others from the first that does not.
fn split_while<F: Fn(u8) -> bool>(bytes: &[u8], test: F) -> (&[u8], &[u8])
    requires { F.IsAlwaysCallable test }
{
    let end = bytes
        .iter()
        .position(|byte| !test(*byte))
        .unwrap_or(bytes.len());
    bytes.split_at(end)
}

// The bytes of a line that are still to be read.
#[derive(Drop)]
pub struct Fields<'a> {
    pub(crate) alloc: Global,
    rest: &'a [u8],
}

impl<'a> Fields<'a> {
    // All bytes of a line.
    pub fn of(alloc: Global, line: &'a [u8]) -> Fields<'a> {
        Fields { alloc, rest: line }
    }

    // Passes over the spaces in front.
    fn skip_spaces(&mut self) {
        let (_, rest) = split_while(self.rest, is_space);
        self.rest = rest;
    }

    // Passes over a byte, if it is the first; whether it is.
    fn skip(&mut self, byte: u8) -> bool {
        match self.rest.split_first() {
            Some((first, rest)) if *first == byte => {
                self.rest = rest;
                true
            }
            _ => false,
        }
    }

    // The bytes up to the next space.
    pub fn word(&mut self) -> &'a [u8] {
        self.skip_spaces();
        let (word, rest) = split_while(self.rest, |byte| !is_space(byte));
        self.rest = rest;
        word
    }

    // The number that the digits in front make, at least one.
    fn digits<T: TryFrom<u64>>(&mut self) -> Result<T, Fault>
    where
        T::Error: Drop,
    {
        let (digits, rest) = split_while(self.rest, |byte| byte.is_ascii_digit());
        self.rest = rest;
        let text = str::from_utf8(digits).map_err(|_| Fault::Bad)?;
        let number = text.parse::<u64>().map_err(|_| Fault::Bad)?;
        T::try_from(number).map_err(|_| Fault::Bad)
    }

    // A number as a field.
    pub(crate) fn number<T: TryFrom<u64>>(&mut self) -> Result<T, Fault>
    where
        T::Error: Drop,
    {
        self.skip_spaces();
        self.digits()
    }

    // The next number of a list and how often it stands there, once if no star follows it; none at the closing bracket.
    fn item<T: TryFrom<u64> + Drop>(&mut self) -> Result<Option<(T, u32)>, Fault>
    where
        T::Error: Drop,
    {
        self.skip_spaces();
        if self.skip(b']') {
            return Ok(None);
        }
        let number = self.digits()?;
        let count = if self.skip(b'*') { self.digits()? } else { 1 };
        Ok(Some((number, count)))
    }

    // A list of at most so many numbers as a field.
    pub(crate) fn list<T: TryFrom<u64> + Copy>(&mut self, most: usize) -> Result<Vec<T>, Unread>
    where
        T::Error: Drop,
    {
        self.skip_spaces();
        if !self.skip(b'[') {
            return Err(Unread::Fault(Fault::Bad));
        }
        let mut list = Vec::new(self.alloc);
        // Every turn takes at least one byte.
        for _ in 0..self.rest.len() {
            let Some((number, count)) = self.item()? else {
                return Ok(list);
            };
            let size = list.len().saturating_add(count as usize);
            if size > most {
                return Err(Unread::Fault(Fault::Large));
            }
            list.resize(size, number)?;
        }
        Err(Unread::Fault(Fault::Bad))
    }

    // Room for bytes, each of which is the number that is the next field.
    pub(crate) fn room<const N: usize>(&mut self) -> Result<Box<[u8; N]>, Unread> {
        let byte = self.number()?;
        Ok(Box::new(self.alloc, [byte; N]).map_err(AllocError::from)?)
    }

    // That a line has no more fields.
    pub(crate) fn end(&mut self) -> Result<(), Fault> {
        self.skip_spaces();
        if self.rest.is_empty() {
            Ok(())
        } else {
            Err(Fault::Bad)
        }
    }
}
