// The net file: every part of it stands at a multiple of four bytes. The contents have two numbers for each entry, where its body starts and how long it
// is, and end where the first body starts.
use crate::net::Nodes;
use crate::places::narrow;
use crate::reply::{Refusal, Reply, given};

// The number at a place of four bytes, the lowest byte first.
fn number_at(bytes: &[u8], place: usize) -> u32 {
    let at = place.saturating_mul(4);
    match bytes.get(at..) {
        Some([a, b, c, d, ..]) => u32::from_le_bytes([*a, *b, *c, *d]),
        _ => 0,
    }
}

// The numbers of bytes, in front of a list as far as there is room; how many there are.
pub fn read_numbers(bytes: &[u8], list: &mut [u32]) -> usize {
    for (four, number) in bytes.chunks_exact(4).zip(list.iter_mut()) {
        *number = number_at(four, 0);
    }
    bytes.len() / 4
}

// The bodies of a well-formed file, and where those of the questions and of the set start. Without a set all origins are in it.
#[derive(Clone, Copy)]
pub struct NetFile<'a> {
    pub nodes: Nodes,
    pub words: &'a [u8],
    pub questions: &'a [u8],
    pub set: Option<u32>,
    questions_start: usize,
    set_start: usize,
}

// The body of an entry, if it starts where it has to, has a length in fours, and ends inside the file.
fn body<'a>(file: &'a [u8], entry: usize, start: usize) -> Option<&'a [u8]> {
    let length = number_at(file, entry.saturating_mul(2).saturating_add(1)) as usize;
    if number_at(file, entry.saturating_mul(2)) as usize != start || length % 4 != 0 {
        return None;
    }
    file.get(start..)?.get(..length)
}

impl<'a> NetFile<'a> {
    // Opens a file; number 9 with the place of the first fault: an entry's number, 3 for the size, and 4 for the set.
    pub fn of(file: &'a [u8]) -> Result<NetFile<'a>, Refusal> {
        let has_set = number_at(file, 0) == 32;
        let contents = if has_set { 32 } else { 24 };
        if file.len() < contents || file.len() > 32768 {
            return Err(Refusal::File { place: 3 });
        }
        let sizes = body(file, 0, contents).ok_or(Refusal::File { place: 0 })?;
        if sizes.len() != 8 {
            return Err(Refusal::File { place: 0 });
        }
        let words_start = contents + 8;
        let words = body(file, 1, words_start).ok_or(Refusal::File { place: 1 })?;
        let questions_start = words_start.saturating_add(words.len());
        let questions = body(file, 2, questions_start).ok_or(Refusal::File { place: 2 })?;
        let set_start = questions_start.saturating_add(questions.len());
        let set = if has_set {
            let last = body(file, 3, set_start).ok_or(Refusal::File { place: 4 })?;
            if last.len() != 4 || file.len() != set_start.saturating_add(4) {
                return Err(Refusal::File { place: 4 });
            }
            Some(number_at(last, 0))
        } else {
            if file.len() != set_start {
                return Err(Refusal::File { place: 2 });
            }
            None
        };
        let nodes = Nodes {
            objects: number_at(sizes, 0),
            kinds: number_at(sizes, 1),
        };
        Ok(NetFile {
            nodes,
            words,
            questions,
            set,
            questions_start,
            set_start,
        })
    }
}

// Where the questions and the set of a well-formed file start; the place of a malformed one's 9.
pub fn read_file(file: &[u8]) -> Result<Reply, Refusal> {
    let opened = NetFile::of(file)?;
    Ok(given(narrow(opened.questions_start), narrow(opened.set_start)))
}
