// The check of a net, with which every operation on one begins: numbers 1, 2, 15 and 3 of the number table, in that order; the check of a plain list: numbers 1 to 3; the tests of number 4 for a statement; the refusals that all operations pass on, and a reply as a struct.
#![tactic(auto)]

ghost use Rattle.std.specs.Prelude.{◌≡◌};
ghost use Rattle.net_word.specs.Legal.{legal_from};
ghost use Rattle.net.specs.Passing.{passing};
ghost use Rattle.net.specs.Table.{illegal_at, illegal_plain, check_sizes, check_net, check_plain, bad_pair, bad_statement, reply, refusal_reply};

use net_word::{Cause, ORIGIN_LIMIT, cause_number, cause_of, is_legal, plain_cause};

// The refusals that every operation passes on unchanged: numbers 1 to 5 and 15.
#[derive(Clone, Copy)]
pub enum Refusal {
    TooManyNodes,
    TooManyWords,
    IllegalWord(u32, Cause),
    BadQuestion,
    ShortBuffer,
    BadSet,
}

// A reply.
#[repr(C)]
#[derive(Clone, Copy)]
pub struct Reply {
    pub number: u32,
    pub first: u32,
    pub second: u32,
}

// The largest number of nodes, of words, and the largest set of origins.
pub const NODE_LIMIT: usize = 1024;

pub const WORD_LIMIT: usize = 2097152;

pub const SET_LIMIT: u32 = 15;

// The refusal of the word at `index`. That it is illegal is for the caller to know: of a legal one it would say cause 2.
pub fn refuse_word(n: usize, index: u32, word: u32) -> Refusal
    ensures { result ≡ illegal_at n index word }
{
    Refusal::IllegalWord(index, cause_of(n, word))
}

// The same of a plain word.
pub fn refuse_plain(n: usize, index: u32, word: u32) -> Refusal
    ensures { result ≡ illegal_plain n index word }
{
    Refusal::IllegalWord(index, plain_cause(n, word))
}

// How many legal words stand before the first illegal one, where `top` is the largest origin: 0 for a plain list.
pub fn first_illegal(top: u32, o: usize, n: usize, words: &[u32]) -> usize
    ensures { result ≡ passing (legal_from top o n) words.now }
{
    for (i, &word) in words.iter().enumerate() {
        if !is_legal(top, o, n, word) {
            return i;
        }
    }
    words.len()
}

// Numbers 1 and 2: how many nodes and words there are.
fn check_sizes(o: u32, k: u32, count: usize) -> Result<usize, Refusal>
    ensures { result ≡ check_sizes o k count }
{
    let n = o as usize + k as usize;
    if NODE_LIMIT < n {
        return Err(Refusal::TooManyNodes);
    }
    if WORD_LIMIT < count {
        return Err(Refusal::TooManyWords);
    }
    Ok(n)
}

// The check of a net read with a set of origins. All words are counted and tested, chosen or not.
pub fn check_net(o: u32, k: u32, words: &[u32], set: u32) -> Result<usize, Refusal>
    ensures { result ≡ check_net o k words.now set }
{
    let n = check_sizes(o, k, words.len())?;
    if SET_LIMIT < set {
        return Err(Refusal::BadSet);
    }
    let i = first_illegal(ORIGIN_LIMIT, o as usize, n, words);
    if i < words.len() {
        return Err(refuse_word(n, i as u32, words[i]));
    }
    Ok(n)
}

// The check of a list of plain words.
pub fn check_plain(o: u32, k: u32, words: &[u32]) -> Result<usize, Refusal>
    ensures { result ≡ check_plain o k words.now }
{
    let n = check_sizes(o, k, words.len())?;
    let i = first_illegal(0, o as usize, n, words);
    if i < words.len() {
        return Err(refuse_plain(n, i as u32, words[i]));
    }
    Ok(n)
}

// Whether a statement about `x` and `y` is none over a net of `n` nodes: number 4.
pub fn is_bad_pair(o: u32, n: usize, x: u32, y: u32) -> bool
    ensures { result ≡ bad_pair o n x y }
{
    let subject = x as usize;
    let kind = y as usize;
    if n <= subject {
        return true;
    }
    if y < o {
        return true;
    }
    n <= kind
}

// The same where a sign is asked besides.
pub fn is_bad_statement(o: u32, n: usize, x: u32, y: u32, sign: u32) -> bool
    ensures { result ≡ bad_statement o n x y sign }
{
    if is_bad_pair(o, n, x, y) {
        return true;
    }
    1 < sign
}

// The reply of a number and its two values.
pub fn reply_of(number: u32, first: u32, second: u32) -> Reply
    ensures { result ≡ reply number first second }
{
    Reply {
        number,
        first,
        second,
    }
}

// The reply of a refusal.
pub fn refusal_given(refusal: Refusal) -> Reply
    ensures { result ≡ refusal_reply refusal }
{
    match refusal {
        Refusal::TooManyNodes => reply_of(1, 0, 0),
        Refusal::TooManyWords => reply_of(2, 0, 0),
        Refusal::IllegalWord(index, cause) => reply_of(3, index, cause_number(cause)),
        Refusal::BadQuestion => reply_of(4, 0, 0),
        Refusal::ShortBuffer => reply_of(5, 0, 0),
        Refusal::BadSet => reply_of(15, 0, 0),
    }
}
