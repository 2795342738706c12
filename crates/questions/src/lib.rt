// A screenful of questions at once: a byte for each pair of nodes.
#![tactic(auto)]

ghost use Rattle.std.specs.Prelude.{◌≡◌, ◌+◌, ◌≤◌, length};
ghost use Rattle.theory_laws.specs.Over.{over};
ghost use Rattle.theory.specs.Origins.{chosen, NetFrom};
ghost use Rattle.questions.specs.declared.PairsError.TheVariants.{Refused};
ghost use Rattle.net.specs.Clauses.{call};
ghost use Rattle.questions.specs.Pairs.{pairs_in};
ghost use Rattle.questions.specs.Table.{asked_byte, answers_from, marks_from, bad_pairs, questions_outcome, questions_clauses, questions_done, questioned_all};

use net::{Refusal, check_net};
use question::{Answer, answer_number};
use questions_pair::{Held, ask_pair};

// Why a screenful of questions has no answers: the pairs are not as they should be (number 10), or a refusal.
#[derive(Clone, Copy)]
pub enum PairsError {
    BadPairs,
    Refused(Refusal),
}

impl From<Refusal> for PairsError {
    ghost from_gives = { λ refusal e. e ≡ Refused refusal };

    fn from(refusal: Refusal) -> PairsError {
        PairsError::Refused(refusal)
    }
}

// The most pairs, and the byte of a bad one.
pub const PAIR_LIMIT: usize = 64;

pub const BAD_PAIR: u8 = 255;

// The byte of what a question answers.
fn asked_byte(asked: Result<(Answer, u32), Refusal>) -> u8
    ensures { result ≡ asked_byte asked }
{
    match asked {
        Ok((answer, _)) => answer_number(answer),
        Err(_) => BAD_PAIR,
    }
}

// Number 10, of a list of `places` numbers and `room` bytes: an odd count, more than 64 pairs, or fewer bytes than pairs.
fn are_bad_pairs(places: usize, room: usize) -> bool
    ensures { result ≡ bad_pairs places room }
{
    let pairs = places / 2;
    if places % 2 == 1 {
        return true;
    }
    if PAIR_LIMIT < pairs {
        return true;
    }
    room < pairs
}

// The byte of each pair in front of the lent bytes, and the marks of the last good one.
fn ask_pairs(
    o: u32,
    k: u32,
    n: usize,
    words: &[u32],
    set: u32,
    pairs: &[u16],
    answers: &mut [u8],
    marks: &mut [u8],
)
    requires net { NetFrom o k words.now }
    requires size { n ≡ o + k }
    requires room { n ≤ length marks.old }
    requires bytes { pairs_in pairs.now ≤ length answers.old }
    ensures answers { answers.new ≡ over (answers_from o n (chosen set words.now) pairs.now 0 (pairs_in pairs.now)) answers.old }
    ensures marks { marks.new ≡ marks_from o n (chosen set words.now) pairs.now 0 (pairs_in pairs.now) marks.old }
{
    let count = pairs.len() / 2;
    let mut held = Held { node: n, count: 0 };
    for i in 0..count {
        let x = pairs[2 * i] as u32;
        let y = pairs[2 * i + 1] as u32;
        let turn = ask_pair(o, k, n, words, set, x, y, held, marks);
        let asked = turn.asked;
        held = turn.held;
        answers[i] = asked_byte(asked);
    }
}

// Numbers 10, 5 and 0, on a net that was checked.
fn questions_net(
    o: u32,
    k: u32,
    n: usize,
    words: &[u32],
    set: u32,
    pairs: &[u16],
    answers: &mut [u8],
    marks: &mut [u8],
) -> Result<(), PairsError>
    requires net { NetFrom o k words.now }
    requires size { n ≡ o + k }
    ensures { questions_outcome result answers.new marks.new
        ≡ call (questions_clauses pairs.now answers.old marks.old n) (questions_done o (chosen set words.now) pairs.now answers.old marks.old n) }
{
    if are_bad_pairs(pairs.len(), answers.len()) {
        return Err(PairsError::BadPairs);
    }
    if marks.len() < n {
        return Err(PairsError::Refused(Refusal::ShortBuffer));
    }
    ask_pairs(o, k, n, words, set, pairs, answers, marks);
    Ok(())
}

// The questions of all pairs. Questions in a row about one node cost one scan.
pub fn ask_all(
    o: u32,
    k: u32,
    words: &[u32],
    set: u32,
    pairs: &[u16],
    answers: &mut [u8],
    marks: &mut [u8],
) -> Result<(), PairsError>
    ensures { questions_outcome result answers.new marks.new ≡ questioned_all o k words.now set pairs.now answers.old marks.old }
{
    let n = check_net(o, k, words, set)?;
    questions_net(o, k, n, words, set, pairs, answers, marks)
}
