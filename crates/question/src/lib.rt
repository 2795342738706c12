// The question that a scope asks before a mean goes on the screen, and the scan that answers it.
#![tactic(auto)]

ghost use Rattle.std.specs.Prelude.{◌≡◌, ◌+◌, ◌<◌, ◌≤◌, length, take, drop};
ghost use Rattle.theory.specs.Scans.{full_scan};
ghost use Rattle.theory.specs.Origins.{chosen, NetFrom};
ghost use Rattle.question.specs.Table.{answer_at, answer_number, question_outcome, question_clauses, question_done, questioned};
ghost use Rattle.net.specs.Clauses.{call};

use net::{Refusal, check_net, is_bad_pair};
use scan::{ScanError, scan_net};

// The four answers.
#[derive(Clone, Copy)]
pub enum Answer {
    None,
    Yes,
    No,
    Both,
}

// The full scan from `x` of the chosen words of a net that was checked: its marks at the nodes, the bytes past them as they were, and the count of its rounds.
pub fn full_scan(o: u32, k: u32, n: usize, words: &[u32], set: u32, x: u32, marks: &mut [u8]) -> u32
    requires net { NetFrom o k words.now }
    requires size { n ≡ o + k }
    requires node { x < n }
    requires room { n ≤ length marks.old }
    ensures count { result ≡ (full_scan n (chosen set words.now) x).count }
    ensures nodes { take n marks.new ≡ (full_scan n (chosen set words.now) x).marks }
    ensures past { drop n marks.new ≡ drop n marks.old }
    ensures long { length marks.new ≡ length marks.old }
{
    let ran = scan_net(n, words, set, x, (3 * n - 1) as u32, marks);
    match ran {
        Ok(count) => count,
        Err(ScanError::Spent(count)) => count,
        Err(ScanError::Refused(_)) => 0,
    }
}

// What the byte at a kind answers: U says yes, F says no.
pub fn answer_at(byte: u8) -> Answer
    ensures { result ≡ answer_at byte }
{
    if byte / 4 % 2 == 1 {
        if byte / 2 % 2 == 1 {
            Answer::Both
        } else {
            Answer::Yes
        }
    } else if byte / 2 % 2 == 1 {
        Answer::No
    } else {
        Answer::None
    }
}

// The number of an answer.
pub fn answer_number(answer: Answer) -> u8
    ensures { result ≡ answer_number answer }
{
    match answer {
        Answer::None => 0,
        Answer::Yes => 1,
        Answer::No => 2,
        Answer::Both => 3,
    }
}

// The question whether `x` is `y`: the word, and the count of rounds.
pub fn ask_question(
    o: u32,
    k: u32,
    words: &[u32],
    set: u32,
    x: u32,
    y: u32,
    marks: &mut [u8],
) -> Result<(Answer, u32), Refusal>
    ensures { question_outcome result marks.new ≡ questioned o k words.now set x y marks.old }
{
    let n = check_net(o, k, words, set)?;
    question_net(o, k, n, words, set, x, y, marks)
}

// Numbers 4, 5 and 0, on a net that was checked.
fn question_net(
    o: u32,
    k: u32,
    n: usize,
    words: &[u32],
    set: u32,
    x: u32,
    y: u32,
    marks: &mut [u8],
) -> Result<(Answer, u32), Refusal>
    requires net { NetFrom o k words.now }
    requires size { n ≡ o + k }
    ensures { question_outcome result marks.new ≡ call (question_clauses o x y marks.old n) (question_done (chosen set words.now) x y marks.old n) }
{
    if is_bad_pair(o, n, x, y) {
        return Err(Refusal::BadQuestion);
    }
    if marks.len() < n {
        return Err(Refusal::ShortBuffer);
    }
    let count = full_scan(o, k, n, words, set, x, marks);
    let at = y as usize;
    let byte = marks[at];
    Ok((answer_at(byte), count))
}
