// A question in a buffer that may hold its scan already: questions in a row about one node cost one scan.
#![tactic(auto)]

ghost use Rattle.std.specs.Prelude.{◌≡◌, ◌+◌, ◌<◌, ◌≤◌, length, drop};
ghost use Rattle.theory.specs.Origins.{chosen, NetFrom};
ghost use Rattle.net.specs.Clauses.{call};
ghost use Rattle.question.specs.Table.{question_outcome, question_clauses, question_done};
ghost use Rattle.questions_pair.specs.Holding.{Stands, Known};

use net::{Refusal, is_bad_pair};
use question::{Answer, answer_at, full_scan};

// The node whose full scan stands in a buffer of marks, and the count of its rounds. Where `node` is none, nothing is known of the marks.
#[derive(Clone, Copy)]
pub struct Held {
    pub node: usize,
    pub count: u32,
}

// What a question gives: its answer, and what the buffer holds after it.
#[derive(Drop)]
pub struct Turn {
    pub asked: Result<(Answer, u32), Refusal>,
    pub held: Held,
}

// The full scan from `x`, where it does not stand there already.
fn hold(
    o: u32,
    k: u32,
    n: usize,
    words: &[u32],
    set: u32,
    x: u32,
    held: Held,
    marks: &mut [u8],
) -> Held
    requires net { NetFrom o k words.now }
    requires size { n ≡ o + k }
    requires node { x < n }
    requires room { n ≤ length marks.old }
    requires known { Known n (chosen set words.now) held marks.old }
    ensures node { result.node ≡ x }
    ensures stands { Stands n (chosen set words.now) result marks.new }
    ensures past { drop n marks.new ≡ drop n marks.old }
    ensures long { length marks.new ≡ length marks.old }
{
    let node = x as usize;
    if held.node == node {
        return held;
    }
    let count = full_scan(o, k, n, words, set, x, marks);
    Held { node, count }
}

// The question whether `x` is `y`, on a net that was checked and with marks that are long enough.
pub fn ask_pair(
    o: u32,
    k: u32,
    n: usize,
    words: &[u32],
    set: u32,
    x: u32,
    y: u32,
    held: Held,
    marks: &mut [u8],
) -> Turn
    requires net { NetFrom o k words.now }
    requires size { n ≡ o + k }
    requires room { n ≤ length marks.old }
    requires known { Known n (chosen set words.now) held marks.old }
    ensures asked { question_outcome result.asked marks.new ≡ call (question_clauses o x y marks.old n) (question_done (chosen set words.now) x y marks.old n) }
    ensures known { Known n (chosen set words.now) result.held marks.new }
    ensures long { length marks.new ≡ length marks.old }
{
    if is_bad_pair(o, n, x, y) {
        return Turn {
            asked: Err(Refusal::BadQuestion),
            held,
        };
    }
    let now_held = hold(o, k, n, words, set, x, held, marks);
    let at = y as usize;
    let byte = marks[at];
    Turn {
        asked: Ok((answer_at(byte), now_held.count)),
        held: now_held,
    }
}
