// A screenful of questions: pairs of u16, x and then y, at most 64 of them.
use crate::closure::{CELLS, Table};
use crate::net::{Net, Nodes, Statement};
use crate::reply::{Refusal, Reply, given};
use crate::rounds::{scan_marks, whole_budget};

// The question of a pair, if it is one of a node and a kind.
fn question_of(nodes: Nodes, pair: &[u16]) -> Option<Statement> {
    let [x, y] = pair else {
        return None;
    };
    nodes.statement(*x as u32, *y as u32, 0).ok()
}

// The byte for a pair: the question's answer off the table, 255 if the pair is bad.
fn byte_for(nodes: Nodes, support: &Table, pair: &[u16]) -> u8 {
    match question_of(nodes, pair) {
        Some(asked) => support.at(asked.x as usize, asked.y as usize),
        None => 255,
    }
}

// The question of the last good pair.
fn last_good(nodes: Nodes, pairs: &[u16]) -> Option<Statement> {
    let mut last = None;
    for pair in pairs.chunks_exact(2) {
        last = question_of(nodes, pair).or(last);
    }
    last
}

// The answers are read off the table, the marks are those of the scan from the last good pair's x, and stay as they are where no pair is good.
pub fn questions(
    net: Net,
    pairs: &[u16],
    answers: &mut [u8],
    marks: &mut [u8],
) -> Result<Reply, Refusal> {
    net.check()?;
    if pairs.len() % 2 != 0 || pairs.len() > 128 || pairs.len() / 2 > answers.len() {
        return Err(Refusal::Pairs);
    }
    let marks = net.nodes.marks(marks)?;
    let mut room = [0; CELLS];
    let support = Table::of(net, &mut room);
    for (pair, answer) in pairs.chunks_exact(2).zip(answers.iter_mut()) {
        *answer = byte_for(net.nodes, &support, pair);
    }
    if let Some(asked) = last_good(net.nodes, pairs) {
        scan_marks(net, asked.x, whole_budget(net.nodes), marks)?;
    }
    Ok(given(0, 0))
}
