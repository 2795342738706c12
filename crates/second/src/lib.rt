// A second engine for the operations of 01, and of 02 as far as it has landed, written from the request alone: it closes a table of all
// pairs under the support rules, where the proved engine spreads markers. It promises to be safe and to end; its answers are there to be compared.
#![tactic(auto)]

mod reply; // reply.rt: number and values of an answer, and why a call is refused
mod places; // places.rt: reading, writing and filling lent slices
mod net; // net.rt: nodes, links and statements, and numbers 1 to 4 and 15 of the number table
mod closure; // closure.rt: the table of supported statements
mod rounds; // rounds.rt: the rounds of a scan
mod pairs; // pairs.rt: a screenful of questions
mod compaction; // compaction.rt: links that say nothing new
mod mending; // mending.rt: links that do not clash
mod models; // models.rt: valuations
mod rows; // rows.rt: bit rows
mod search; // search.rt: the shortest reason
mod path; // path.rt: whether a list is a path
mod proving; // proving.rt: our proof of a statement
mod sequents; // sequents.rt: whether a list is a proof
mod derivation; // derivation.rt: whether a list is a derivation
mod explaining; // explaining.rt: the lines for a reason
mod machine; // machine.rt: the marker unit
mod file; // file.rt: the net file
mod text; // text.rt: the lines of `ask`

use net::{Net, Nodes};
use places::narrow;
pub use reply::Reply;
use reply::{Refusal, given, reply_of};

// The nodes of a call.
fn nodes_of(o: u32, k: u32) -> Nodes {
    Nodes {
        objects: o,
        kinds: k,
    }
}

// The net of a call: the public functions take its parts one by one, since `readings` calls them so.
fn net_of<'a>(o: u32, k: u32, words: &'a [u32], set: u32) -> Net<'a> {
    Net {
        nodes: nodes_of(o, k),
        words,
        set,
    }
}

// The scan from the node `start`.
pub fn scan(
    o: u32,
    k: u32,
    words: &[u32],
    set: u32,
    start: u32,
    budget: u32,
    marks: &mut [u8],
) -> Reply {
    reply_of(rounds::scan(net_of(o, k, words, set), start, budget, marks))
}

// The question (x, y).
pub fn question(
    o: u32,
    k: u32,
    words: &[u32],
    set: u32,
    x: u32,
    y: u32,
    marks: &mut [u8],
) -> Reply {
    reply_of(rounds::question(net_of(o, k, words, set), x, y, marks))
}

// A screenful of questions.
pub fn questions(
    o: u32,
    k: u32,
    words: &[u32],
    set: u32,
    pairs: &[u16],
    answers: &mut [u8],
    marks: &mut [u8],
) -> Reply {
    reply_of(pairs::questions(net_of(o, k, words, set), pairs, answers, marks))
}

// All supported words, ascending and plain.
pub fn completion(
    o: u32,
    k: u32,
    words: &[u32],
    set: u32,
    marks: &mut [u8],
    list: &mut [u32],
) -> Reply {
    reply_of(closure::completion(net_of(o, k, words, set), marks, list))
}

// The same, by way of rows of bits that are left in the first words of `yes` and `no`.
pub fn completion_by_rows(
    o: u32,
    k: u32,
    words: &[u32],
    set: u32,
    yes: &mut [u64],
    no: &mut [u64],
    list: &mut [u32],
) -> Reply {
    reply_of(rows::completion_by_rows(net_of(o, k, words, set), yes, no, list))
}

// The question (x, y), read off rows.
pub fn answer_in_rows(o: u32, k: u32, yes: &[u64], no: &[u64], x: u32, y: u32) -> Reply {
    reply_of(rows::answer_in_rows(nodes_of(o, k), yes, no, x, y))
}

// The smallest node that both is and is not some kind, and the smallest such kind of that node.
pub fn clash(o: u32, k: u32, words: &[u32], set: u32, marks: &mut [u8]) -> Reply {
    reply_of(closure::clash(net_of(o, k, words, set), marks))
}

// The list of plain words without those that the others support.
pub fn compact(o: u32, k: u32, list: &mut [u32], marks: &mut [u8]) -> Reply {
    reply_of(compaction::compact(nodes_of(o, k), list, marks))
}

// The plain words that do not clash with those kept before them, and the others.
pub fn mend(
    o: u32,
    k: u32,
    words: &[u32],
    kept: &mut [u32],
    dropped: &mut [u32],
    marks: &mut [u8],
) -> Reply {
    reply_of(mending::mend(nodes_of(o, k), words, kept, dropped, marks))
}

// The valuation of a net.
pub fn valuation(
    o: u32,
    k: u32,
    words: &[u32],
    set: u32,
    table: &mut [u8],
    marks: &mut [u8],
) -> Reply {
    reply_of(models::valuation(net_of(o, k, words, set), table, marks))
}

// Whether the statement (x, y, sign) holds in a lent valuation of that shape.
pub fn satisfies(o: u32, k: u32, table: &[u8], x: u32, y: u32, sign: u32) -> Reply {
    reply_of(models::satisfies(nodes_of(o, k), table, x, y, sign))
}

// The shortest reason for the statement (x, y, sign).
pub fn reason(
    o: u32,
    k: u32,
    words: &[u32],
    set: u32,
    x: u32,
    y: u32,
    sign: u32,
    scratch: &mut [u16],
    list: &mut [u16],
) -> Reply {
    reply_of(search::reason(net_of(o, k, words, set), x, y, sign, scratch, list))
}

// Whether `list` is a path that shows the statement (x, y, sign).
pub fn reason_check(
    o: u32,
    k: u32,
    words: &[u32],
    set: u32,
    x: u32,
    y: u32,
    sign: u32,
    list: &[u16],
) -> Reply {
    reply_of(path::reason_check(net_of(o, k, words, set), x, y, sign, list))
}

// Our proof of the statement (x, y, sign), by way of its shortest reason.
pub fn proof(
    o: u32,
    k: u32,
    words: &[u32],
    set: u32,
    x: u32,
    y: u32,
    sign: u32,
    scratch: &mut [u16],
    list: &mut [u32],
) -> Reply {
    reply_of(proving::proof(net_of(o, k, words, set), x, y, sign, scratch, list))
}

// Whether `list` proves the statement (x, y, sign); else the first step at fault.
pub fn proof_check(
    o: u32,
    k: u32,
    words: &[u32],
    set: u32,
    x: u32,
    y: u32,
    sign: u32,
    list: &[u32],
) -> Reply {
    reply_of(sequents::proof_check(net_of(o, k, words, set), x, y, sign, list))
}

// The shortest reason for the statement (x, y, sign), and the lines that derive the statement by it.
pub fn explain(
    o: u32,
    k: u32,
    words: &[u32],
    set: u32,
    x: u32,
    y: u32,
    sign: u32,
    scratch: &mut [u16],
    list: &mut [u16],
    lines: &mut [u32],
) -> Reply {
    reply_of(explaining::explain(net_of(o, k, words, set), x, y, sign, scratch, list, lines))
}

// Whether `list` is a derivation of the statement (x, y, sign).
pub fn derivation_check(
    o: u32,
    k: u32,
    words: &[u32],
    set: u32,
    x: u32,
    y: u32,
    sign: u32,
    list: &[u32],
) -> Reply {
    reply_of(derivation::derivation_check(net_of(o, k, words, set), x, y, sign, list))
}

// Runs a program of the marker unit; the first place at fault where there is one.
pub fn unit(
    o: u32,
    k: u32,
    words: &[u32],
    set: u32,
    program: &[u32],
    budget: u32,
    marks: &mut [u8],
) -> Reply {
    reply_of(machine::unit(net_of(o, k, words, set), program, budget, marks))
}

// The text that `ask` prints for a file, written in front of `text`, and its length: what has no room is left out.
pub fn ask_text(file: &[u8], text: &mut [u8]) -> usize {
    text::ask_text(file, text)
}

// The number of nodes of a net to which none of its numbers applies.
fn checked(net: Net) -> Result<Reply, Refusal> {
    net.check()?;
    Ok(given(narrow(net.nodes.count()), 0))
}

// The numbers of a net alone; the number of nodes where none of them applies.
pub fn check_net(o: u32, k: u32, words: &[u32], set: u32) -> Reply {
    reply_of(checked(net_of(o, k, words, set)))
}

// Numbers 1 and 3 for one word: an illegal one has index 0 and its cause.
fn checked_word(nodes: Nodes, word: u32) -> Result<Reply, Refusal> {
    nodes.check()?;
    match nodes.check_word(word) {
        Ok(()) => Ok(given(0, 0)),
        Err(cause) => Err(Refusal::Word { index: 0, cause }),
    }
}

// The test of one word.
pub fn check_word(o: u32, k: u32, word: u32) -> Reply {
    reply_of(checked_word(nodes_of(o, k), word))
}

// The place of a malformed file's 9, or where the questions and the set of a well-formed one start.
pub fn read_file(file: &[u8]) -> Reply {
    reply_of(file::read_file(file))
}
