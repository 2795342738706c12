// Mending by whole clash tests: each word in turn goes into a table of its own with what is kept, and the first cell of that table that
// holds both decides.
use crate::closure::{CELLS, Table};
use crate::net::{Net, Nodes, Statement};
use crate::places::{Filling, narrow};
use crate::reply::{Refusal, Reply, given};

// Where it clashes that a word joins the words kept.
fn clash_with(nodes: Nodes, kept: &[u32], word: u32) -> Option<(u32, u32)> {
    let mut room = [0; CELLS];
    let mut support = Table::over(nodes, &mut room);
    support.put(Statement::of(word));
    support.close(Net::plain(nodes, kept));
    support.clash()
}

// The plain words, in their order, that do not clash with those kept before them; and each other one, with the node and the kind at which
// it would clash.
pub fn mend(
    nodes: Nodes,
    words: &[u32],
    kept: &mut [u32],
    dropped: &mut [u32],
    marks: &mut [u8],
) -> Result<Reply, Refusal> {
    nodes.check_list(words)?;
    nodes.marks(marks)?.fill(0);
    if kept.len() < words.len() || dropped.len() / 3 < words.len() {
        return Err(Refusal::List {
            needed: words.len(),
            which: 0,
        });
    }
    let mut kept = Filling::new(kept);
    let mut dropped = Filling::new(dropped);
    for &word in words {
        match clash_with(nodes, kept.so_far(), word) {
            None => kept.push(word),
            Some((node, kind)) => dropped.extend(&[word, node, kind]),
        }
    }
    Ok(given(narrow(kept.count()), narrow(dropped.count() / 3)))
}
