// Bit rows: a row of words of 64 bits for each node, in which bit y says something of that node and the node y. They are packed from the cells
// of the table of supported statements, and read bit by bit.
use crate::closure::{CELLS, IS, IS_NOT, Table};
use crate::models::is_room;
use crate::net::{Net, Nodes};
use crate::places::{Filling, item_at};
use crate::reply::{Refusal, Reply, given};

// How many words a row for the nodes takes.
fn row_size(nodes: Nodes) -> usize {
    nodes.count().div_ceil(64)
}

// Number 5 where two lists have no room for the rows of all nodes.
fn check_room(nodes: Nodes, yes: &[u64], no: &[u64]) -> Result<(), Refusal> {
    let (n, size) = (nodes.count(), row_size(nodes));
    if is_room(n, size, yes.len()) && is_room(n, size, no.len()) {
        Ok(())
    } else {
        Err(Refusal::Room)
    }
}

// Word j of the row of x.
fn packed(support: &Table, bit: u8, x: usize, j: usize) -> u64 {
    let mut word = 0;
    for i in 0..64 {
        if support.has(x, j % 16 * 64 + i, bit) {
            word |= 1 << i;
        }
    }
    word
}

// The rows of all nodes, in front of a list.
fn pack_rows(nodes: Nodes, support: &Table, bit: u8, rows: &mut [u64]) {
    let mut rows = Filling::new(rows);
    for x in 0..nodes.count() {
        for j in 0..row_size(nodes) {
            rows.push(packed(support, bit, x, j));
        }
    }
}

// Bit y of the row of x, in rows of that size.
fn has_bit(rows: &[u64], size: usize, x: usize, y: usize) -> bool {
    let word = item_at(rows, x.saturating_mul(size).saturating_add(y / 64), 0);
    word >> (y % 64) & 1 == 1
}

// The completion by way of rows of bits that are left in the first words of `yes` and `no`: bit y of the row of x says that x → y, or x ↛ y.
pub fn completion_by_rows(
    net: Net,
    yes: &mut [u64],
    no: &mut [u64],
    list: &mut [u32],
) -> Result<Reply, Refusal> {
    net.check()?;
    check_room(net.nodes, yes, no)?;
    let mut room = [0; CELLS];
    let support = Table::of(net, &mut room);
    pack_rows(net.nodes, &support, IS, yes);
    pack_rows(net.nodes, &support, IS_NOT, no);
    support.complete(list)
}

// The question (x, y), read off rows.
pub fn answer_in_rows(
    nodes: Nodes,
    yes: &[u64],
    no: &[u64],
    x: u32,
    y: u32,
) -> Result<Reply, Refusal> {
    nodes.check()?;
    nodes.statement(x, y, 0)?;
    check_room(nodes, yes, no)?;
    let size = row_size(nodes);
    let is = u32::from(has_bit(yes, size, x as usize, y as usize));
    let is_not = u32::from(has_bit(no, size, x as usize, y as usize));
    Ok(given(is + 2 * is_not, 0))
}
