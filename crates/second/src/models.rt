// Valuations of section 6. A lent table has k bytes for each element, in node order; here they stand in a square, in the cells of the table of
// supported statements. Of such a byte bit 0 is T and bit 1 is F.
use crate::closure::{CELLS, Room, Table};
use crate::net::{Net, Nodes, Sign, Statement};
use crate::places::Filling;
use crate::reply::{Refusal, Reply, given};

const T: u8 = 1;

const F: u8 = 2;

// Whether so many places are enough for `width` of each of n elements.
pub fn is_room(n: usize, width: usize, size: usize) -> bool {
    width == 0 || n <= size / width
}

// The valuation of a net: its elements are the objects and a witness for each kind, and the byte of an element and a kind is the answer for
// that node and kind.
pub fn valuation(net: Net, table: &mut [u8], marks: &mut [u8]) -> Result<Reply, Refusal> {
    net.check()?;
    let marks = net.nodes.marks(marks)?;
    let (o, n) = (net.nodes.first_kind(), net.nodes.count());
    if !is_room(n, net.nodes.kinds as usize, table.len()) {
        return Err(Refusal::Table);
    }
    marks.fill(0);
    let mut room = [0; CELLS];
    let support = Table::of(net, &mut room);
    let mut values = Filling::new(table);
    for d in 0..n {
        for p in o..n {
            values.push(support.at(d, p));
        }
    }
    Ok(given(0, 0))
}

// A lent table as a square, in room that is all zeros.
fn square_of<'a>(nodes: Nodes, table: &[u8], room: &'a mut Room) -> Table<'a> {
    let mut square = Table::over(nodes, room);
    let mut values = table.iter();
    for d in 0..nodes.count() {
        for p in nodes.first_kind()..nodes.count() {
            if let Some(&value) = values.next() {
                square.add(d, p, value);
            }
        }
    }
    square
}

// Whether all elements that have one truth at p have the other at q.
fn is_inside(n: usize, square: &Table, p: usize, one: u8, q: usize, other: u8) -> bool {
    (0..n).all(|d| !square.has(d, p, one) || square.has(d, q, other))
}

// Whether the statement holds: of an object by (6.1) and (6.2). Of a kind, by (6.3) T goes from x to y and F from y to x, and by (6.4) T of each is F of
// the other.
fn holds(nodes: Nodes, square: &Table, said: Statement) -> bool {
    let n = nodes.count();
    let (x, y) = (said.x as usize, said.y as usize);
    let is_object = said.x < nodes.objects;
    match said.sign {
        Sign::Is if is_object => square.has(x, y, T),
        Sign::IsNot if is_object => square.has(x, y, F),
        Sign::Is => is_inside(n, square, x, T, y, T) && is_inside(n, square, y, F, x, F),
        Sign::IsNot => is_inside(n, square, x, T, y, F) && is_inside(n, square, y, T, x, F),
    }
}

// Whether a statement holds in a lent valuation of that shape.
pub fn satisfies(nodes: Nodes, table: &[u8], x: u32, y: u32, sign: u32) -> Result<Reply, Refusal> {
    nodes.check()?;
    let said = nodes.statement(x, y, sign)?;
    if !is_room(nodes.count(), nodes.kinds as usize, table.len()) {
        return Err(Refusal::Table);
    }
    let mut room = [0; CELLS];
    let square = square_of(nodes, table, &mut room);
    if !square.is_of_answers() {
        return Err(Refusal::Table);
    }
    Ok(given(u32::from(holds(nodes, &square, said)), 0))
}
