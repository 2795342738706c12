// The table of supported statements: a cell for each pair of nodes, closed under rules (3.1) to (3.5) by passes over all cells.
// In the cell of (x, y), bit 0 says that x → y is supported, and bit 1 that x ↛ y is.
ghost use Rattle.std.specs.Prelude.{◌<◌};

use crate::net::{Net, Nodes, Sign, Statement};
use crate::places::{Filling, add_bits, item_at, narrow};
use crate::reply::{Refusal, Reply, given};

// The bits of a cell.
pub const IS: u8 = 1;

pub const IS_NOT: u8 = 2;

// The bit of a sign.
pub fn bit_of(sign: Sign) -> u8 {
    match sign {
        Sign::Is => IS,
        Sign::IsNot => IS_NOT,
    }
}

// The place of (x, y) in rows of 1,024 cells.
fn cell(x: usize, y: usize) -> usize
    ensures { result < 1048576 }
{
    x % 1024 * 1024 + y % 1024
}

// Room for a table, which is lent, so that it is moved nowhere.
pub const CELLS: usize = 1048576;

pub type Room = [u8; CELLS];

// The most bytes of a row: a net that is checked has no more nodes.
const ROW: usize = 1024;

// Adds bytes to those of a row; true when one of them changed.
fn add_row(row: &mut [u8], bytes: &[u8]) -> bool {
    let mut new = 0;
    for (own, &bits) in row.iter_mut().zip(bytes) {
        new |= bits & !*own;
        *own |= bits;
    }
    new != 0
}

// A byte for each node and each kind.
#[derive(Drop)]
pub struct Table<'a> {
    nodes: Nodes,
    cells: &'a mut [u8],
}

impl<'a> Table<'a> {
    // A table of zeros, in room that is all zeros.
    pub fn over(nodes: Nodes, room: &'a mut Room) -> Table<'a> {
        Table { nodes, cells: room }
    }

    // The table of what a net supports, in room that is all zeros.
    pub fn of(net: Net, room: &'a mut Room) -> Table<'a> {
        let mut table = Table::over(net.nodes, room);
        table.close(net);
        table
    }

    // The byte of (x, y): of supported statements 0 none, 1 yes, 2 no, 3 both.
    pub fn at(&self, x: usize, y: usize) -> u8 {
        item_at(self.cells, cell(x, y), 0)
    }

    // Adds bits to it; true when it changed.
    pub fn add(&mut self, x: usize, y: usize, bits: u8) -> bool {
        add_bits(self.cells, cell(x, y), bits)
    }

    // Whether the byte of (x, y) has a bit.
    pub fn has(&self, x: usize, y: usize, bit: u8) -> bool {
        self.at(x, y) & bit != 0
    }

    // The byte of (x, y) as a value of a reply.
    pub fn answer(&self, x: u32, y: u32) -> u32 {
        self.at(x as usize, y as usize) as u32
    }

    // Whether it has a statement.
    pub fn says(&self, said: Statement) -> bool {
        self.has(said.x as usize, said.y as usize, bit_of(said.sign))
    }

    // Whether no byte is above 3.
    pub fn is_of_answers(&self) -> bool {
        let (o, n) = self.kinds();
        (0..n).all(|x| (o..n).all(|y| self.at(x, y) <= 3))
    }

    // Adds a statement.
    pub fn put(&mut self, said: Statement) {
        self.add(said.x as usize, said.y as usize, bit_of(said.sign));
    }

    // The first kind, and the number of nodes.
    fn kinds(&self) -> (usize, usize) {
        (self.nodes.first_kind(), self.nodes.count())
    }

    // The bytes of x and of each kind in turn.
    fn row(&mut self, x: usize) -> &mut [u8] {
        let (o, n) = self.kinds();
        let start = cell(x, 0);
        self.cells
            .get_mut(start.saturating_add(o)..start.saturating_add(n))
            .unwrap_or(&mut [])
    }

    // (3.2) and (3.4) for each kind q: where x → q, x is and is not whatever q is and is not. The bytes of q are copied, and stay as they are: x is
    // another node.
    fn chain(&mut self) -> bool {
        let (o, n) = self.kinds();
        let mut bytes = [0; ROW];
        let mut changed = false;
        for q in o..n {
            for (copy, &own) in bytes.iter_mut().zip(&*self.row(q)) {
                *copy = own;
            }
            for x in 0..n {
                if x != q && self.has(x, q, IS) {
                    changed |= add_row(self.row(x), &bytes);
                }
            }
        }
        changed
    }

    // (3.3) for each kind p: each kind that p is not, is not p.
    fn turn(&mut self) -> bool {
        let (o, n) = self.kinds();
        let mut changed = false;
        for p in o..n {
            for q in o..n {
                if self.has(p, q, IS_NOT) {
                    changed |= self.add(q, p, IS_NOT);
                }
            }
        }
        changed
    }

    // (3.5) for each kind q: an object a with a ↛ q is none of the kinds that are q.
    fn deny(&mut self) -> bool {
        let (o, n) = self.kinds();
        let mut bytes = [0; ROW];
        let mut changed = false;
        for q in o..n {
            if !(0..o).any(|a| self.has(a, q, IS_NOT)) {
                continue;
            }
            for (p, bits) in (o..n).zip(&mut bytes) {
                *bits = if self.has(p, q, IS) { IS_NOT } else { 0 };
            }
            for a in 0..o {
                if self.has(a, q, IS_NOT) {
                    changed |= add_row(self.row(a), &bytes);
                }
            }
        }
        changed
    }

    // One pass of all rules; true when it added something.
    fn pass(&mut self) -> bool {
        let chained = self.chain();
        let turned = self.turn();
        let denied = self.deny();
        chained | turned | denied
    }

    // The chosen links, (3.1) that every kind is itself, and passes until one adds nothing. Each other pass adds one of 2 × 1,024 × 1,024
    // statements, so these suffice.
    pub fn close(&mut self, net: Net) {
        for &word in net.words {
            if let Some(link) = net.link(word) {
                self.put(link);
            }
        }
        let (o, n) = self.kinds();
        for p in o..n {
            self.add(p, p, IS);
        }
        for _ in 0..2097154 {
            if !self.pass() {
                return;
            }
        }
    }

    // How many statements it has.
    pub fn count(&self) -> usize {
        let (o, n) = self.kinds();
        let mut count: usize = 0;
        for x in 0..n {
            for y in o..n {
                count = count.saturating_add(self.at(x, y).count_ones() as usize);
            }
        }
        count
    }

    // Their words behind the words of a list, cell by cell, which is in ascending order.
    pub fn write(&self, list: &mut Filling<u32>) {
        let (o, n) = self.kinds();
        for x in 0..n {
            for y in o..n {
                if self.has(x, y, IS) {
                    list.push(Statement::is(narrow(x), narrow(y)).word());
                }
                if self.has(x, y, IS_NOT) {
                    list.push(Statement::is_not(narrow(x), narrow(y)).word());
                }
            }
        }
    }

    // The first two nodes whose byte holds both: rows stand in the order of nodes, and cells of a row in the order of kinds.
    pub fn clash(&self) -> Option<(u32, u32)> {
        let (o, n) = self.kinds();
        for x in 0..n {
            for y in o..n {
                if self.at(x, y) == 3 {
                    return Some((narrow(x), narrow(y)));
                }
            }
        }
        None
    }

    // The reply of a completion: all words in a list, or number 8 where they have no room.
    pub fn complete(&self, list: &mut [u32]) -> Result<Reply, Refusal> {
        let needed = self.count();
        if list.len() < needed {
            return Err(Refusal::List { needed, which: 0 });
        }
        self.write(&mut Filling::new(list));
        Ok(given(narrow(needed), 0))
    }
}

// All supported words, ascending and plain.
pub fn completion(net: Net, marks: &mut [u8], list: &mut [u32]) -> Result<Reply, Refusal> {
    net.check()?;
    net.nodes.marks(marks)?.fill(0);
    let mut room = [0; CELLS];
    Table::of(net, &mut room).complete(list)
}

// The smallest node, object or kind, that both is and is not some kind, and the smallest such kind of that node.
pub fn clash(net: Net, marks: &mut [u8]) -> Result<Reply, Refusal> {
    net.check()?;
    net.nodes.marks(marks)?.fill(0);
    let mut room = [0; CELLS];
    let (x, y) = Table::of(net, &mut room)
        .clash()
        .ok_or(Refusal::NothingThere)?;
    Ok(given(x, y))
}
