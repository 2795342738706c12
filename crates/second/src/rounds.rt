// The rounds of the marker machine, each marker in an array of its own: 1 where the node has the mark, 0 elsewhere.
use crate::closure::{CELLS, Table};
use crate::net::{Net, Nodes, Sign};
use crate::places::{add_bits, item_at, narrow};
use crate::reply::{Refusal, Reply, given};

// A byte for each node.
type Marker = [u8; 1024];

// The way of a command over a link: from its tail to its head, or back.
#[derive(Clone, Copy)]
enum Way {
    Down,
    Up,
}

// One command: each chosen link of that sign with a mark of `old` at one end puts a mark at its other end; true when one was set.
fn command(net: Net, sign: Sign, way: Way, old: &Marker, marker: &mut Marker) -> bool {
    let mut changed = false;
    for &word in net.words {
        if let Some(link) = net.link(word) {
            if link.sign == sign {
                let (from, to) = match way {
                    Way::Down => (link.x as usize, link.y as usize),
                    Way::Up => (link.y as usize, link.x as usize),
                };
                changed |= add_bits(marker, to, item_at(old, from, 0));
            }
        }
    }
    changed
}

// The three markers of a scan.
#[derive(Drop)]
pub struct Markers {
    t: Marker,
    f: Marker,
    u: Marker,
}

impl Markers {
    // T and U stand on the node x alone, and F nowhere.
    pub fn from(x: u32) -> Markers {
        let mut only: Marker = [0; 1024];
        add_bits(&mut only, x as usize, 1);
        Markers {
            t: only,
            f: [0; 1024],
            u: only,
        }
    }

    // The five commands of a round; true when one of them set a mark.
    fn round(&mut self, net: Net) -> bool {
        let old = self.t;
        let first = command(net, Sign::Is, Way::Up, &old, &mut self.t);
        let old = self.u;
        let second = command(net, Sign::Is, Way::Down, &old, &mut self.u);
        let old = self.f;
        let third = command(net, Sign::Is, Way::Up, &old, &mut self.f);
        let fourth = command(net, Sign::IsNot, Way::Down, &self.u, &mut self.f);
        let fifth = command(net, Sign::IsNot, Way::Up, &self.u, &mut self.f);
        first | second | third | fourth | fifth
    }

    // Rounds until one sets nothing, at most `budget` of them: their number, or number 6 where none of them set nothing.
    pub fn run(&mut self, net: Net, budget: u32) -> Result<u32, Refusal> {
        for before in 0..budget {
            if !self.round(net) {
                return Ok(before + 1);
            }
        }
        Err(Refusal::Budget { count: budget })
    }

    // A node's byte: 1 for T, 2 for F, 4 for U.
    fn byte_of(&self, v: usize) -> u8 {
        let t = item_at(&self.t, v, 0) % 2;
        let f = item_at(&self.f, v, 0) % 2;
        let u = item_at(&self.u, v, 0) % 2;
        t + f * 2 + u * 4
    }

    // The bytes of the first nodes, one for each mark.
    pub fn pack(&self, marks: &mut [u8]) {
        for (v, mark) in marks.iter_mut().enumerate() {
            *mark = self.byte_of(v);
        }
    }
}

// 3N − 1, the rounds within which every scan of a legal net ends.
pub fn whole_budget(nodes: Nodes) -> u32 {
    narrow((3 * nodes.count()).saturating_sub(1))
}

// The scan of a legal net from the node x, with a mark for each node: how many rounds it took.
pub fn scan_marks(net: Net, x: u32, budget: u32, marks: &mut [u8]) -> Result<u32, Refusal> {
    let mut markers = Markers::from(x);
    let count = markers.run(net, budget);
    markers.pack(marks);
    count
}

// The scan from the node `start`.
pub fn scan(net: Net, start: u32, budget: u32, marks: &mut [u8]) -> Result<Reply, Refusal> {
    net.check()?;
    if !net.nodes.is_node(start) {
        return Err(Refusal::Asked);
    }
    let marks = net.nodes.marks(marks)?;
    let count = scan_marks(net, start, budget, marks)?;
    Ok(given(count, 0))
}

// The question (x, y): the word is read off the table, the marks and the count are those of the scan from x.
pub fn question(net: Net, x: u32, y: u32, marks: &mut [u8]) -> Result<Reply, Refusal> {
    let asked = net.statement(x, y, 0)?;
    let marks = net.nodes.marks(marks)?;
    let mut room = [0; CELLS];
    let support = Table::of(net, &mut room);
    let count = scan_marks(net, asked.x, whole_budget(net.nodes), marks)?;
    Ok(given(support.answer(asked.x, asked.y), count))
}
