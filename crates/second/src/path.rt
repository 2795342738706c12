// Whether a list of numbers is a path, straight from the definition of one.
use crate::net::{Net, Nodes, Sign, Statement};
use crate::reply::{Refusal, Reply, given};

// The nodes of a path: its first part along its arrows, and its second part against them, which is there where something is not.
#[derive(Clone, Copy)]
pub struct Path<'a> {
    pub first: &'a [u16],
    pub second: &'a [u16],
}

impl<'a> Path<'a> {
    // The path of a list that says the sizes of both parts, and has nothing after them.
    pub fn of(list: &'a [u16]) -> Option<Path<'a>> {
        let [first, second, nodes @ ..] = list else {
            return None;
        };
        let size = usize::from(*first);
        if size == 0 || nodes.len() != size + usize::from(*second) {
            return None;
        }
        let (first, second) = nodes.split_at(size);
        Some(Path { first, second })
    }

    // Whether its numbers are nodes.
    fn is_of(self, nodes: Nodes) -> bool {
        self.first.iter().all(|&v| nodes.is_node(v as u32))
            && self.second.iter().all(|&v| nodes.is_node(v as u32))
    }

    // The node before the crossing, and the one behind it.
    pub fn crossing(self) -> Option<(u32, u32)> {
        let (u, v) = self.first.last().zip(self.second.first())?;
        Some((u32::from(*u), u32::from(*v)))
    }

    // Whether it begins and ends as a path for the statement does, with a second part exactly where the sign says so.
    fn joins(self, goal: Statement) -> bool {
        let (last, sign) = match self.second.last() {
            Some(last) => (Some(last), Sign::IsNot),
            None => (self.first.last(), Sign::Is),
        };
        sign == goal.sign
            && self.first.first().is_some_and(|&x| u32::from(x) == goal.x)
            && last.is_some_and(|&y| u32::from(y) == goal.y)
    }

    // Whether every step is allowed.
    fn is_in(self, net: Net) -> bool {
        let crosses = match self.crossing() {
            Some((u, v)) => net.has(Statement::is_not(u, v)) || net.has(Statement::is_not(v, u)),
            None => true,
        };
        self.first.windows(2).all(|pair| is_step(net, pair))
            && crosses
            && self.second.windows(2).all(|pair| is_step_back(net, pair))
    }
}

// Whether the node a may stand before b inside a part along its arrows: a link a → b, or a kind repeated.
fn may_follow(net: Net, a: u16, b: u16) -> bool {
    let (a, b) = (u32::from(a), u32::from(b));
    a == b && net.nodes.is_kind(a) || net.has(Statement::is(a, b))
}

// Whether two nodes of the first part may follow each other.
fn is_step(net: Net, pair: &[u16]) -> bool {
    match pair {
        [a, b] => may_follow(net, *a, *b),
        _ => false,
    }
}

// The same in the second part.
fn is_step_back(net: Net, pair: &[u16]) -> bool {
    match pair {
        [a, b] => may_follow(net, *b, *a),
        _ => false,
    }
}

// Whether a list is a path that shows a statement.
fn shows(net: Net, goal: Statement, list: &[u16]) -> bool {
    match Path::of(list) {
        Some(path) => path.is_of(net.nodes) && path.joins(goal) && path.is_in(net),
        None => false,
    }
}

// Whether `list` is a path that shows the statement (x, y, sign).
pub fn reason_check(net: Net, x: u32, y: u32, sign: u32, list: &[u16]) -> Result<Reply, Refusal> {
    let goal = net.statement(x, y, sign)?;
    Ok(given(u32::from(shows(net, goal, list)), 0))
}
