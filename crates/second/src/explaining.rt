// The lines for a reason: the reason is walked link by link, and each link puts its own line and the line that a rule gives on it.
use crate::derivation::{Rule, given_by};
use crate::net::{Net, Statement};
use crate::path::Path;
use crate::places::{Filling, front, narrow};
use crate::reply::{Refusal, Reply, given};
use crate::search::reason;

// The lines so far, as four numbers each.
#[derive(Drop)]
struct Lines<'a> {
    net: Net<'a>,
    numbers: Filling<'a, u32>,
}

impl<'a> Lines<'a> {
    // Puts the line that a rule gives of a node, and gives its number.
    fn put(&mut self, rule: Rule, x: u32) -> u32 {
        let number = narrow(self.numbers.count() / 4);
        let word = match given_by(self.net, self.numbers.so_far(), rule, x) {
            Some(said) => said.word(),
            None => 0,
        };
        self.numbers.push(word);
        self.numbers.extend(&rule.numbers());
        number
    }

    // Puts the line of the first link that says something.
    fn put_link(&mut self, said: Statement) -> u32 {
        let index = self.net.index_of(said).unwrap_or(0);
        self.put(Rule::Link(narrow(index)), said.x)
    }

    // Puts the lines up the first part: each link, and what it gives on the line before. None where the part is one node.
    fn put_up(&mut self, first: &[u16]) -> Option<u32> {
        let mut last = None;
        for pair in first.windows(2) {
            if let [from, to] = pair {
                let link = self.put_link(Statement::is(u32::from(*from), u32::from(*to)));
                last = match last {
                    Some(above) => Some(self.put(Rule::Onward(above, link), 0)),
                    None => Some(link),
                };
            }
        }
        last
    }

    // Puts the lines of the crossing, so that the last says u ↛ v.
    fn put_crossing(&mut self, u: u32, v: u32) -> u32 {
        let straight = Statement::is_not(u, v);
        if self.net.has(straight) {
            return self.put_link(straight);
        }
        let back = self.put_link(Statement::is_not(v, u));
        self.put(Rule::Turned(back), 0)
    }

    // Puts the lines down the second part: each link, and what a rule gives on it and the line before.
    fn put_down<F: Fn(u32, u32) -> Rule>(&mut self, second: &[u16], crossed: u32, by: F) -> u32
        requires { F.IsAlwaysCallable by }
    {
        let mut last = crossed;
        for pair in second.windows(2) {
            if let [from, to] = pair {
                let link = self.put_link(Statement::is(u32::from(*to), u32::from(*from)));
                last = self.put(by(link, last), 0);
            }
        }
        last
    }

    // Puts what the last line gives of x, by the last of the first part's lines, where there are any.
    fn put_joined(&mut self, risen: Option<u32>, last: u32) -> u32 {
        match risen {
            Some(risen) => self.put(Rule::OnwardNot(risen, last), 0),
            None => last,
        }
    }

    // Puts crossing and second part behind the lines of the first part, which is joined before the way down.
    fn put_sinking(&mut self, u: u32, v: u32, second: &[u16], risen: Option<u32>) {
        let crossed = self.put_crossing(u, v);
        let joined = self.put_joined(risen, crossed);
        self.put_down(second, joined, |link, last| Rule::Below(link, last));
    }

    // The same for a kind: the way down is taken the other way round, turned at its end, and then joined.
    fn put_swinging(&mut self, u: u32, v: u32, second: &[u16], risen: Option<u32>) {
        let crossed = self.put_crossing(v, u);
        let sunk = self.put_down(second, crossed, |link, last| Rule::OnwardNot(link, last));
        let turned = self.put(Rule::Turned(sunk), 0);
        self.put_joined(risen, turned);
    }

    // Puts the lines for a reason from x: the one line that x, a kind, is itself, where the reason has no link.
    fn put_path(&mut self, path: Path, x: u32) {
        let risen = self.put_up(path.first);
        match path.crossing() {
            None if risen.is_none() => {
                self.put(Rule::Itself, x);
            }
            None => {}
            Some((u, v)) if x < self.net.nodes.objects || path.second.len() == 1 => {
                self.put_sinking(u, v, path.second, risen);
            }
            Some((u, v)) => self.put_swinging(u, v, path.second, risen),
        }
    }
}

// Writes the lines for a reason from x, and gives how many numbers they are.
fn write_lines(net: Net, x: u32, list: &[u16], room: &mut [u32]) -> usize {
    let mut lines = Lines {
        net,
        numbers: Filling::new(room),
    };
    if let Some(path) = Path::of(list) {
        lines.put_path(path, x);
    }
    lines.numbers.count()
}

// The shortest reason for the statement (x, y, sign), and the lines that derive the statement by it.
pub fn explain(
    net: Net,
    x: u32,
    y: u32,
    sign: u32,
    scratch: &mut [u16],
    list: &mut [u16],
    lines: &mut [u32],
) -> Result<Reply, Refusal> {
    let found = reason(net, x, y, sign, scratch, list)?;
    let path = front(list, found.first as usize);
    let mut room = [0u32; 16384];
    let needed = write_lines(net, x, path, &mut room);
    if lines.len() < needed {
        return Err(Refusal::List { needed, which: 1 });
    }
    Filling::new(lines).extend(front(&room, needed));
    Ok(given(narrow(needed), found.first))
}
