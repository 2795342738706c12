// The shortest reason: distances to the end, shortened link by link until nothing changes, and then the walk that they show.
use crate::net::{Net, Sign, Statement};
use crate::places::{Filling, item_at, put};
use crate::reply::{Refusal, Reply, given};

// The distance where there is no way.
const NO_WAY: u16 = 65535;

// A node in the first part of a reason, or in the second. The first part comes before the second, and then the smaller node.
#[derive(Clone, Copy, PartialEq, Eq, PartialOrd, Ord)]
pub enum State {
    First(u32),
    Second(u32),
}

impl State {
    // Its node.
    pub fn node(self) -> u32 {
        match self {
            State::First(v) => v,
            State::Second(v) => v,
        }
    }
}

// A step from one state to another.
#[derive(Clone, Copy)]
struct Step {
    from: State,
    to: State,
}

// The steps that a link allows along its arrow and against it: → along it inside the first part and against it inside the second, ↛ as a crossing.
fn steps_of(link: Statement) -> [Step; 2] {
    let Statement { x, y, sign } = link;
    match sign {
        Sign::Is => [
            Step {
                from: State::First(x),
                to: State::First(y),
            },
            Step {
                from: State::Second(y),
                to: State::Second(x),
            },
        ],
        Sign::IsNot => [
            Step {
                from: State::First(x),
                to: State::Second(y),
            },
            Step {
                from: State::First(y),
                to: State::Second(x),
            },
        ],
    }
}

// The distances of all states to the end of a reason: of the nodes in the first part, and then of those in the second.
#[derive(Drop)]
pub struct Search<'a> {
    net: Net<'a>,
    distances: &'a mut [u16],
}

impl<'a> Search<'a> {
    // The search for a reason for a statement, which takes two numbers for each node; no distance is above 2,047. Number 5 where there is no room.
    pub fn of(
        net: Net<'a>,
        goal: Statement,
        scratch: &'a mut [u16],
    ) -> Result<Search<'a>, Refusal> {
        let distances = scratch
            .get_mut(..2 * net.nodes.count())
            .ok_or(Refusal::Room)?;
        distances.fill(NO_WAY);
        let mut search = Search { net, distances };
        let end = match goal.sign {
            Sign::Is => State::First(goal.y),
            Sign::IsNot => State::Second(goal.y),
        };
        search.put(end, 0);
        for _ in 0..2050 {
            if !search.relax() {
                break;
            }
        }
        Ok(search)
    }

    // The net that is searched.
    pub fn net(&self) -> Net<'a> {
        self.net
    }

    // Where the distance of a state stands.
    fn place(&self, state: State) -> usize {
        match state {
            State::First(v) => v as usize,
            State::Second(v) => self.net.nodes.count() + v as usize,
        }
    }

    // The distance of a state.
    fn at(&self, state: State) -> u16 {
        item_at(self.distances, self.place(state), NO_WAY)
    }

    // Puts it.
    fn put(&mut self, state: State, distance: u16) {
        let place = self.place(state);
        put(self.distances, place, distance);
    }

    // Shortens the distance where a step starts by the one where it ends; true when it became less.
    fn shorten(&mut self, step: Step) -> bool {
        let through = self.at(step.to).saturating_add(1);
        if through >= self.at(step.from) {
            return false;
        }
        self.put(step.from, through);
        true
    }

    // One pass over the chosen links; true when a distance became less.
    fn relax(&mut self) -> bool {
        let mut changed = false;
        for &word in self.net.words {
            if let Some(link) = self.net.link(word) {
                for step in steps_of(link) {
                    changed |= self.shorten(step);
                }
            }
        }
        changed
    }

    // How many links the reason from x has; else number 7.
    pub fn links(&self, x: u32) -> Result<u16, Refusal> {
        let links = self.at(State::First(x));
        if links == NO_WAY {
            return Err(Refusal::NothingThere);
        }
        Ok(links)
    }

    // The smallest state that follows on a shortest way.
    pub fn next(&self, state: State) -> Option<State> {
        let mut best = None;
        let here = self.at(state);
        for &word in self.net.words {
            if let Some(link) = self.net.link(word) {
                for step in steps_of(link) {
                    if step.from == state
                        && self.at(step.to).saturating_add(1) == here
                        && best.is_none_or(|other| step.to < other)
                    {
                        best = Some(step.to);
                    }
                }
            }
        }
        best
    }
}

// A node as a number of a list.
fn number_of(state: State) -> u16 {
    (state.node() % 1024) as u16
}

// Writes the reason from x, which has that many links, with the sizes of its parts in front.
fn write_reason(search: &Search, x: u32, links: u16, list: &mut [u16]) {
    let mut state = State::First(x);
    let mut first: u16 = 1;
    let mut numbers = Filling::new(list);
    numbers.extend(&[0, 0, number_of(state)]);
    for _ in 0..links {
        let Some(to) = search.next(state) else {
            break;
        };
        state = to;
        numbers.push(number_of(state));
        if let State::First(_) = state {
            first = first.saturating_add(1);
        }
    }
    put(list, 0, first);
    put(list, 1, links.saturating_add(1).saturating_sub(first));
}

// The shortest reason for the statement (x, y, sign), by way of the distances in the scratch.
pub fn reason(
    net: Net,
    x: u32,
    y: u32,
    sign: u32,
    scratch: &mut [u16],
    list: &mut [u16],
) -> Result<Reply, Refusal> {
    let goal = net.statement(x, y, sign)?;
    let search = Search::of(net, goal, scratch)?;
    let links = search.links(x)?;
    let needed = usize::from(links) + 3;
    if list.len() < needed {
        return Err(Refusal::List { needed, which: 0 });
    }
    write_reason(&search, x, links, list);
    Ok(given(u32::from(links) + 3, 0))
}
