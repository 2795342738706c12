// Our proof of a statement, by Lemmas 9 to 12: the shortest reason is walked link by link, and each link puts its left rule and its axiom where they
// stand in the list. The left rules come in the order of the links from the last to the first, the axioms the other way round.
ghost use Rattle.std.specs.Prelude.{◌≤◌};

use crate::net::{Net, Sign, Statement};
use crate::places::{Filling, narrow, put};
use crate::reply::{Refusal, Reply, given};
use crate::search::{Search, State};
use crate::sequents::Rule;

// The shape of a proof: whether it begins with a right rule, and how many left rules it has.
#[derive(Clone, Copy)]
struct Shape {
    begins_right: bool,
    lefts: u16,
}

impl Shape {
    // The shape of the proof for a reason of so many links: the first link of an object is an axiom, and that of a kind is none.
    fn of(is_object: bool, links: u16) -> Shape {
        Shape {
            begins_right: !is_object,
            lefts: if is_object {
                links.saturating_sub(1)
            } else {
                links
            },
        }
    }

    // How many right rules it has.
    fn rights(self) -> u32
        ensures { result ≤ 1 }
    {
        u32::from(self.begins_right)
    }

    // How many branches: the whole, and the left premise of each left rule.
    fn branches(self) -> u32
        ensures { result ≤ 65536 }
    {
        u32::from(self.lefts) + 1
    }

    // How many rules of either kind.
    fn rules(self) -> u32
        ensures { result ≤ 65536 }
    {
        self.rights() + u32::from(self.lefts)
    }

    // The most sequents one above another in it.
    fn depth(self) -> u32 {
        self.rules() + 1
    }

    // How many steps it has.
    fn steps(self) -> u32 {
        self.rules() + u32::from(self.lefts) + 1
    }

    // The place of its first step.
    fn first_place(self) -> u32 {
        u32::from(self.lefts) * 2 + 3
    }

    // The place of a step.
    fn place_of(self, index: u32) -> u32 {
        index.saturating_mul(3).saturating_add(self.first_place())
    }

    // How many numbers its list has.
    fn size(self) -> u32 {
        self.place_of(self.steps())
    }
}

// A list in which a proof about an individual is written.
#[derive(Drop)]
struct Draft<'a> {
    list: &'a mut [u32],
    shape: Shape,
    own: u32,
}

impl<'a> Draft<'a> {
    // Puts a step.
    fn put_step(&mut self, index: u32, rule: Rule, link: Statement) {
        let place = self.shape.place_of(index) as usize;
        put(self.list, place, rule.number());
        put(self.list, place + 1, self.own);
        put(self.list, place + 2, link.word());
    }

    // Puts the number of branches, and place and size of each: of the whole proof, and of the left premises, of which each has two steps less than the one
    // before it.
    fn put_contents(&mut self) {
        let shape = self.shape;
        let branches = shape.branches();
        let mut contents = Filling::new(self.list);
        contents.extend(&[branches, shape.first_place(), shape.steps()]);
        for branch in 1..branches {
            let size = (branches - branch) * 2 - 1;
            contents.extend(&[shape.place_of(shape.rights() + branch), size]);
        }
    }

    // Puts the axiom of a link, which says that the individual is, or is not, of a kind. The first link is 0.
    fn put_axiom(&mut self, link: u32, kind: u32, sign: Sign) {
        let said = Statement {
            x: self.own,
            y: kind,
            sign,
        };
        let index = self.shape.rules().saturating_add(link);
        self.put_step(index, Rule::Axiom(sign), said);
    }

    // Puts the right rule of a statement about a kind, and the axiom that the fresh node is of that kind.
    fn put_right(&mut self, goal: Statement) {
        self.put_step(0, Rule::Right(goal.sign), goal);
        self.put_axiom(0, goal.x, Sign::Is);
    }

    // Puts the axiom of a link between two states, and its left rule if it is not the first.
    fn put_link(&mut self, net: Net, link: u32, from: State, to: State) {
        let sign = match to {
            State::First(_) => Sign::Is,
            State::Second(_) => Sign::IsNot,
        };
        self.put_axiom(link, to.node(), sign);
        if link > 0 {
            let (rule, over) = left_rule(net, from, to);
            self.put_step(self.shape.rules().saturating_sub(link), rule, over);
        }
    }

    // Puts all links of the reason from x.
    fn put_links(&mut self, search: &Search, x: u32, links: u16) {
        let mut state = State::First(x);
        for passed in 0..links {
            let Some(to) = search.next(state) else {
                break;
            };
            let link = self.shape.rights() + u32::from(passed);
            self.put_link(search.net(), link, state, to);
            state = to;
        }
    }
}

// The left rule for the link of the net between two states, and that link.
fn left_rule(net: Net, from: State, to: State) -> (Rule, Statement) {
    let (u, v) = (from.node(), to.node());
    match (from, to) {
        (_, State::First(_)) => (Rule::Along(Sign::Is), Statement::is(u, v)),
        (State::Second(_), _) => (Rule::Against(Sign::Is), Statement::is(v, u)),
        _ if net.has(Statement::is_not(u, v)) => {
            (Rule::Along(Sign::IsNot), Statement::is_not(u, v))
        }
        _ => (Rule::Against(Sign::IsNot), Statement::is_not(v, u)),
    }
}

// Our proof of the statement (x, y, sign), by way of its shortest reason. It is about x itself, or about the fresh node where it begins with a right rule.
pub fn proof(
    net: Net,
    x: u32,
    y: u32,
    sign: u32,
    scratch: &mut [u16],
    list: &mut [u32],
) -> Result<Reply, Refusal> {
    let goal = net.statement(x, y, sign)?;
    let search = Search::of(net, goal, scratch)?;
    let links = search.links(x)?;
    let is_object = x < net.nodes.objects;
    let shape = Shape::of(is_object, links);
    if shape.depth() > 255 {
        return Err(Refusal::Depth);
    }
    let needed = shape.size() as usize;
    if list.len() < needed {
        return Err(Refusal::List { needed, which: 0 });
    }
    let own = if is_object {
        x
    } else {
        narrow(net.nodes.count())
    };
    let mut draft = Draft { list, shape, own };
    draft.put_contents();
    if !is_object {
        draft.put_right(goal);
    }
    draft.put_links(&search, x, links);
    Ok(given(shape.size(), 0))
}
