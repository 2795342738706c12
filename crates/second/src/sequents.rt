// Proofs by the rules of section 4 of the report, read step by step: what is to be shown next is the goal, and the main premises that have to wait
// for their left ones lie on a stack. A list is the number of branches, place and size of each, and then the steps.
use crate::net::{Net, Sign, Statement};
use crate::places::{front, item_at, narrow};
use crate::reply::{Refusal, Reply, given};

// What is given where no one step is at fault.
const NO_STEP: Refusal = Refusal::Unproved { step: 4294967295 };

// The most sequents one above another.
const DEEPEST: u32 = 255;

// The axioms have the numbers 0 and 1, the right rules 2 and 3, and the left rules are 4 →⊢, 5 →⊢', 6 ↛⊢, 7 ↛⊢': along a link of a sign, and against it.
#[derive(Clone, Copy)]
pub enum Rule {
    Axiom(Sign),
    Right(Sign),
    Along(Sign),
    Against(Sign),
}

impl Rule {
    // The rule of a number.
    fn of(number: u32) -> Option<Rule> {
        match number {
            0 => Some(Rule::Axiom(Sign::Is)),
            1 => Some(Rule::Axiom(Sign::IsNot)),
            2 => Some(Rule::Right(Sign::Is)),
            3 => Some(Rule::Right(Sign::IsNot)),
            4 => Some(Rule::Along(Sign::Is)),
            5 => Some(Rule::Against(Sign::Is)),
            6 => Some(Rule::Along(Sign::IsNot)),
            7 => Some(Rule::Against(Sign::IsNot)),
            _ => None,
        }
    }

    // Its number.
    pub fn number(self) -> u32 {
        match self {
            Rule::Axiom(Sign::Is) => 0,
            Rule::Axiom(Sign::IsNot) => 1,
            Rule::Right(Sign::Is) => 2,
            Rule::Right(Sign::IsNot) => 3,
            Rule::Along(Sign::Is) => 4,
            Rule::Against(Sign::Is) => 5,
            Rule::Along(Sign::IsNot) => 6,
            Rule::Against(Sign::IsNot) => 7,
        }
    }
}

// What is to be shown, and how many sequents stand up to it.
#[derive(Clone, Copy)]
struct Goal {
    said: Statement,
    depth: u32,
}

// A main premise that waits: its goal, how many statements were added before, what it gains, and of its left premise the entry in the contents and the
// first step.
#[derive(Clone, Copy)]
struct Waiting {
    goal: Goal,
    added: usize,
    gained: Statement,
    entry: u32,
    first_step: u32,
}

// Up to 256 items, one above another. It holds its array: tried with two `Filling`s of local arrays in one struct, the proof did not close.
#[derive(Drop)]
struct Stack<T> {
    items: [T; 256],
    height: usize,
}

impl<T: Copy> Stack<T> {
    // An empty stack; an item stands where none is.
    fn empty(item: T) -> Stack<T> {
        Stack {
            items: [item; 256],
            height: 0,
        }
    }

    // Puts an item on top, if there is room.
    fn push(&mut self, item: T) {
        if let Some(place) = self.items.get_mut(self.height) {
            *place = item;
            self.height += 1;
        }
    }

    // Takes the item on top.
    fn pop(&mut self) -> Option<T> {
        let top = self.height.checked_sub(1)?;
        self.height = top;
        self.items.get(top).copied()
    }

    // Keeps the lowest items alone.
    fn truncate(&mut self, height: usize) {
        self.height = self.height.min(height);
    }

    // The items, the lowest first.
    fn items(&self) -> &[T] {
        front(&self.items, self.height)
    }
}

// What is read of a list: its steps that are left, how many steps were read, how many left rules were met, whether the contents are right so far, the
// statements that were added, and the main premises that wait.
#[derive(Drop)]
struct Reader<'a> {
    net: Net<'a>,
    list: &'a [u32],
    rest: &'a [u32],
    steps: u32,
    lefts: u32,
    is_right: bool,
    added: Stack<Statement>,
    waiting: Stack<Waiting>,
}

impl<'a> Reader<'a> {
    // The number N of the fresh node.
    fn fresh(&self) -> u32 {
        narrow(self.net.nodes.count())
    }

    // Whether a number is an individual: an object, or the fresh node.
    fn is_individual(&self, x: u32) -> bool {
        x < self.net.nodes.objects || x == self.fresh()
    }

    // The place of the next step.
    fn place(&self) -> u32 {
        narrow(self.list.len().saturating_sub(self.rest.len()))
    }

    // Place and size of a branch, as its entry of the contents says.
    fn entry(&self, branch: u32) -> (u32, u32) {
        let at = branch as usize * 2 + 1;
        (item_at(self.list, at, 0), item_at(self.list, at + 1, 0))
    }

    // Whether a step is an axiom for the goal: a statement about an individual that the net has, or that was added.
    fn is_axiom(&self, goal: Statement, sign: Sign, own: u32, link: Statement) -> bool {
        sign == goal.sign
            && link == goal
            && own == goal.x
            && self.is_individual(own)
            && (self.net.has(link) || self.added.items().contains(&link))
    }

    // Whether a step is a right rule for the goal: a statement about a kind, where the fresh node does not occur yet.
    fn is_right_rule(&self, goal: Statement, sign: Sign, own: u32, link: Statement) -> bool {
        sign == goal.sign
            && link == goal
            && own == self.fresh()
            && self.net.nodes.is_kind(link.x)
            && self.added.items().iter().all(|added| added.x != own)
    }

    // Whether a step is a left rule, for whatever goal: an individual and a link of the net between kinds, of the rule's sign.
    fn is_left_rule(&self, sign: Sign, own: u32, link: Statement) -> bool {
        sign == link.sign
            && link.x >= self.net.nodes.objects
            && self.is_individual(own)
            && self.net.has(link)
    }

    // Behind an axiom: goes on with the main premise that waits on top, whose left premise is shown; nothing is left where none waits.
    fn next_waiting(&mut self) -> Option<Goal> {
        let waiting = self.waiting.pop()?;
        let (_, size) = self.entry(waiting.entry);
        self.is_right &= size == self.steps.saturating_sub(waiting.first_step);
        self.added.truncate(waiting.added);
        self.added.push(waiting.gained);
        Some(waiting.goal)
    }

    // Behind a right rule: the fresh node is of the kind, and the goal is about it.
    fn about_fresh(&mut self, goal: Goal) -> Goal {
        let own = self.fresh();
        self.added.push(Statement::is(own, goal.said.x));
        Goal {
            said: Statement {
                x: own,
                ..goal.said
            },
            depth: goal.depth.saturating_add(1),
        }
    }

    // Behind a left rule: its main premise waits for what it gains, and the left one comes next.
    fn put_aside(&mut self, goal: Goal, left: Statement, gained: Statement) -> Goal {
        let depth = goal.depth.saturating_add(1);
        self.lefts = self.lefts.saturating_add(1);
        let waiting = Waiting {
            goal: Goal { depth, ..goal },
            added: self.added.height,
            gained,
            entry: self.lefts,
            first_step: self.steps,
        };
        self.waiting.push(waiting);
        let (place, _) = self.entry(self.lefts);
        self.is_right &= place == self.place();
        Goal { said: left, depth }
    }

    // Reads one step, and gives what is to be shown behind it; nothing where all is shown.
    fn read_step(&mut self, goal: Goal) -> Result<Option<Goal>, Refusal> {
        let [number, own, link, rest @ ..] = self.rest else {
            return Err(NO_STEP);
        };
        let fault = Refusal::Unproved { step: self.steps };
        if goal.depth > DEEPEST {
            return Err(fault);
        }
        let (rule, own, link) = (Rule::of(*number), *own, Statement::of(*link));
        self.rest = rest;
        self.steps = self.steps.saturating_add(1);
        match rule {
            Some(Rule::Axiom(sign)) if self.is_axiom(goal.said, sign, own, link) => {
                Ok(self.next_waiting())
            }
            Some(Rule::Right(sign)) if self.is_right_rule(goal.said, sign, own, link) => {
                Ok(Some(self.about_fresh(goal)))
            }
            Some(Rule::Along(sign)) if self.is_left_rule(sign, own, link) => {
                let left = Statement::is(own, link.x);
                let gained = Statement { x: own, ..link };
                Ok(Some(self.put_aside(goal, left, gained)))
            }
            Some(Rule::Against(sign)) if self.is_left_rule(sign, own, link) => {
                let left = Statement {
                    x: own,
                    y: link.y,
                    sign: sign.other(),
                };
                let gained = Statement::is_not(own, link.x);
                Ok(Some(self.put_aside(goal, left, gained)))
            }
            _ => Err(fault),
        }
    }

    // Reads step after step until all is shown.
    fn read_steps(&mut self, first: Goal) -> Result<(), Refusal> {
        let mut goal = first;
        for _ in 0..self.list.len() {
            match self.read_step(goal)? {
                Some(next) => goal = next,
                None => return Ok(()),
            }
        }
        Err(NO_STEP)
    }

    // Whether nothing is left behind the last step, and the list says its branches: the first of them is the whole, whose steps begin at a place.
    fn is_whole(&self, begin: u32) -> bool {
        self.rest.is_empty()
            && self.is_right
            && item_at(self.list, 0, 0) == self.lefts.saturating_add(1)
            && self.entry(0) == (begin, self.steps)
    }
}

// Whether a list proves a statement; else number 12 with the first step at fault. A list of no branches has no steps.
fn check(net: Net, said: Statement, list: &[u32]) -> Result<(), Refusal> {
    let branches = item_at(list, 0, 0);
    if branches == 0 || list.len() > 4294967295 {
        return Err(NO_STEP);
    }
    let begin = branches as usize * 2 + 1;
    let whole = Goal { said, depth: 1 };
    let nobody = Waiting {
        goal: whole,
        added: 0,
        gained: said,
        entry: 0,
        first_step: 0,
    };
    let mut reader = Reader {
        net,
        list,
        rest: list.get(begin..).ok_or(NO_STEP)?,
        steps: 0,
        lefts: 0,
        is_right: true,
        added: Stack::empty(said),
        waiting: Stack::empty(nobody),
    };
    reader.read_steps(whole)?;
    if reader.is_whole(narrow(begin)) {
        Ok(())
    } else {
        Err(NO_STEP)
    }
}

// Whether `list` proves the statement (x, y, sign); else the first step at fault.
pub fn proof_check(net: Net, x: u32, y: u32, sign: u32, list: &[u32]) -> Result<Reply, Refusal> {
    let said = net.statement(x, y, sign)?;
    check(net, said, list)?;
    Ok(given(0, 0))
}
