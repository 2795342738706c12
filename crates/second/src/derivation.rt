// Derivations: a line is four numbers, a statement as a plain word, a rule, and the two numbers of that rule. What the rule gives is worked out from
// the lines above, and the line follows where that is what it says.
use crate::net::{Net, Nodes, Sign, Statement};
use crate::places::{front, item_at};
use crate::reply::{Refusal, Reply, given};

// A rule with its numbers: a link by its index, and (3.1) to (3.5), which take lines by their numbers.
#[derive(Clone, Copy)]
pub enum Rule {
    Link(u32),
    Itself,
    Onward(u32, u32),
    Turned(u32),
    OnwardNot(u32, u32),
    Below(u32, u32),
}

impl Rule {
    // The rule of that number, where the places that it does not use are 0.
    fn of(rule: u32, one: u32, two: u32) -> Option<Rule> {
        match (rule, one, two) {
            (0, index, 0) => Some(Rule::Link(index)),
            (1, 0, 0) => Some(Rule::Itself),
            (2, one, two) => Some(Rule::Onward(one, two)),
            (3, one, 0) => Some(Rule::Turned(one)),
            (4, one, two) => Some(Rule::OnwardNot(one, two)),
            (5, one, two) => Some(Rule::Below(one, two)),
            _ => None,
        }
    }

    // Its number and the two numbers that go with it.
    pub fn numbers(self) -> [u32; 3] {
        match self {
            Rule::Link(index) => [0, index, 0],
            Rule::Itself => [1, 0, 0],
            Rule::Onward(one, two) => [2, one, two],
            Rule::Turned(one) => [3, one, 0],
            Rule::OnwardNot(one, two) => [4, one, two],
            Rule::Below(one, two) => [5, one, two],
        }
    }
}

// What the line of that number says, if it is among those lines.
fn said_by(lines: &[u32], number: u32) -> Option<Statement> {
    if number as usize >= lines.len() / 4 {
        return None;
    }
    Some(Statement::of(item_at(lines, number as usize * 4, 0)))
}

// (3.2) for one sign and (3.4) for the other: what is of a kind is, or is not, what that kind is, or is not.
fn onward(nodes: Nodes, one: Statement, two: Statement, sign: Sign) -> Option<Statement> {
    if one.sign == Sign::Is
        && two.sign == sign
        && one.y == two.x
        && nodes.is_kind(two.x)
        && nodes.is_kind(two.y)
    {
        return Some(Statement {
            x: one.x,
            y: two.y,
            sign,
        });
    }
    None
}

// (3.3): "is not" between kinds, the other way round.
fn turned(nodes: Nodes, one: Statement) -> Option<Statement> {
    if one.sign == Sign::IsNot && nodes.is_kind(one.x) && nodes.is_kind(one.y) {
        return Some(Statement::is_not(one.y, one.x));
    }
    None
}

// (3.5): an object that is not of a kind is not of a kind that is of it.
fn below(nodes: Nodes, one: Statement, two: Statement) -> Option<Statement> {
    if one.sign == Sign::Is
        && two.sign == Sign::IsNot
        && one.y == two.y
        && nodes.is_kind(one.x)
        && nodes.is_kind(one.y)
        && two.x < nodes.objects
    {
        return Some(Statement::is_not(two.x, one.x));
    }
    None
}

// What a rule gives of the node x, where those lines stand above it.
pub fn given_by(net: Net, lines: &[u32], rule: Rule, x: u32) -> Option<Statement> {
    let nodes = net.nodes;
    match rule {
        Rule::Link(index) => net.link(*net.words.get(index as usize)?),
        Rule::Itself if nodes.is_kind(x) => Some(Statement::is(x, x)),
        Rule::Itself => None,
        Rule::Onward(one, two) => {
            onward(nodes, said_by(lines, one)?, said_by(lines, two)?, Sign::Is)
        }
        Rule::Turned(one) => turned(nodes, said_by(lines, one)?),
        Rule::OnwardNot(one, two) => {
            onward(
                nodes,
                said_by(lines, one)?,
                said_by(lines, two)?,
                Sign::IsNot,
            )
        }
        Rule::Below(one, two) => below(nodes, said_by(lines, one)?, said_by(lines, two)?),
    }
}

// What a line says, if it follows where those lines stand above it.
fn follows(net: Net, lines: &[u32], line: &[u32]) -> Option<Statement> {
    let [word, rule, one, two] = line else {
        return None;
    };
    let said = Statement::of(*word);
    let given = given_by(net, lines, Rule::of(*rule, *one, *two)?, said.x)?;
    if given == said { Some(said) } else { None }
}

// What the last line of a list says, if every line follows from those above it.
fn derived(net: Net, list: &[u32]) -> Option<Statement> {
    if list.len() % 4 != 0 {
        return None;
    }
    let mut last = None;
    for (number, line) in list.chunks_exact(4).enumerate() {
        last = Some(follows(net, front(list, number * 4), line)?);
    }
    last
}

// Whether `list` is a derivation of the statement (x, y, sign).
pub fn derivation_check(
    net: Net,
    x: u32,
    y: u32,
    sign: u32,
    list: &[u32],
) -> Result<Reply, Refusal> {
    let goal = net.statement(x, y, sign)?;
    Ok(given(u32::from(derived(net, list) == Some(goal)), 0))
}
