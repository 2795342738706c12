// One step of a proof: whether it is by its rule, and what it asks to be proved above it. Links are those that a set of origins chooses.
#![tactic(auto)]

ghost use Rattle.std.specs.Prelude.{◌≡◌, ℕ, ◌+◌, ◌*◌, ◌≤◌, ◌<◌, length};
ghost use Rattle.proof_form.specs.Checker.{individual, kind, rule_at, by_axiom, by_right, by_left, two_of, asks};
ghost use Rattle.theory.specs.Origins.{chosen};
ghost use Rattle.proof_given.specs.Held.{held, Entered};

use net_word::{head_of, tail_of};
use proof_form::Asks;
use proof_given::{is_about, is_given};

// Whether a node stands for an individual: an object, or the fresh one.
fn is_individual(o: usize, n: usize, node: usize) -> bool
    ensures { result ≡ individual o n node }
{
    if node < o {
        return true;
    }
    node == n
}

// Whether a node is a kind.
fn is_kind(o: usize, n: usize, node: usize) -> bool
    ensures { result ≡ kind o n node }
{
    if node < o {
        return false;
    }
    node < n
}

// Whether a step is an axiom under the goal.
fn is_axiom(
    o: usize,
    n: usize,
    words: &[u32],
    set: u32,
    added: &[u32],
    count: usize,
    goal: u32,
    rule: u32,
    node: u32,
    link: u32,
) -> bool
    requires entered { Entered words.now }
    requires room { count ≤ length added.now }
    ensures { result ≡ by_axiom o n (chosen set words.now) (held added.now count) goal rule node link }
{
    if link != goal {
        return false;
    }
    let individual = node as usize;
    if individual != tail_of(goal) {
        return false;
    }
    if rule != goal % 2 {
        return false;
    }
    if !is_individual(o, n, individual) {
        return false;
    }
    is_given(words, set, added, count, goal)
}

// Whether a step is by a rule on the right under the goal.
fn is_right(
    o: usize,
    n: usize,
    added: &[u32],
    count: usize,
    goal: u32,
    rule: u32,
    node: u32,
    link: u32,
) -> bool
    requires { count ≤ length added.now }
    ensures { result ≡ by_right o n (held added.now count) goal rule node link }
{
    if link != goal {
        return false;
    }
    if node as usize != n {
        return false;
    }
    if rule != 2 + goal % 2 {
        return false;
    }
    if !is_kind(o, n, tail_of(goal)) {
        return false;
    }
    !is_about(added, count, n)
}

// Whether a step is by a rule on the left.
fn is_left(
    o: usize,
    n: usize,
    words: &[u32],
    set: u32,
    added: &[u32],
    count: usize,
    rule: u32,
    node: u32,
    link: u32,
) -> bool
    requires entered { Entered words.now }
    requires room { (4 ≤ rule) × (count ≤ length added.now) }
    ensures { result ≡ by_left o n (chosen set words.now) (held added.now count) rule node link }
{
    if 8 <= rule {
        return false;
    }
    if link % 2 != (rule - 4) / 2 {
        return false;
    }
    if !is_individual(o, n, node as usize) {
        return false;
    }
    if !is_kind(o, n, tail_of(link)) {
        return false;
    }
    if !is_kind(o, n, head_of(link)) {
        return false;
    }
    is_given(words, set, added, count, link)
}

// The word of a statement about nodes up to N.
pub fn word_of(tail: usize, head: usize, sign: u32) -> u32
    requires { (tail ≤ 1024) × (head < 2097152) × (sign < 2) }
    ensures { result ≡ tail * 2048 + head * 2 + sign }
{
    tail as u32 * 2048 + head as u32 * 2 + sign
}

// What a rule on the left asks for.
fn ask_left(rule: u32, node: usize, tail: usize, head: usize) -> Asks
    requires { (4 ≤ rule) × (rule < 8) × (node ≤ 1024) × (tail < 2097152) × (head < 2097152) }
    ensures { result ≡ two_of (rule_at rule) node tail head }
{
    if rule == 4 {
        return Asks::Two(word_of(node, tail, 0), word_of(node, head, 0));
    }
    if rule == 5 {
        return Asks::Two(word_of(node, head, 1), word_of(node, tail, 1));
    }
    if rule == 6 {
        return Asks::Two(word_of(node, tail, 0), word_of(node, head, 1));
    }
    Asks::Two(word_of(node, head, 0), word_of(node, tail, 1))
}

// What the step asks to be proved above it.
pub fn ask(
    o: usize,
    n: usize,
    words: &[u32],
    set: u32,
    added: &[u32],
    count: usize,
    goal: u32,
    rule: u32,
    node: u32,
    link: u32,
) -> Asks
    requires entered { Entered words.now }
    requires room { (o ≤ n) × (n ≤ 1024) × (count ≤ length added.now) }
    ensures { result ≡ asks o n (chosen set words.now) (held added.now count) goal rule node link }
{
    if rule < 2 {
        if is_axiom(o, n, words, set, added, count, goal, rule, node, link) {
            return Asks::Nothing;
        }
        return Asks::Broken;
    }
    if rule < 4 {
        if is_right(o, n, added, count, goal, rule, node, link) {
            return Asks::One(
                word_of(n, tail_of(goal), 0),
                word_of(n, head_of(goal), goal % 2),
            );
        }
        return Asks::Broken;
    }
    if is_left(o, n, words, set, added, count, rule, node, link) {
        return ask_left(rule, node as usize, tail_of(link), head_of(link));
    }
    Asks::Broken
}
