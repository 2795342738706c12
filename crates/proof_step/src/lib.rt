// Parts of our proof's list: the steps that use links, the last link first; their axioms, the first link first; the contents of the branches.
#![tactic(auto)]

ghost use Rattle.std.specs.Prelude.{◌≡◌, ℕ, ◌+◌, ◌-◌, ◌*◌, ◌/◌, ◌≤◌, ◌<◌, length, set};
ghost use Rattle.theory_laws.specs.Over.{over};
ghost use Rattle.proof_form.specs.FromReason.{hops_from};
ghost use Rattle.proof_form.specs.Ours.{use_steps, close_steps, nested};
ghost use Rattle.proof_step.specs.Close.{close_word};
ghost use Rattle.theory.specs.Origins.{chosen};
ghost use Rattle.proof_given.specs.Held.{Entered};

use proof_link::link_at;

// One step of a proof, at a place.
pub fn put_step(list: &mut [u32], at: usize, rule: u32, node: u32, word: u32)
    requires { at + 2 < length list.old }
    ensures { list.new ≡ set (set (set list.old at rule) (at + 1) node) (at + 2) word }
{
    list[at] = rule;
    list[at + 1] = node;
    list[at + 2] = word;
}

// The word of a link that a rule on the left uses.
fn used_word(rule: u32, tail: u16, head: u16) -> u32
    requires { (4 ≤ rule) × (rule < 8) }
    ensures { result ≡ tail * 2048 + head * 2 + (rule - 4) / 2 }
{
    tail as u32 * 2048 + head as u32 * 2 + (rule - 4) / 2
}

// The steps for `links` links from link `first` on, in front of the list.
pub fn write_uses(
    words: &[u32],
    set: u32,
    path: &[u16],
    first: usize,
    links: usize,
    node: u32,
    list: &mut [u32],
)
    requires entered { Entered words.now }
    requires room { (first + links + 2 < length path.now) × (3 * links ≤ length list.old) }
    ensures { list.new ≡ over (use_steps node (hops_from (chosen set words.now) path.now first links)) list.old }
{
    for i in 0..links {
        let left = links - i - 1;
        let link = link_at(words, set, path, first + left);
        let word = used_word(link.rule, link.tail, link.head);
        put_step(list, 3 * i, link.rule, node, word);
    }
}

// The axiom beside a link.
fn close_word(rule: u32, node: u32, tail: u16, head: u16) -> u32
    requires { node ≤ 1024 }
    ensures { result ≡ close_word rule node tail head }
{
    if rule == 4 {
        return node * 2048 + head as u32 * 2 + 0;
    }
    if rule == 6 {
        return node * 2048 + head as u32 * 2 + 1;
    }
    node * 2048 + tail as u32 * 2 + 1
}

// The axioms for `links` links from link `first` on, in front of the list.
pub fn write_closes(
    words: &[u32],
    set: u32,
    path: &[u16],
    first: usize,
    links: usize,
    node: u32,
    list: &mut [u32],
)
    requires entered { Entered words.now }
    requires room { (first + links + 2 < length path.now) × (3 * links ≤ length list.old) × (node ≤ 1024) }
    ensures { list.new ≡ over (close_steps node (hops_from (chosen set words.now) path.now first links)) list.old }
{
    for i in 0..links {
        let link = link_at(words, set, path, first + i);
        let word = close_word(link.rule, node, link.tail, link.head);
        put_step(list, 3 * i, word % 2, node, word);
    }
}

// Place and size of `count` branches, each inside the one before it, the first behind step `step`, in front of the list.
pub fn write_nested(base: usize, step: usize, count: usize, list: &mut [u32])
    requires { (2 * count ≤ length list.old) × (base + 3 * (step + count) ≤ 4294967295) }
    ensures { list.new ≡ over (nested base step count) list.old }
{
    for i in 0..count {
        list[2 * i] = (base + 3 * (step + i + 1)) as u32;
        list[2 * i + 1] = (1 + 2 * (count - i - 1)) as u32;
    }
}
