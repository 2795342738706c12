// Our proof's list: the contents, then the steps: a kind's right rule, those that use links, the innermost axiom, the axioms beside the links.
#![tactic(auto)]

ghost use Rattle.std.specs.Prelude.{◌≡◌, ◌++◌, [], ◌∷◌, ℕ, ◌+◌, ◌*◌, ◌≤◌, ◌<◌, length};
ghost use Rattle.theory_laws.specs.Over.{over};
ghost use Rattle.proof_form.specs.FromReason.{hops_from};
ghost use Rattle.proof_form.specs.Ours.{use_steps, axiom_step, close_steps, chain_file};
ghost use Rattle.theory.specs.Origins.{chosen};
ghost use Rattle.proof_given.specs.Held.{Entered};
ghost use Rattle.proof_body.specs.Front.{contents_of};

use proof_step::{put_step, write_closes, write_nested, write_uses};

// The steps for `links` links from link `first` on, whose innermost axiom is `start`, in front of the list.
pub fn write_body(
    words: &[u32],
    set: u32,
    path: &[u16],
    first: usize,
    links: usize,
    node: u32,
    start: u32,
    list: &mut [u32],
)
    requires entered { Entered words.now }
    requires room { (first + links + 2 < length path.now) × (6 * links + 3 ≤ length list.old) × (node ≤ 1024) }
    ensures { list.new ≡ over (use_steps node (hops_from (chosen set words.now) path.now first links) ++ (axiom_step node start ++ close_steps node (hops_from (chosen set words.now) path.now first links))) list.old }
{
    write_uses(words, set, path, first, links, node, list);
    let at = 3 * links;
    put_step(list, at, start % 2, node, start);
    let rest = at + 3;
    write_closes(words, set, path, first, links, node, &mut list[rest..]);
}

// The contents, in front of the list.
fn write_front(step: usize, links: usize, list: &mut [u32])
    requires { (links ≤ 1000) × (step ≤ 1) × (2 * links + 3 ≤ length list.old) }
    ensures { list.new ≡ over (contents_of step links) list.old }
{
    let base = 2 * links + 3;
    put_step(
        list,
        0,
        (links + 1) as u32,
        base as u32,
        (step + 2 * links + 1) as u32,
    );
    write_nested(base, step, links, &mut list[3..]);
}

// Our list for an object's statement with `links` links after its first, in front of the list.
pub fn write_object(
    words: &[u32],
    set: u32,
    path: &[u16],
    links: usize,
    node: u32,
    start: u32,
    list: &mut [u32],
)
    requires entered { Entered words.now }
    requires room { (links ≤ 1000) × (3 + links < length path.now) × (8 * links + 6 ≤ length list.old) × (node ≤ 1024) }
    ensures { list.new ≡ over (chain_file 0 [] node start (hops_from (chosen set words.now) path.now 1 links) links) list.old }
{
    write_front(0, links, list);
    let base = 2 * links + 3;
    write_body(words, set, path, 1, links, node, start, &mut list[base..]);
}

// Our list for a kind's statement with `links` links, in front of the list.
pub fn write_kind(
    words: &[u32],
    set: u32,
    path: &[u16],
    links: usize,
    rule: u32,
    goal: u32,
    node: u32,
    start: u32,
    list: &mut [u32],
)
    requires entered { Entered words.now }
    requires room { (links ≤ 1000) × (2 + links < length path.now) × (8 * links + 9 ≤ length list.old) × (node ≤ 1024) }
    ensures { list.new ≡ over (chain_file 1 (rule ∷ node ∷ goal ∷ []) node start (hops_from (chosen set words.now) path.now 0 links) links) list.old }
{
    write_front(1, links, list);
    let base = 2 * links + 3;
    put_step(list, base, rule, node, goal);
    let rest = base + 3;
    write_body(words, set, path, 0, links, node, start, &mut list[rest..]);
}
