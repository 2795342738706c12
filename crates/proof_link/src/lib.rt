// One link of a reason's path, and the rule on the left that uses it. At the crossing the chosen words decide which way round the link stands.
#![tactic(auto)]

ghost use Rattle.std.specs.Prelude.{◌≡◌, ℕ, ◌+◌, ◌*◌, ◌<◌, length};
ghost use Rattle.theory.specs.Origins.{chosen};
ghost use Rattle.proof_form.specs.FromReason.{hop_at};
ghost use Rattle.proof_given.specs.Held.{Entered};
ghost use Rattle.proof_link.specs.Numbered.{link_of};

use proof_given::is_listed;

// A rule on the left by its number, and the link that it uses.
#[derive(Drop)]
pub struct Link {
    pub rule: u32,
    pub tail: u16,
    pub head: u16,
}

// The word of "tail is not head".
fn not_word(tail: u16, head: u16) -> u32
    ensures { result ≡ tail * 2048 + head * 2 + 1 }
{
    tail as u32 * 2048 + head as u32 * 2 + 1
}

// Link `i` of the path that the list holds.
pub fn link_at(words: &[u32], set: u32, path: &[u16], i: usize) -> Link
    requires entered { Entered words.now }
    requires room { i + 3 < length path.now }
    ensures { result ≡ link_of (hop_at (chosen set words.now) path.now i) }
{
    let size = path[0];
    let first = size as usize;
    let from = path[i + 2];
    let to = path[i + 3];
    if i + 1 < first {
        return Link {
            rule: 4,
            tail: from,
            head: to,
        };
    }
    if i + 1 != first {
        return Link {
            rule: 5,
            tail: to,
            head: from,
        };
    }
    if is_listed(words, set, not_word(from, to)) {
        return Link {
            rule: 6,
            tail: from,
            head: to,
        };
    }
    Link {
        rule: 7,
        tail: to,
        head: from,
    }
}
