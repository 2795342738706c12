// The words that a sequent may use: those that a set of origins chooses, and those that were added on the branch; the contents of a proof's list.
#![tactic(auto)]

ghost use Rattle.std.specs.Prelude.{◌≡◌, ℕ, ◌+◌, ◌*◌, ◌≤◌, length};
ghost use Rattle.theory.specs.Origins.{chosen};
ghost use Rattle.proof_form.specs.Checker.{stands_in, about, given, holds, fits};
ghost use Rattle.proof_given.specs.Held.{held, Entered};

use net_word::{is_chosen, plain_of, tail_of};

// Whether a plain word is one of those that the set of origins chooses.
pub fn is_listed(words: &[u32], set: u32, word: u32) -> bool
    requires { Entered words.now }
    ensures { result ≡ stands_in word (chosen set words.now) }
{
    for &link in words {
        if is_chosen(set, link) && plain_of(link) == word {
            return true;
        }
    }
    false
}

// Whether a word is one of the first `count` added. The last of them is looked at first.
fn is_added(added: &[u32], count: usize, word: u32) -> bool
    requires { count ≤ length added.now }
    ensures { result ≡ stands_in word (held added.now count) }
{
    if count == 0 {
        return false;
    }
    let last = count - 1;
    added[last] == word || added[..last].contains(&word)
}

// Whether one of the first `count` added words is about node `n`.
pub fn is_about(added: &[u32], count: usize, n: usize) -> bool
    requires { count ≤ length added.now }
    ensures { result ≡ about n (held added.now count) }
{
    added[..count].iter().any(|&word| tail_of(word) == n)
}

// Whether a word may be used: it was added, or is a chosen one of the net. The added ones come first: they are few, and the last of them is the
// axiom wherever a proof of ours has one beside a link.
pub fn is_given(words: &[u32], set: u32, added: &[u32], count: usize, word: u32) -> bool
    requires entered { Entered words.now }
    requires room { count ≤ length added.now }
    ensures { result ≡ given (chosen set words.now) (held added.now count) word }
{
    if is_added(added, count, word) {
        return true;
    }
    is_listed(words, set, word)
}

// Whether the contents, in front of place `base`, have a value at a place.
fn has_entry(list: &[u32], base: usize, place: usize, value: usize) -> bool
    requires { base ≤ length list.now }
    ensures { result ≡ holds list.now base place value }
{
    if base <= place {
        return false;
    }
    let entry = list[place];
    entry as usize == value
}

// Whether branch `branch` of the contents begins with step `first` and ends before step `end`.
pub fn branch_fits(list: &[u32], base: usize, branch: usize, first: usize, end: usize) -> bool
    requires { (base ≤ length list.now) × (base + 3 * first ≤ length list.now) × (branch ≤ first) × (first ≤ end) }
    ensures { result ≡ fits list.now base branch first end }
{
    if !has_entry(list, base, 1 + 2 * branch, base + 3 * first) {
        return false;
    }
    has_entry(list, base, 2 + 2 * branch, end - first)
}
