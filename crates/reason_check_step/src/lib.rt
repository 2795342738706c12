// One step of a path: whether a plain word makes it, and whether it repeats a kind.
#![tactic(auto)]

ghost use Rattle.std.specs.Prelude.{◌≡◌};
ghost use Rattle.reason_check_step.specs.Steps.{word_says, makes, repeats};

use net_word::{head_of, tail_of};

// Whether a plain word says x → y (`sign` 0) or x ↛ y (`sign` 1).
fn word_says(word: u32, x: u16, y: u16, sign: u32) -> bool
    ensures { result ≡ word_says x y sign word }
{
    if tail_of(word) != x as usize {
        return false;
    }
    if head_of(word) != y as usize {
        return false;
    }
    word % 2 == sign
}

// Whether a plain word makes the step between two nodes, the first of them the `reached`-th of the path, whose first part has `first` nodes.
#[tactic(auto, unfolding(crate::specs::Steps::makes))]
pub fn makes_step(word: u32, first: u16, reached: usize, from: u16, to: u16) -> bool
    ensures { result ≡ makes first reached from to word }
{
    let size = first as usize;
    if reached < size {
        return word_says(word, from, to, 0);
    }
    if reached == size {
        if word_says(word, from, to, 1) {
            return true;
        }
        return word_says(word, to, from, 1);
    }
    word_says(word, to, from, 0)
}

// Whether that step repeats a kind. The crossing does not: it needs a link.
#[tactic(auto, unfolding(crate::specs::Steps::repeats))]
pub fn is_repeat(o: u32, k: u32, first: u16, reached: usize, from: u16, to: u16) -> bool
    ensures { result ≡ repeats o k first reached from to }
{
    if reached == first as usize {
        return false;
    }
    if from != to {
        return false;
    }
    let node = from as usize;
    let objects = o as usize;
    if node < objects {
        return false;
    }
    node < objects + k as usize
}
