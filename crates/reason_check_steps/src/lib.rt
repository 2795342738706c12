// All steps of a path, over the words that a set of origins chooses.
#![tactic(auto)]

ghost use Rattle.std.specs.Prelude.{◌≡◌, ◌≤◌, length, get_or, drop};
ghost use Rattle.theory.specs.Checks.{all_steps};
ghost use Rattle.theory.specs.Origins.{chosen, NetFrom};

use net_word::{is_chosen, plain_of};
use reason_check_step::{is_repeat, makes_step};

// Whether every step of the path is a chosen link or a repeat. The first that is neither ends the whole check.
pub fn steps_hold(o: u32, k: u32, words: &[u32], set: u32, list: &[u16]) -> bool
    requires net { NetFrom o k words.now }
    requires long { 3 ≤ length list.now }
    ensures { result ≡ all_steps o k (chosen set words.now) (get_or list.now 0 0) 0 (get_or list.now 2 0) (drop 3 list.now) }
{
    let first = list[0];
    let steps = list.len() - 3;
    let mut holds = true;
    let mut i: usize = 0;
    // No `for`: one label leaves both loops at the first step that is neither a link nor a repeat, a form that is asked for (DECISIONS, "Required forms").
    'steps: while i < steps {
        let from = list[i + 2];
        let to = list[i + 3];
        let reached = i + 1;
        if !is_repeat(o, k, first, reached, from, to) {
            let mut j: usize = 0;
            loop {
                if words.len() <= j {
                    holds = false;
                    break 'steps;
                }
                let word = words[j];
                j += 1;
                if is_chosen(set, word) {
                    let plain = plain_of(word);
                    if makes_step(plain, first, reached, from, to) {
                        break;
                    }
                }
            }
        }
        i = reached;
    }
    holds
}
