// The check of a reason from anybody, over the words that a set of origins chooses.
#![tactic(auto)]

ghost use Rattle.std.specs.Prelude.{◌≡◌};
ghost use Rattle.theory.specs.Words.{sign_at};
ghost use Rattle.theory.specs.Checks.{goes_with, passes};
ghost use Rattle.theory.specs.Origins.{chosen, NetFrom};
ghost use Rattle.reason_check.specs.Table.{check_clauses, check_done, verdict};
ghost use Rattle.net.specs.Clauses.{call};

use net::{Refusal, check_net, is_bad_statement};
use reason_check_steps::steps_hold;

// Whether a second part of `second` nodes goes with the sign asked.
fn goes_with(sign: u32, second: u16) -> bool
    ensures { result ≡ goes_with (sign_at sign) second }
{
    if sign == 0 {
        return second == 0;
    }
    0 < second
}

// Whether the list has the shape of a path from `x` to `y`, with nothing after it, and its steps hold.
fn is_path(o: u32, k: u32, words: &[u32], set: u32, x: u32, y: u32, sign: u32, list: &[u16]) -> bool
    requires { NetFrom o k words.now }
    ensures { result ≡ passes o k (chosen set words.now) x y (sign_at sign) list.now }
{
    if list.len() < 3 {
        return false;
    }
    let first = list[0];
    let second = list[1];
    if first == 0 {
        return false;
    }
    if first as usize + second as usize + 2 != list.len() {
        return false;
    }
    if !goes_with(sign, second) {
        return false;
    }
    if list[2] as u32 != x {
        return false;
    }
    if list[list.len() - 1] as u32 != y {
        return false;
    }
    steps_hold(o, k, words, set, list)
}

// Number 4, and then the list.
fn check_list(
    o: u32,
    k: u32,
    n: usize,
    words: &[u32],
    set: u32,
    x: u32,
    y: u32,
    sign: u32,
    list: &[u16],
) -> Result<bool, Refusal>
    requires { NetFrom o k words.now }
    ensures { result ≡ call (check_clauses o x y sign n) (check_done o k (chosen set words.now) x y sign list.now) }
{
    if is_bad_statement(o, n, x, y, sign) {
        return Err(Refusal::BadQuestion);
    }
    Ok(is_path(o, k, words, set, x, y, sign, list))
}

// Whether `list` is a path of words that the set of origins chooses, and shows x → y (`sign` 0) or x ↛ y (`sign` 1).
pub fn check_reason(
    o: u32,
    k: u32,
    words: &[u32],
    set: u32,
    x: u32,
    y: u32,
    sign: u32,
    list: &[u16],
) -> Result<bool, Refusal>
    ensures { result ≡ verdict o k words.now set x y sign list.now }
{
    let n = check_net(o, k, words, set)?;
    check_list(o, k, n, words, set, x, y, sign, list)
}
