// The check of a derivation from anybody, line by line, over the words that a set of origins chooses.
#![tactic(auto)]

ghost use Rattle.std.specs.Prelude.{◌≡◌, ◌+◌, ◌*◌, ◌≤◌, length, get_or};
ghost use Rattle.theory.specs.Words.{sign_at};
ghost use Rattle.theory.specs.Origins.{NetFrom};
ghost use Rattle.derivation_lines.specs.Lines.{blank};
ghost use Rattle.derivation_lines.specs.Tests.{follows, checks};
ghost use Rattle.derivation_lines.specs.Flat.{lines_of};
ghost use Rattle.derivation_check.specs.Table.{accepts, lines_done, lines_verdict};
ghost use Rattle.derivation_lines.specs.Known.{KnownWords};
ghost use Rattle.reason_check.specs.Table.{check_clauses};
ghost use Rattle.net.specs.Clauses.{call};

use derivation_check_line::{ground_holds, is_above};
use net::{Refusal, check_net, is_bad_statement};

// Whether line `n` follows from those above it.
fn line_holds(o: u32, k: u32, words: &[u32], set: u32, list: &[u32], n: usize) -> bool
    requires known { KnownWords words.now }
    requires line { 4 * n + 4 ≤ length list.now }
    ensures { result ≡ follows o k set words.now (lines_of list.now) n (get_or (lines_of list.now) n blank) }
{
    let at = 4 * n;
    let i = list[at + 2] as usize;
    let j = list[at + 3] as usize;
    ground_holds(o, k, words, set, list, n, list[at], list[at + 1], i, j)
}

// Whether every line follows from those above it. The first that does not ends the check.
fn lines_hold(o: u32, k: u32, words: &[u32], set: u32, list: &[u32]) -> bool
    requires { KnownWords words.now }
    ensures { result ≡ checks o k set words.now (lines_of list.now) }
{
    for n in 0..list.len() / 4 {
        if !line_holds(o, k, words, set, list, n) {
            return false;
        }
    }
    true
}

// Whether the list is made of whole lines, which all follow, and the last of which says the statement asked.
fn is_derivation(
    o: u32,
    k: u32,
    words: &[u32],
    set: u32,
    x: u32,
    y: u32,
    sign: u32,
    list: &[u32],
) -> bool
    requires known { KnownWords words.now }
    requires sign { sign ≤ 1 }
    ensures { result ≡ accepts o k set words.now x y (sign_at sign) list.now }
{
    if list.len() % 4 != 0 {
        return false;
    }
    let count = list.len() / 4;
    if count == 0 {
        return false;
    }
    if !is_above(list, count, count - 1, x as usize, y as usize, sign) {
        return false;
    }
    lines_hold(o, k, words, set, list)
}

// Number 4, and then the lines.
fn check_lines(
    o: u32,
    k: u32,
    n: usize,
    words: &[u32],
    set: u32,
    x: u32,
    y: u32,
    sign: u32,
    list: &[u32],
) -> Result<bool, Refusal>
    requires { NetFrom o k words.now }
    ensures { result ≡ call (check_clauses o x y sign n) (lines_done o k set words.now x y sign list.now) }
{
    if is_bad_statement(o, n, x, y, sign) {
        return Err(Refusal::BadQuestion);
    }
    Ok(is_derivation(o, k, words, set, x, y, sign, list))
}

// Whether `list` is a derivation of x → y (`sign` 0) or x ↛ y (`sign` 1) whose links are words that the set of origins chooses.
pub fn check_derivation(
    o: u32,
    k: u32,
    words: &[u32],
    set: u32,
    x: u32,
    y: u32,
    sign: u32,
    list: &[u32],
) -> Result<bool, Refusal>
    ensures { result ≡ lines_verdict o k words.now set x y sign list.now }
{
    let n = check_net(o, k, words, set)?;
    check_lines(o, k, n, words, set, x, y, sign, list)
}
