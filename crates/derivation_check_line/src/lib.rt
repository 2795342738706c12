// The tests of one line of a derivation: what its rule asks of the lines above it.
#![tactic(auto)]

ghost use Rattle.std.specs.Prelude.{◌≡◌, ◌*◌, ◌≤◌, length};
ghost use Rattle.theory.specs.Words.{sign_at, tail_of, head_of, sign_of};
ghost use Rattle.derivation_lines.specs.Tests.{is_kind, word_says, is_above, grounds};
ghost use Rattle.derivation_lines.specs.Known.{KnownWords};
ghost use Rattle.derivation_lines.specs.Flat.{ground_at, lines_of};
ghost use Rattle.derivation_check_line.specs.Parts.{chained, lowered};

use derivation_lines::{IS, IS_NOT, LINK, RULE_1, RULE_2, RULE_3, RULE_4, RULE_5};
use net_word::{head_of, is_chosen, plain_of, tail_of};

// Whether `p` is a kind.
fn is_kind(o: u32, k: u32, p: usize) -> bool
    ensures { result ≡ is_kind o k p }
{
    let objects = o as usize;
    (objects <= p) & (p < objects + k as usize)
}

// Whether line `j` stands above line `n` and says x → y (`sign` 0) or x ↛ y (`sign` 1).
pub fn is_above(list: &[u32], n: usize, j: usize, x: usize, y: usize, sign: u32) -> bool
    requires lines { 4 * n ≤ length list.now }
    requires sign { sign ≤ 1 }
    ensures { result ≡ is_above (lines_of list.now) n j x y (sign_at sign) }
{
    if n <= j {
        return false;
    }
    let word = list[4 * j];
    let tail = tail_of(word) == x;
    let head = head_of(word) == y;
    tail & (head & (word % 2 == sign))
}

// (3.2) and (3.4): x → q, and q → y (`sign` 0) or q ↛ y (`sign` 1).
fn is_chain(
    o: u32,
    k: u32,
    list: &[u32],
    n: usize,
    x: usize,
    y: usize,
    sign: u32,
    i: usize,
    j: usize,
) -> bool
    requires lines { 4 * n ≤ length list.now }
    requires sign { sign ≤ 1 }
    ensures { result ≡ chained o k (lines_of list.now) n x y (sign_at sign) i j }
{
    if n <= i {
        return false;
    }
    let middle = head_of(list[4 * i]);
    let kinds = is_kind(o, k, middle) & is_kind(o, k, y);
    let first = is_above(list, n, i, x, middle, IS);
    let second = is_above(list, n, j, middle, y, sign);
    kinds & (first & second)
}

// (3.5): y → q, and x ↛ q for an object x.
fn is_lowered(
    o: u32,
    k: u32,
    list: &[u32],
    n: usize,
    x: usize,
    y: usize,
    i: usize,
    j: usize,
) -> bool
    requires lines { 4 * n ≤ length list.now }
    ensures { result ≡ lowered o k (lines_of list.now) n x y i j }
{
    if n <= i {
        return false;
    }
    let middle = head_of(list[4 * i]);
    let kinds = is_kind(o, k, y) & is_kind(o, k, middle);
    let object = x < o as usize;
    let first = is_above(list, n, i, y, middle, IS);
    let second = is_above(list, n, j, x, middle, IS_NOT);
    kinds & (object & (first & second))
}

// Whether word `i` of the whole list is chosen and is, its origin removed, this word.
fn is_link(words: &[u32], set: u32, i: usize, word: u32) -> bool
    requires { KnownWords words.now }
    ensures { result ≡ word_says set words.now i (tail_of word) (head_of word) (sign_of word) }
{
    if words.len() <= i {
        return false;
    }
    let link = words[i];
    let chosen = is_chosen(set, link);
    let plain = plain_of(link);
    chosen & (plain == word)
}

// Whether line `n`, which says `word`, follows by its rule and the two numbers after it. A number that the rule does not use has to be 0. The rule is
// the number that stands in the line, as `ground_at` reads it: any number may stand there.
pub fn ground_holds(
    o: u32,
    k: u32,
    words: &[u32],
    set: u32,
    list: &[u32],
    n: usize,
    word: u32,
    rule: u32,
    i: usize,
    j: usize,
) -> bool
    requires known { KnownWords words.now }
    requires lines { 4 * n ≤ length list.now }
    ensures { result ≡ grounds o k set words.now (lines_of list.now) n (tail_of word) (head_of word) (sign_of word) (ground_at rule i j) }
{
    let x = tail_of(word);
    let y = head_of(word);
    let yes = word % 2 == IS;
    let not = word % 2 == IS_NOT;
    if rule == LINK {
        return (j == 0) & is_link(words, set, i, word);
    }
    if rule == RULE_1 {
        return ((i == 0) & (j == 0)) & (yes & ((x == y) & is_kind(o, k, x)));
    }
    if rule == RULE_2 {
        return yes & is_chain(o, k, list, n, x, y, IS, i, j);
    }
    if rule == RULE_3 {
        let kinds = is_kind(o, k, y) & is_kind(o, k, x);
        return (j == 0) & (not & (kinds & is_above(list, n, i, y, x, IS_NOT)));
    }
    if rule == RULE_4 {
        return not & is_chain(o, k, list, n, x, y, IS_NOT, i, j);
    }
    if rule == RULE_5 {
        return not & is_lowered(o, k, list, n, x, y, i, j);
    }
    false
}
