// Lines written as numbers: of a link, of the steps of a part, of a crossing.
#![tactic(auto)]

ghost use Rattle.std.specs.Prelude.{◌≡◌, [], ◌∷◌, ◌+◌, ◌-◌, ◌*◌, ◌≤◌, ◌<◌, length, get_or, drop};
ghost use Rattle.std.proofs.lemmas.List.Edits.{sets};
ghost use Rattle.theory.specs.Words.{sign_at, word_limit};
ghost use Rattle.theory.specs.Origins.{origin_of, origin_limit};
ghost use Rattle.derivation_lines.specs.Known.{KnownWords};
ghost use Rattle.derivation_lines.specs.Tests.{says};
ghost use Rattle.derivation_lines.specs.Deriving.{place_of, linked, step_link, step_line, cross_size};
ghost use Rattle.explain_line.specs.Blocks.{line_limit, way_at, step_lines, cross_lines, put_lines};

use derivation_lines::{IS, IS_NOT, LINK, RULE_2, RULE_3, RULE_4, RULE_5};
use net_word::{head_of, is_chosen, plain_of, tail_of};

// How a step is taken: up a first part, under an object, down to a kind. Numbers and no enum: `write_steps` takes any number, and its clause names `way_at` of it.
pub const UP: u32 = 0;

pub const UNDER: u32 = 1;

pub const DOWN: u32 = 2;

// Whether the set chooses a word and it says x → y (`sign` 0) or x ↛ y (`sign` 1).
fn word_says(word: u32, set: u32, x: u16, y: u16, sign: u32) -> bool
    requires { origin_of word ≤ origin_limit }
    ensures { result ≡ says set x y sign word }
{
    let chosen = is_chosen(set, word);
    let plain = plain_of(word);
    let tail = tail_of(plain) == x as usize;
    let head = head_of(plain) == y as usize;
    chosen & (tail & (head & (plain % 2 == sign)))
}

// The index of the first chosen word that says so, or the number of words. An `Option` is no plainer: `put_link` writes the number without a test, as
// `linked` does.
pub fn find_link(words: &[u32], set: u32, x: u16, y: u16, sign: u32) -> usize
    requires { KnownWords words.now }
    ensures value { result ≡ place_of set x y sign words.now }
    ensures upper_bound { (result ≤ length words.now) × (result ≤ word_limit) }
{
    for (i, &word) in words.iter().enumerate() {
        if word_says(word, set, x, y, sign) {
            return i;
        }
    }
    words.len()
}

// Line `n`: a statement, its rule and two numbers.
pub fn put_line(list: &mut [u32], n: u32, x: u16, y: u16, sign: u32, rule: u32, one: u32, two: u32)
    requires room { 4 * n + 4 ≤ length list.old }
    requires sign { sign ≤ 1 }
    ensures { list.new ≡ sets list.old (4 * n) ((x * 2048 + y * 2 + sign) ∷ rule ∷ one ∷ two ∷ []) }
{
    let at = 4 * n as usize;
    list[at] = x as u32 * 2048 + y as u32 * 2 + sign;
    list[at + 1] = rule;
    list[at + 2] = one;
    list[at + 3] = two;
}

// Line `n`, the link x → y (`sign` 0) or x ↛ y (`sign` 1).
pub fn put_link(words: &[u32], set: u32, list: &mut [u32], n: u32, x: u16, y: u16, sign: u32)
    requires known { KnownWords words.now }
    requires room { 4 * n + 4 ≤ length list.old }
    requires sign { sign ≤ 1 }
    ensures { list.new ≡ put_lines list.old n (linked set words.now x y (sign_at sign) ∷ []) }
{
    let place = find_link(words, set, x, y, sign);
    put_line(list, n, x, y, sign, LINK, place as u32, 0);
}

// Lines `n` and `n` + 1: a step from `u` to `v`, where line `n` - 1 is a statement about `x` and `u`.
fn put_step(way: u32, words: &[u32], set: u32, list: &mut [u32], n: u32, x: u16, u: u16, v: u16)
    requires known { KnownWords words.now }
    requires room { 4 * n + 8 ≤ length list.old }
    requires number { (1 ≤ n) × (n < line_limit) }
    ensures { list.new ≡ put_lines list.old n (step_link (way_at way) set words.now u v ∷ step_line (way_at way) n x v ∷ []) }
{
    if way == UP {
        put_link(words, set, list, n, u, v, IS);
        put_line(list, n + 1, x, v, IS, RULE_2, n - 1, n);
    } else {
        put_link(words, set, list, n, v, u, IS);
        if way == UNDER {
            put_line(list, n + 1, x, v, IS_NOT, RULE_5, n, n - 1);
        } else {
            put_line(list, n + 1, v, x, IS_NOT, RULE_4, n, n - 1);
        }
    }
}

// The steps over the nodes, from line `n` on, where line `n` - 1 is a statement about `x` and the first of them.
pub fn write_steps(
    way: u32,
    words: &[u32],
    set: u32,
    x: u16,
    nodes: &[u16],
    list: &mut [u32],
    n: u32,
)
    requires known { KnownWords words.now }
    requires some { 1 ≤ length nodes.now }
    requires room { 4 * n + 8 * (length nodes.now - 1) ≤ length list.old }
    requires number { (1 ≤ n) × (n + 2 * length nodes.now < line_limit) }
    ensures { list.new ≡ put_lines list.old n (step_lines (way_at way) set words.now x (get_or nodes.now 0 0) (drop 1 nodes.now) n) }
{
    for i in 0..nodes.len() - 1 {
        put_step(
            way,
            words,
            set,
            list,
            n + 2 * i as u32,
            x,
            nodes[i],
            nodes[i + 1],
        );
    }
}

// The crossing, so that the last line says u ↛ v; how many lines that took.
pub fn write_cross(words: &[u32], set: u32, u: u16, v: u16, list: &mut [u32], n: u32) -> u32
    requires known { KnownWords words.now }
    requires room { 4 * n + 4 * cross_size set words.now u v ≤ length list.old }
    requires number { n < line_limit }
    ensures value { result ≡ cross_size set words.now u v }
    ensures list_after { list.new ≡ put_lines list.old n (cross_lines set words.now u v n) }
{
    let place = find_link(words, set, u, v, IS_NOT);
    if place < words.len() {
        put_line(list, n, u, v, IS_NOT, LINK, place as u32, 0);
        return 1;
    }
    put_link(words, set, list, n, v, u, IS_NOT);
    put_line(list, n + 1, u, v, IS_NOT, RULE_3, n, 0);
    2
}
