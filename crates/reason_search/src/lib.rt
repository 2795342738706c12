// The distance of every state to the end of a statement, over the words that a set of origins chooses: level by level, each one pass over the words.
#![tactic(auto)]

ghost use Rattle.std.specs.Prelude.{◌≡◌, cond, [], ◌∷◌, ◌+◌, ◌*◌, ◌<◌, ◌≤◌, length, set, replicate};
ghost use Rattle.theory.specs.Words.{sign_at};
ghost use Rattle.theory.specs.Reasons.{goal, never};
ghost use Rattle.theory.specs.Searches.{arc, arcs, opens, level, distances};
ghost use Rattle.theory.specs.Origins.{origin_of, origin_limit, chooses, chosen, NetFrom, EndsFrom};
ghost use Rattle.reason_search.specs.Search.{Kept};

use net_word::{head_of, is_chosen, plain_of, tail_of};

// The place of a state that has no distance. A number and no `Option`: the places are the 16 bits of the caller's scratch, and `distances` says what
// each of them holds.
pub const NEVER: u16 = 65535;

// Two places as one number.
fn pair(high: u16, low: u16) -> u32
    ensures { (result ≡ high * 65536 + low) × ((high < 65536) × (low < 65536)) }
{
    high as u32 * 65536 + low as u32
}

// Whether a move leads from a state without a distance to one at distance `i`: one comparison asks both.
fn is_open(i: u16, from: usize, to: usize, places: &[u16]) -> bool
    requires { (from < length places.now) × (to < length places.now) }
    ensures { result ≡ opens i (arc from to) places.now }
{
    pair(places[from], places[to]) == pair(NEVER, i)
}

// One move of a word at level `i`, if the word is chosen: a state without a distance gets i + 1 where the move leads to one at distance i.
// Whether it did.
fn open_state(i: u16, set: u32, word: u32, from: usize, to: usize, places: &mut [u16]) -> bool
    requires small { i < never }
    requires origin { origin_of word ≤ origin_limit }
    requires inside { (from < length places.old) × (to < length places.old) }
    ensures places_after { places.new ≡ cond (chooses set word) (level i (arc from to ∷ []) places.old) places.old }
    ensures kept { Kept result places.old places.new }
{
    if !is_open(i, from, to, places) {
        return false;
    }
    if !is_chosen(set, word) {
        return false;
    }
    places[from] = i + 1;
    true
}

// The moves of one word at level `i`, if it is chosen; whether one of them gave a state its distance. Few moves are open, so the places are
// looked at first, and the word's origin last. Asked for an "is not", a ↛ link crosses to the other part, `crossed` places on.
fn open_word(i: u16, n: usize, sign: u32, set: u32, word: u32, places: &mut [u16]) -> bool
    requires small { i < never }
    requires ends { EndsFrom n word }
    requires few { n ≤ 1024 }
    requires room { length places.old ≡ n + n }
    ensures places_after { places.new ≡ level i (arcs n (sign_at sign) (chosen set (word ∷ []))) places.old }
    ensures kept { Kept result places.old places.new }
{
    let plain = plain_of(word);
    let tail = tail_of(plain);
    let head = head_of(plain);
    if sign == 0 {
        if places[head] != i {
            return false;
        }
        if !is_open(i, tail, head, places) {
            return false;
        }
        if word % 2 != 0 {
            return false;
        }
        return open_state(i, set, word, tail, head, places);
    }
    let crossed = (word % 2) as usize * n;
    let there = open_state(i, set, word, tail, head + crossed, places);
    let back = open_state(i, set, word, n + head - crossed, n + tail, places);
    there | back
}

// Level `i` over the words that the set chooses; whether it gave a state its distance.
fn run_level(i: u16, n: usize, sign: u32, words: &[u32], set: u32, places: &mut [u16]) -> bool
    requires small { i < never }
    requires net { NetFrom 0 n words.now }
    requires room { length places.old ≡ n + n }
    ensures places_after { places.new ≡ level i (arcs n (sign_at sign) (chosen set words.now)) places.old }
    ensures kept { Kept result places.old places.new }
{
    let mut opened = false;
    for &word in words {
        opened |= open_word(i, n, sign, set, word, places);
    }
    opened
}

// No state has a distance but `end`, which is at distance 0.
fn start_at(end: usize, places: &mut [u16])
    requires { end < length places.old }
    ensures { places.new ≡ set (replicate (length places.old) never) end 0 }
{
    places.fill(NEVER);
    places[end] = 0;
}

// The state in which a path to `y` ends.
fn goal_of(n: usize, sign: u32, y: usize) -> usize
    requires { (n ≤ 1024) × (y < n) }
    ensures { result ≡ goal n (sign_at sign) y }
{
    if sign == 0 {
        return y;
    }
    n + y
}

// The distances of the 2N states to the end of a path to `y`. A level that adds nothing is the last.
pub fn find_distances(n: usize, sign: u32, words: &[u32], set: u32, y: usize, places: &mut [u16])
    requires net { NetFrom 0 n words.now }
    requires node { y < n }
    requires room { length places.old ≡ n + n }
    ensures { places.new ≡ distances n (sign_at sign) (chosen set words.now) y }
{
    let end = goal_of(n, sign, y);
    start_at(end, places);
    for i in 0..places.len() {
        if !run_level(i as u16, n, sign, words, set, places) {
            return;
        }
    }
}
