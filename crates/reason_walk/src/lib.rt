// The way along the distances, over the words that a set of origins chooses: the smallest next state at each step, one pass over the words for each, and the nodes written.
#![tactic(auto)]

ghost use Rattle.std.specs.Prelude.{◌≡◌, cond, [], ◌∷◌, ◌++◌, map, ◌+◌, ◌<◌, ◌≤◌, length, get_or, drop};
ghost use Rattle.theory.specs.Words.{sign_at};
ghost use Rattle.theory.specs.Reasons.{never};
ghost use Rattle.theory.specs.Searches.{arc, arcs, next, firsts, node_of};
ghost use Rattle.theory.specs.Origins.{origin_of, origin_limit, chooses, chosen, NetFrom, EndsFrom};
ghost use Rattle.reason_walk.specs.Walk.{Leads, states_from, first_part};

use net_word::{head_of, is_chosen, plain_of, tail_of};

// The better of `best` and the state that one move of a word leads to, if the word is chosen and the move comes from `state` and leads to
// distance `i`.
fn better_of(
    set: u32,
    word: u32,
    from: usize,
    to: usize,
    places: &[u16],
    state: usize,
    i: u16,
    best: usize,
) -> usize
    requires origin { origin_of word ≤ origin_limit }
    requires inside { to < length places.now }
    ensures { result ≡ cond (chooses set word) (next (arc from to ∷ []) places.now state i best) best }
{
    if from != state {
        return best;
    }
    if places[to] != i {
        return best;
    }
    if !is_chosen(set, word) {
        return best;
    }
    if to < best { to } else { best }
}

// The same over the moves of one word. Few words have a move from `state`, so the word's origin is looked at last. Asked for an "is not", a ↛
// link crosses to the other part, `crossed` places on.
fn best_of_word(
    n: usize,
    sign: u32,
    set: u32,
    word: u32,
    places: &[u16],
    state: usize,
    i: u16,
    best: usize,
) -> usize
    requires ends { EndsFrom n word }
    requires few { n ≤ 1024 }
    requires room { length places.now ≡ n + n }
    ensures { result ≡ next (arcs n (sign_at sign) (chosen set (word ∷ []))) places.now state i best }
{
    let plain = plain_of(word);
    let tail = tail_of(plain);
    let head = head_of(plain);
    if sign == 0 {
        if tail != state {
            return best;
        }
        if word % 2 != 0 {
            return best;
        }
        return better_of(set, word, tail, head, places, state, i, best);
    }
    let crossed = (word % 2) as usize * n;
    let there = better_of(set, word, tail, head + crossed, places, state, i, best);
    let from = n + head - crossed;
    better_of(set, word, from, n + tail, places, state, i, there)
}

// The smallest state at distance `i` that a move of a chosen word leads to from `state`, or 2N where there is none. An `Option` is no plainer:
// 2N is above every state, so the first word is compared as all others are.
fn next_state(
    n: usize,
    sign: u32,
    words: &[u32],
    set: u32,
    places: &[u16],
    state: usize,
    i: u16,
) -> usize
    requires net { NetFrom 0 n words.now }
    requires room { length places.now ≡ n + n }
    ensures { result ≡ next (arcs n (sign_at sign) (chosen set words.now)) places.now state i (n + n) }
{
    let mut best = n + n;
    for &word in words {
        best = best_of_word(n, sign, set, word, places, state, i, best);
    }
    best
}

// The node that a state stands for.
fn node_of(n: usize, state: usize) -> u16
    requires { (n ≤ 1024) × (state < n + n) }
    ensures { result ≡ node_of n state }
{
    if state < n {
        return state as u16;
    }
    (state - n) as u16
}

// 1 for a state of the first part, 0 for one of the second: what it adds to their count.
fn first_part(n: usize, state: usize) -> usize
    ensures { result ≡ first_part n state }
{
    usize::from(state < n)
}

// The nodes after `x` on the way that the places lead, into the front of the list; how many of them stand in the first part.
pub fn write_nodes(
    n: usize,
    sign: u32,
    words: &[u32],
    set: u32,
    places: &[u16],
    x: usize,
    list: &mut [u16],
) -> usize
    requires net { NetFrom 0 n words.now }
    requires room { length places.now ≡ n + n }
    requires leads { Leads n (sign_at sign) (chosen set words.now) places.now }
    requires start { (x < n + n) × (get_or places.now x never < never) }
    requires list { get_or places.now x never ≤ length list.old }
    ensures value { result ≡ firsts n (states_from n (sign_at sign) (chosen set words.now) x places.now) }
    ensures list_after { list.new ≡ map (node_of n) (states_from n (sign_at sign) (chosen set words.now) x places.now) ++ drop (get_or places.now x never) list.old }
{
    let far = places[x];
    let mut state = x;
    let mut count = 0;
    for at in 0..far {
        state = next_state(n, sign, words, set, places, state, far - (at + 1));
        count += first_part(n, state);
        list[at as usize] = node_of(n, state);
    }
    count
}
