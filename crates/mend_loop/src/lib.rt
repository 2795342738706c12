// One word tried beside those kept so far, and all words in listed order.
#![tactic(auto)]

ghost use Rattle.std.specs.Prelude.{◌≡◌, cond, [], ◌∷◌, ◌++◌, ◌+◌, ◌*◌, ◌<◌, ◌≤◌, length, take, drop, set};
ghost use Rattle.std.specs.Option.{MatchOption, is_some};
ghost use Rattle.theory_laws.specs.Over.{over};
ghost use Rattle.theory.specs.Inside.{Ends, Inside};
ghost use Rattle.theory.specs.Mending.{clashing_node, clashing_kind, threes, kept_from, dropped_from};

use mend_trial::{clashing_kind, clashing_node};

// The clash that a word makes: its node and its kind.
#[derive(Drop)]
struct Clash {
    node: usize,
    kind: usize,
}

// How many words are kept, and how many dropped.
#[derive(Drop)]
pub struct Counts {
    pub kept: usize,
    pub dropped: usize,
}

// Tries `word` beside the `count` words in front of `kept`: the clash that it makes, or it stands behind them afterwards.
fn try_word(
    o: usize,
    k: usize,
    n: usize,
    word: u32,
    count: usize,
    kept: &mut [u32],
    marks: &mut [u8],
) -> Option<Clash>
    requires size { n ≡ o + k }
    requires few { n ≤ 1024 }
    requires place { count < length kept.old }
    requires inside { Inside n (take count kept.old) }
    requires ends { Ends n word }
    requires room { n ≤ length marks.old }
    ensures clash { MatchOption result (n ≤ clashing_node n (take count kept.old ++ word ∷ []) word) (λ c. (c.node ≡ clashing_node n (take count kept.old ++ word ∷ []) word) × (c.node < n) × (c.kind ≡ clashing_kind o k (take count kept.old ++ word ∷ []) c.node)) }
    ensures left { kept.new ≡ cond (is_some result) kept.old (set kept.old count word) }
    ensures past { drop n marks.new ≡ drop n marks.old }
{
    let old = kept[count];
    kept[count] = word;
    let node = clashing_node(n, &kept[..count + 1], word, marks);
    if n <= node {
        return None;
    }
    let kind = clashing_kind(o, k, n, &kept[..count + 1], node, marks);
    kept[count] = old;
    Some(Clash { node, kind })
}

// The three numbers of a dropped word, at place `at`.
fn put_drop(word: u32, node: u32, kind: u32, at: usize, dropped: &mut [u32])
    requires { at + 3 ≤ length dropped.old }
    ensures { dropped.new ≡ take at dropped.old ++ word ∷ node ∷ kind ∷ drop (at + 3) dropped.old }
{
    dropped[at] = word;
    dropped[at + 1] = node;
    dropped[at + 2] = kind;
}

// All words in turn; how many were kept and how many dropped.
pub fn mend_all(
    o: usize,
    k: usize,
    n: usize,
    words: &[u32],
    kept: &mut [u32],
    dropped: &mut [u32],
    marks: &mut [u8],
) -> Counts
    requires size { n ≡ o + k }
    requires few { n ≤ 1024 }
    requires inside { Inside n words.now }
    requires places { length words.now ≤ length kept.old }
    requires entries { 3 * length words.now ≤ length dropped.old }
    requires room { n ≤ length marks.old }
    ensures kept { kept.new ≡ over (kept_from o k [] words.now) kept.old }
    ensures dropped { dropped.new ≡ over (threes (dropped_from o k [] words.now)) dropped.old }
    ensures counts { (result.kept ≡ length (kept_from o k [] words.now)) × (result.dropped ≡ length (dropped_from o k [] words.now)) }
    ensures past { drop n marks.new ≡ drop n marks.old }
{
    let mut count = 0;
    let mut lost = 0;
    for &word in words {
        match try_word(o, k, n, word, count, kept, marks) {
            Some(clash) => {
                put_drop(
                    word,
                    clash.node as u32,
                    clash.kind as u32,
                    3 * lost,
                    dropped,
                );
                lost += 1;
            }
            None => count += 1,
        }
    }
    Counts {
        kept: count,
        dropped: lost,
    }
}
