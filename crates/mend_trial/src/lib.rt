// The trial of one word more: the node at which it makes a clash, and the kind there.
#![tactic(auto)]

ghost use Rattle.std.specs.Prelude.{◌≡◌, ◌&&◌, cond, ◌++◌, ◌+◌, ◌-◌, ◌<◌, ◌≤◌, length, drop};
ghost use Rattle.theory.specs.Marks.{T, F, U, has};
ghost use Rattle.theory.specs.Inside.{Ends, Inside};
ghost use Rattle.scan_start.specs.Starts.{Low};
ghost use Rattle.theory.specs.Mending.{link_start, settled_marks, first_with, clashing_node, clashing_kind};

use net_word::{PLAIN_SET, head_of, tail_of};
use scan_rounds::run_rounds;
use scan_start::{clear, put_start};

// Whether a byte has F, and beside it U (`kinds`) or T.
fn has_both(kinds: bool, byte: u8) -> bool
    ensures { result ≡ (has (cond kinds U T) byte && has F byte) }
{
    if byte / 2 % 2 == 0 {
        return false;
    }
    if kinds {
        byte / 4 % 2 == 1
    } else {
        byte % 2 == 1
    }
}

// The first node below `n`, from `from` on, with both markers, or `n`.
fn first_with(kinds: bool, from: usize, n: usize, marks: &[u8]) -> usize
    requires { (from ≤ n) × (n ≤ length marks.now) }
    ensures { result ≡ first_with (cond kinds U T) F marks.now from (n - from) }
{
    for v in from..n {
        if has_both(kinds, marks[v]) {
            return v;
        }
    }
    n
}

// The marks to begin with for one word more, `word`.
fn put_link(n: usize, word: u32, marks: &mut [u8])
    requires { Ends n word × (n ≤ length marks.old) }
    ensures { marks.new ≡ link_start n word ++ drop n marks.old }
{
    clear(n, marks);
    let tail = tail_of(word);
    let head = head_of(word);
    marks[tail] = 1;
    let byte = marks[head];
    if word % 2 == 0 {
        marks[head] = byte | 4;
    } else {
        marks[head] = byte | 2;
    }
}

// The five commands until a round sets nothing.
fn settle(n: usize, words: &[u32], marks: &mut [u8])
    requires inside { Inside n words.now }
    requires few { n ≤ 1024 }
    requires room { n ≤ length marks.old }
    requires low { Low n marks.old }
    ensures { marks.new ≡ settled_marks n words.now marks.old }
{
    run_rounds(n, words, PLAIN_SET, (3 * n + 1) as u32, marks);
}

// The smallest node that clashes in `words`, which had no clash without `word`; `n` where none does.
// None is the number `n` here and in the search for a kind: the clauses `found` name the definitions of both, whose values are numbers.
pub fn clashing_node(n: usize, words: &[u32], word: u32, marks: &mut [u8]) -> usize
    requires inside { Inside n words.now }
    requires ends { Ends n word }
    requires few { n ≤ 1024 }
    requires room { n ≤ length marks.old }
    ensures found { result ≡ clashing_node n words.now word }
    ensures past { drop n marks.new ≡ drop n marks.old }
{
    put_link(n, word, marks);
    settle(n, words, marks);
    first_with(false, 0, n, marks)
}

// The smallest kind at which the node `x` clashes in `words`; `n` where there is none.
pub fn clashing_kind(
    o: usize,
    k: usize,
    n: usize,
    words: &[u32],
    x: usize,
    marks: &mut [u8],
) -> usize
    requires inside { Inside n words.now }
    requires size { n ≡ o + k }
    requires node { x < n }
    requires few { n ≤ 1024 }
    requires room { n ≤ length marks.old }
    ensures found { result ≡ clashing_kind o k words.now x }
    ensures past { drop n marks.new ≡ drop n marks.old }
{
    put_start(n, x, marks);
    settle(n, words, marks);
    first_with(true, o, n, marks)
}
