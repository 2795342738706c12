// A pass over the links of one sign that a set of origins chooses: the loops that every scan runs.
#![tactic(auto)]

ghost use Rattle.std.specs.Prelude.{◌≡◌, ◌+◌, ◌-◌, ◌%◌, ◌≤◌, length, drop};
ghost use Rattle.theory.specs.Origins.{chosen, InsideFrom};
ghost use Rattle.scan_lanes.specs.Lanes.{lane_pass};
ghost use Rattle.scan_pass.specs.Idle.{Idle};

use scan_block::{BLOCK, has_sign};
use scan_link::{Lanes, follow, is_closed, lanes_of};

// How many words sooner a search ends for each word that was found in vain.
const IN_VAIN: usize = 64;

// A pass over the links of a sign among `words`, whose ends are below `n`, with the lanes that they may open in it.
#[derive(Clone, Copy)]
pub struct Pass<'a> {
    pub lanes: Lanes,
    pub n: usize,
    pub words: &'a [u32],
    ghost inside: { InsideFrom n words.now },
}

// All chosen links from `from` on in turn.
fn follow_rest(pass: &Pass, from: usize, marks: &mut [u8])
    requires rest { from ≤ length pass.now.words.now }
    requires room { pass.now.n ≤ length marks.old }
    ensures { marks.new ≡ lane_pass pass.now.lanes.sign (chosen pass.now.lanes.set (drop from pass.now.words.now)) marks.old }
{
    for &word in &pass.words[from..] {
        follow(&pass.lanes, pass.n, word, marks);
    }
}

// The blocks from `from` up to `to` in turn.
fn follow_blocks(pass: &Pass, from: usize, to: usize, marks: &mut [u8])
    requires blocks { (from ≤ to) × ((to - from) % 8 ≡ 0) × (to ≤ length pass.now.words.now) }
    requires room { pass.now.n ≤ length marks.old }
    ensures { lane_pass pass.now.lanes.sign (chosen pass.now.lanes.set (drop from pass.now.words.now)) marks.old ≡ lane_pass pass.now.lanes.sign (chosen pass.now.lanes.set (drop to pass.now.words.now)) marks.new }
{
    let (blocks, _) = pass.words[from..to].as_chunks::<BLOCK>();
    for block in blocks {
        for &word in block {
            follow(&pass.lanes, pass.n, word, marks);
        }
    }
}

// How many words of a block, from its first one on, are closed.
fn closed_words(pass: &Pass, from: usize, marks: &[u8]) -> usize
    requires block { from + 8 ≤ length pass.now.words.now }
    requires room { pass.now.n ≤ length marks.now }
    ensures idle { Idle pass.now.words.now marks.now from (from + result) }
    ensures upper_bound { result ≤ 8 }
{
    for (k, &word) in pass.words[from..from + BLOCK].iter().enumerate() {
        if !is_closed(pass.n, word, marks) {
            return k;
        }
    }
    BLOCK
}

// The first word from `from` on that is not closed, or where the blocks end that begin before `end`.
fn seek(pass: &Pass, from: usize, end: usize, marks: &[u8]) -> usize
    requires blocks { (from ≤ length pass.now.words.now) × (end ≤ length pass.now.words.now - 7) }
    requires room { pass.now.n ≤ length marks.now }
    ensures idle { Idle pass.now.words.now marks.now from result }
    ensures lower_bound { (from ≤ result) × (result ≤ length pass.now.words.now) }
{
    let mut i = from;
    // No `for`: a step is as long as the words that are closed.
    while i < end {
        let closed = closed_words(pass, i, marks);
        i += closed;
        if closed < BLOCK {
            return i;
        }
    }
    i
}

// Where a search ends after a word was found that may open these lanes: sooner where it may open none. This only says which way is shorter.
fn end_after(end: usize, lanes: u8) -> usize
    ensures { result ≤ end }
{
    if lanes != 0 {
        return end;
    }
    end.saturating_sub(IN_VAIN)
}

// The words along which a lane is open, sought out and followed in turn: the others are passed over before their class is looked at. A word whose class may open no lane was
// found in vain, and the search ends sooner for it: so few are. The result is where the search has ended: every word before it was followed or does nothing.
fn follow_open(pass: &Pass, marks: &mut [u8]) -> usize
    requires room { pass.now.n ≤ length marks.old }
    ensures marks_value { lane_pass pass.now.lanes.sign (chosen pass.now.lanes.set pass.now.words.now) marks.old ≡ lane_pass pass.now.lanes.sign (chosen pass.now.lanes.set (drop result pass.now.words.now)) marks.new }
    ensures upper_bound { result ≤ length pass.now.words.now }
{
    let mut end = pass.words.len().saturating_sub(BLOCK - 1);
    let mut i = 0;
    // No `for`: the search jumps, and `end` moves.
    while i < end {
        i = seek(pass, i, end, marks);
        if i < end {
            let word = pass.words[i];
            follow(&pass.lanes, pass.n, word, marks);
            end = end_after(end, lanes_of(&pass.lanes, word));
            i += 1;
        }
    }
    i
}

// The pass: a search for the words to follow; then, from where it has ended, the words of whole blocks, and the rest one by one.
fn follow_all(pass: &Pass, marks: &mut [u8])
    requires room { pass.now.n ≤ length marks.old }
    ensures { marks.new ≡ lane_pass pass.now.lanes.sign (chosen pass.now.lanes.set pass.now.words.now) marks.old }
{
    let from = follow_open(pass, marks);
    let whole = from + (pass.words.len() - from) / BLOCK * BLOCK;
    follow_blocks(pass, from, whole, marks);
    follow_rest(pass, whole, marks);
}

// The pass, blocks in which no word has its sign passed over.
fn follow_some(pass: &Pass, marks: &mut [u8])
    requires room { pass.now.n ≤ length marks.old }
    ensures { marks.new ≡ lane_pass pass.now.lanes.sign (chosen pass.now.lanes.set pass.now.words.now) marks.old }
{
    let blocks = pass.words.len() / BLOCK;
    for block in 0..blocks {
        let from = block * BLOCK;
        if has_sign(pass.lanes.sign, pass.words, from) {
            follow_blocks(pass, from, from + BLOCK, marks);
        }
    }
    follow_rest(pass, blocks * BLOCK, marks);
}

// The pass. Where few words have its sign, as `few` says, it pays to look at a block before its words are followed.
pub fn run_pass(few: bool, pass: &Pass, marks: &mut [u8])
    requires room { pass.now.n ≤ length marks.old }
    ensures { marks.new ≡ lane_pass pass.now.lanes.sign (chosen pass.now.lanes.set pass.now.words.now) marks.old }
{
    if few {
        follow_some(pass, marks);
    } else {
        follow_all(pass, marks);
    }
}
