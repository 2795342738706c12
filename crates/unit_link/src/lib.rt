// A link command of the marker unit over the links that a set of origins chooses. Where it tests for the marker that it puts, the nodes that it is to mark
// are kept aside and marked afterwards; where it tests for another, they are marked at once.
#![tactic(auto)]

ghost use Rattle.std.specs.Prelude.{◌≡◌, cond, ◌<◌, ◌≤◌, length};
ghost use Rattle.theory.specs.Marks.{mark, command};
ghost use Rattle.theory.specs.Growth.{Set};
ghost use Rattle.theory.specs.Origins.{chosen, EndsFrom, InsideFrom};
ghost use Rattle.theory.proofs.origins.Folds.{picking};
ghost use Rattle.unit_gather.specs.Asks.{InByte};
ghost use Rattle.unit_gather.specs.Aside.{holds, spread};
ghost use Rattle.unit_link.specs.InPlace.{link_here, in_place};

use net_word::plain_of;
use theory::Command;
use unit_gather::{bit_of, far_of, fires_on, gather_nodes, has_bit};

// A marker put at a node; whether it is new there.
pub fn put_mark(put: u8, v: usize, marks: &mut [u8]) -> bool
    requires { (put < 8) × (v < length marks.old) }
    ensures done { marks.new ≡ mark put v marks.old }
    ensures new { Set result marks.old marks.new }
{
    let byte = marks[v];
    if has_bit(byte, put) {
        return false;
    }
    marks[v] = byte | bit_of(put);
    true
}

// A marker at a node that is kept aside; whether it is new there.
fn put_held(put: u8, v: usize, aside: &[u8], marks: &mut [u8]) -> bool
    requires { (put < 8) × (v < 1024) × (length aside.now ≡ 128) × (v < length marks.old) }
    ensures done { marks.new ≡ cond (holds aside.now v) (mark put v marks.old) marks.old }
    ensures new { Set result marks.old marks.new }
{
    let place = v / 8;
    if !has_bit(aside[place], (v % 8) as u8) {
        return false;
    }
    put_mark(put, v, marks)
}

// The marker at all nodes that are kept aside; whether one of them is new.
fn spread_marks(put: u8, n: usize, aside: &[u8], marks: &mut [u8]) -> bool
    requires { (put < 8) × (n ≤ 1024) × (length aside.now ≡ 128) × (n ≤ length marks.old) }
    ensures done { marks.new ≡ spread put aside.now 0 n marks.old }
    ensures new { Set result marks.old marks.new }
{
    let mut changed = false;
    for v in 0..n {
        changed |= put_held(put, v, aside, marks);
    }
    changed
}

// The marker of a command put at the far end of a word, if the word fires; whether it is new there.
fn link_here(set: u32, c: Command, n: usize, word: u32, marks: &mut [u8]) -> bool
    requires markers { InByte c }
    requires ends { EndsFrom n word }
    requires room { n ≤ length marks.old }
    ensures done { marks.new ≡ picking set (link_here c) word marks.old }
    ensures new { Set result marks.old marks.new }
{
    let at_head = c.at_head;
    let put = c.put;
    if !fires_on(set, c, n, word, marks) {
        return false;
    }
    let plain = plain_of(word);
    let far = far_of(at_head, plain);
    put_mark(put, far, marks)
}

// All chosen links in turn, each tested against the marks as they are by then; whether one of them set a mark.
fn run_in_place(set: u32, c: Command, n: usize, words: &[u32], marks: &mut [u8]) -> bool
    requires markers { InByte c }
    requires inside { InsideFrom n words.now }
    requires room { n ≤ length marks.old }
    ensures done { marks.new ≡ in_place c (chosen set words.now) marks.old }
    ensures new { Set result marks.old marks.new }
{
    let mut changed = false;
    for &word in words {
        changed |= link_here(set, Command { ..c }, n, word, marks);
    }
    changed
}

// The command over the chosen links of a net of `n` nodes; whether it set a mark.
pub fn run_link(set: u32, c: Command, n: usize, words: &[u32], marks: &mut [u8]) -> bool
    requires markers { InByte c }
    requires inside { InsideFrom n words.now }
    requires few { n ≤ 1024 }
    requires size { length marks.old ≡ n }
    ensures done { marks.new ≡ command c (chosen set words.now) marks.old }
    ensures new { Set result marks.old marks.new }
{
    let test = c.test;
    let put = c.put;
    if test != put {
        return run_in_place(set, c, n, words, marks);
    }
    let mut aside = [0u8; 128];
    gather_nodes(set, c, n, words, marks, &mut aside);
    spread_marks(put, n, &aside, marks)
}
