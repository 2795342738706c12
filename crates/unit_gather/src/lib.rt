// The nodes that a link command of the marker unit is to mark, kept aside in 1,024 bits.
#![tactic(auto)]

ghost use Rattle.std.specs.Prelude.{◌≡◌, ◌^◌, ◌<◌, ◌≤◌, length};
ghost use Rattle.theory.specs.Marks.{has, near, far};
ghost use Rattle.theory.specs.Origins.{chosen, EndsFrom, InsideFrom};
ghost use Rattle.theory.proofs.origins.Folds.{picking};
ghost use Rattle.unit_gather.specs.Asks.{InByte};
ghost use Rattle.unit_gather.specs.Aside.{fires_on, gather_one, gather};

use net_word::{head_of, is_chosen, plain_of, tail_of};
use theory::Command;

// The byte of marker `j` alone.
pub fn bit_of(j: u8) -> u8
    requires { j < 8 }
    ensures { result ≡ 2 ^ j }
{
    1 << j
}

// Whether a byte has bit `j`.
pub fn has_bit(byte: u8, j: u8) -> bool
    requires { j < 8 }
    ensures { result ≡ has j byte }
{
    (byte >> j) % 2 == 1
}

// The end of a link that a command tests: the tail, or where `at_head` holds the head.
fn near_of(at_head: bool, word: u32) -> usize
    ensures { result ≡ near at_head word }
{
    if at_head {
        head_of(word)
    } else {
        tail_of(word)
    }
}

// The other end, where it puts its marker.
pub fn far_of(at_head: bool, word: u32) -> usize
    ensures { result ≡ far at_head word }
{
    near_of(!at_head, word)
}

// Whether the set of origins chooses a word and it fires under a command.
pub fn fires_on(set: u32, c: Command, n: usize, word: u32, marks: &[u8]) -> bool
    requires markers { InByte c }
    requires ends { EndsFrom n word }
    requires room { n ≤ length marks.now }
    ensures { result ≡ fires_on set c marks.now word }
{
    let sign = c.sign;
    let at_head = c.at_head;
    let test = c.test;
    if !is_chosen(set, word) {
        return false;
    }
    let plain = plain_of(word);
    if plain % 2 != sign {
        return false;
    }
    let near = near_of(at_head, plain);
    has_bit(marks[near], test)
}

// The far end of a link kept aside, if it fires.
fn gather_one(set: u32, c: Command, n: usize, word: u32, marks: &[u8], aside: &mut [u8])
    requires markers { InByte c }
    requires ends { EndsFrom n word }
    requires few { n ≤ 1024 }
    requires room { n ≤ length marks.now }
    requires size { length aside.old ≡ 128 }
    ensures { aside.new ≡ picking set (gather_one c marks.now) word aside.old }
{
    let at_head = c.at_head;
    if !fires_on(set, c, n, word, marks) {
        return;
    }
    let plain = plain_of(word);
    let far = far_of(at_head, plain);
    let place = far / 8;
    aside[place] |= bit_of((far % 8) as u8);
}

// The far ends of all chosen links that fire.
pub fn gather_nodes(set: u32, c: Command, n: usize, words: &[u32], marks: &[u8], aside: &mut [u8])
    requires markers { InByte c }
    requires inside { InsideFrom n words.now }
    requires few { n ≤ 1024 }
    requires room { n ≤ length marks.now }
    requires size { length aside.old ≡ 128 }
    ensures { aside.new ≡ gather c marks.now (chosen set words.now) aside.old }
{
    for &word in words {
        gather_one(set, Command { ..c }, n, word, marks, aside);
    }
}
