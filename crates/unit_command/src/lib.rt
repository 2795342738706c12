// One command of the marker unit: how its word is read, and what it does to the marks.
#![tactic(auto)]

ghost use Rattle.std.specs.Prelude.{◌≡◌, map, ◌-◌, ◌≤◌, length};
ghost use Rattle.std.specs.Int.Bits.{bit_and};
ghost use Rattle.theory.specs.Origins.{chosen, InsideFrom};
ghost use Rattle.unit_program.specs.Programs.{clear_of, set_of, link_of, decode};
ghost use Rattle.unit_program.specs.Runs.{does, sets};

use theory::Command;
use unit_link::{put_mark, run_link};
use unit_program::Instruction;

// The words of a loop and of its end.
pub const LOOP: u32 = 50331648;

const END: u32 = 67108864;

// What the rest of a clear's word says.
fn clear_of(rest: u32) -> Instruction
    ensures { result ≡ clear_of rest }
{
    if rest < 1 {
        return Instruction::Unknown;
    }
    if 255 < rest {
        return Instruction::Unknown;
    }
    Instruction::Clear(rest as u8)
}

// What the rest of a set's word says, over `n` nodes.
fn set_of(n: usize, rest: u32) -> Instruction
    ensures { result ≡ set_of n rest }
{
    let marker = rest / 65536;
    let node = (rest % 65536) as usize;
    if 7 < marker {
        return Instruction::Unknown;
    }
    if n <= node {
        return Instruction::Unknown;
    }
    Instruction::Set(marker as u8, node)
}

// What the rest of a link command's word says.
fn link_of(rest: u32) -> Instruction
    ensures { result ≡ link_of rest }
{
    let test = rest / 65536;
    let put = rest / 256 % 256;
    if 7 < test {
        return Instruction::Unknown;
    }
    if 7 < put {
        return Instruction::Unknown;
    }
    if 3 < rest % 256 {
        return Instruction::Unknown;
    }
    Instruction::Link(Command {
        sign: rest % 2,
        at_head: rest / 2 % 2 == 1,
        test: test as u8,
        put: put as u8,
    })
}

// The command that a word stands for, over `n` nodes.
pub fn read_word(n: usize, word: u32) -> Instruction
    ensures { result ≡ decode n word }
{
    let op = word / 16777216;
    let rest = word % 16777216;
    if op == 0 {
        return clear_of(rest);
    }
    if op == 1 {
        return set_of(n, rest);
    }
    if op == 2 {
        return link_of(rest);
    }
    if word == LOOP {
        return Instruction::Loop;
    }
    if word == END {
        return Instruction::End;
    }
    Instruction::Unknown
}

// A set of markers cleared.
fn clear_markers(markers: u8, marks: &mut [u8])
    ensures { marks.new ≡ map (λ b. bit_and b (255 - markers)) marks.old }
{
    let keep = 255 - markers;
    for mark in marks {
        *mark &= keep;
    }
}

// One command; whether it set something new.
pub fn obey(n: usize, words: &[u32], set: u32, word: u32, marks: &mut [u8]) -> bool
    requires inside { InsideFrom n words.now }
    requires few { n ≤ 1024 }
    requires size { length marks.old ≡ n }
    ensures done { marks.new ≡ does (chosen set words.now) (decode n word) marks.old }
    ensures new { result ≡ sets (chosen set words.now) (decode n word) marks.old }
{
    let command = read_word(n, word);
    match command {
        Instruction::Clear(markers) => {
            clear_markers(markers, marks);
            false
        }
        Instruction::Set(marker, node) => put_mark(marker, node, marks),
        Instruction::Link(c) => run_link(set, c, n, words, marks),
        Instruction::Loop => false,
        Instruction::End => false,
        Instruction::Unknown => false,
    }
}
