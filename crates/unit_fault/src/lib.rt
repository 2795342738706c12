// Which command of a program of the marker unit is at fault.
#![tactic(auto)]

ghost use Rattle.std.specs.Prelude.{◌≡◌};
ghost use Rattle.unit_program.specs.Programs.{decode};
ghost use Rattle.unit_program.specs.Faults.{is_end, before_end, ends, faulty, within, first_fault};

use unit_command::read_word;
use unit_program::Instruction;

// Whether a word is an end.
fn is_end(n: usize, word: u32) -> bool
    ensures { result ≡ is_end (decode n word) }
{
    matches!(read_word(n, word), Instruction::End)
}

// How many commands stand before the first end. A number and no `Option`, since the clause names `before_end`.
pub fn before_end(n: usize, program: &[u32]) -> usize
    ensures { result ≡ before_end n program.now }
{
    program
        .iter()
        .position(|&word| is_end(n, word))
        .unwrap_or(program.len())
}

// Whether a command is at fault, by whether it stands inside a loop and by what comes after it.
fn is_faulty(n: usize, inside: bool, word: u32, rest: &[u32]) -> bool
    ensures { result ≡ faulty inside (ends n rest.now) (decode n word) }
{
    let command = read_word(n, word);
    match command {
        Instruction::Clear(_) => false,
        Instruction::Set(_, _) => false,
        Instruction::Link(_) => false,
        Instruction::Loop => inside | (rest.len() <= before_end(n, rest)),
        Instruction::End => !inside,
        Instruction::Unknown => true,
    }
}

// Whether what comes after a command stands inside a loop.
fn stays_within(n: usize, inside: bool, word: u32) -> bool
    ensures { result ≡ within inside (decode n word) }
{
    let command = read_word(n, word);
    match command {
        Instruction::Clear(_) => inside,
        Instruction::Set(_, _) => inside,
        Instruction::Link(_) => inside,
        Instruction::Loop => true,
        Instruction::End => false,
        Instruction::Unknown => inside,
    }
}

// The place of the first command at fault; the length of the program where there is none. A number and no `Option`, since the clause names `first_fault`.
pub fn first_fault(n: usize, program: &[u32]) -> usize
    ensures { result ≡ first_fault n program.now }
{
    let mut inside = false;
    for (i, &word) in program.iter().enumerate() {
        if is_faulty(n, inside, word, &program[i + 1..]) {
            return i;
        }
        inside = stays_within(n, inside, word);
    }
    program.len()
}
