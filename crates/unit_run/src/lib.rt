// Passes, loops and programs of the marker unit, within a budget of commands.
#![tactic(auto)]

ghost use Rattle.std.specs.Prelude.{◌≡◌, false, map, suc, ◌<◌, ◌≤◌, length, drop};
ghost use Rattle.theory.specs.Origins.{chosen, InsideFrom};
ghost use Rattle.unit_program.specs.Programs.{decode, items};
ghost use Rattle.unit_program.specs.Faults.{Sound};
ghost use Rattle.unit_program.specs.Runs.{stand, pass, passes, onward, run_items};

use unit_command::{LOOP, obey};
use unit_fault::before_end;

// Where a run stands, besides its marks: whether it still runs, the commands left, and whether something new was set. These are the fields of `Stand`
// in unit_program, by which `pass` and `run_items` say what a run does.
#[derive(Clone, Copy)]
pub struct Stood {
    pub runs: bool,
    pub left: u32,
    pub fresh: bool,
}

// A pass over plain commands.
fn run_pass(
    n: usize,
    words: &[u32],
    set: u32,
    program: &[u32],
    budget: u32,
    marks: &mut [u8],
) -> Stood
    requires inside { InsideFrom n words.now }
    requires few { n ≤ 1024 }
    requires size { length marks.old ≡ n }
    ensures { stand result.runs result.left result.fresh marks.new ≡ pass (chosen set words.now) (map (decode n) program.now) budget false marks.old }
{
    let mut left = budget;
    let mut fresh = false;
    for &word in program {
        if left == 0 {
            return Stood {
                runs: false,
                left: 0,
                fresh,
            };
        }
        fresh |= obey(n, words, set, word, marks);
        left -= 1;
    }
    Stood {
        runs: true,
        left,
        fresh,
    }
}

// A loop over plain commands, until a pass sets nothing new.
fn run_loop(
    n: usize,
    words: &[u32],
    set: u32,
    program: &[u32],
    budget: u32,
    marks: &mut [u8],
) -> Stood
    requires inside { InsideFrom n words.now }
    requires few { n ≤ 1024 }
    requires size { length marks.old ≡ n }
    ensures { stand result.runs result.left result.fresh marks.new ≡ passes (chosen set words.now) (map (decode n) program.now) (suc budget) budget marks.old }
{
    let mut left = budget;
    // No `for`: it ends with a pass that sets nothing new, and what a pass costs of the budget is told by the pass.
    loop {
        let stood = run_pass(n, words, set, program, left, marks);
        let runs = stood.runs;
        let fresh = stood.fresh;
        if !runs {
            return stood;
        }
        if !fresh {
            return stood;
        }
        left = stood.left;
    }
}

// The first item of a program without a fault, a plain command or a loop, and how many places it takes.
fn run_item(
    n: usize,
    words: &[u32],
    set: u32,
    program: &[u32],
    budget: u32,
    marks: &mut [u8],
) -> (Stood, usize)
    requires inside { InsideFrom n words.now }
    requires few { n ≤ 1024 }
    requires size { length marks.old ≡ n }
    requires sound { Sound n false program.now }
    requires some { 0 < length program.now }
    ensures item { run_items (chosen set words.now) (items n program.now) budget marks.old ≡ onward (stand result.0.runs result.0.left result.0.fresh marks.new) (λ l m. run_items (chosen set words.now) (items n (drop result.1 program.now)) l m) }
    ensures rest { (0 < result.1) × (result.1 ≤ length program.now) × Sound n false (drop result.1 program.now) }
{
    if program[0] == LOOP {
        let size = before_end(n, &program[1..]);
        let end = size + 1;
        let stood = run_loop(n, words, set, &program[1..end], budget, marks);
        return (stood, end + 1);
    }
    if budget == 0 {
        let stood = Stood {
            runs: false,
            left: 0,
            fresh: false,
        };
        return (stood, 1);
    }
    let fresh = obey(n, words, set, program[0], marks);
    let stood = Stood {
        runs: true,
        left: budget - 1,
        fresh,
    };
    (stood, 1)
}

// A program without a fault, within a budget of commands.
pub fn run_program(
    n: usize,
    words: &[u32],
    set: u32,
    program: &[u32],
    budget: u32,
    marks: &mut [u8],
) -> Stood
    requires inside { InsideFrom n words.now }
    requires few { n ≤ 1024 }
    requires size { length marks.old ≡ n }
    requires sound { Sound n false program.now }
    ensures { stand result.runs result.left result.fresh marks.new ≡ run_items (chosen set words.now) (items n program.now) budget marks.old }
{
    let mut left = budget;
    let mut rest = program;
    // No `for`: an item is a command or a whole loop, and its length is told by its run.
    while !rest.is_empty() {
        let (stood, places) = run_item(n, words, set, rest, left, marks);
        if !stood.runs {
            return stood;
        }
        left = stood.left;
        rest = &rest[places..];
    }
    Stood {
        runs: true,
        left,
        fresh: false,
    }
}
