// The marker unit ([13]): a program of commands run on the marks of a net, within a budget of commands; and the program that is written for the merged scan.
#![tactic(auto)]

ghost use Rattle.std.specs.Prelude.{◌≡◌, ◌≤◌};
ghost use Rattle.theory.specs.Origins.{chosen, InsideFrom};
ghost use Rattle.net.specs.Clauses.{call};
ghost use Rattle.unit_program.specs.Merged.{merged};
ghost use Rattle.unit.specs.declared.UnitError.TheVariants.{Refused};
ghost use Rattle.unit.specs.Table.{told_place, unit_outcome, unit_clauses, unit_done, simulated};

use net::{Refusal, check_net};
use unit_fault::first_fault;
use unit_run::run_program;

// Why a run of the unit has no result: its budget of commands, which is told, was spent before the program ended (number 6); the command at the place
// that is told is the first at fault (number 16); or a refusal.
#[derive(Clone, Copy)]
pub enum UnitError {
    Spent(u32),
    Faulty(u32),
    Refused(Refusal),
}

impl From<Refusal> for UnitError {
    ghost from_gives = { λ refusal e. e ≡ Refused refusal };

    fn from(refusal: Refusal) -> UnitError {
        UnitError::Refused(refusal)
    }
}

// A place as a reply tells it: the largest number that it can hold for any larger place.
fn told_place(place: usize) -> u32
    ensures { result ≡ told_place place }
{
    u32::try_from(place).unwrap_or(u32::MAX)
}

// Numbers 5, 16, 6 and 0, on a net of `n` nodes that was checked.
fn run_net(
    n: usize,
    words: &[u32],
    set: u32,
    program: &[u32],
    budget: u32,
    marks: &mut [u8],
) -> Result<u32, UnitError>
    requires inside { InsideFrom n words.now }
    requires few { n ≤ 1024 }
    ensures { unit_outcome result marks.new ≡ call (unit_clauses (chosen set words.now) program.now budget marks.old n) (unit_done (chosen set words.now) program.now budget marks.old n) }
{
    if marks.len() < n {
        return Err(UnitError::Refused(Refusal::ShortBuffer));
    }
    let place = first_fault(n, program);
    if place < program.len() {
        return Err(UnitError::Faulty(told_place(place)));
    }
    let stood = run_program(n, words, set, program, budget, &mut marks[..n]);
    let count = budget - stood.left;
    if stood.runs {
        Ok(count)
    } else {
        Err(UnitError::Spent(count))
    }
}

// A program of the marker unit, run on the links that a set of origins chooses within `budget` commands: how many were run.
pub fn run_unit(
    o: u32,
    k: u32,
    words: &[u32],
    set: u32,
    program: &[u32],
    budget: u32,
    marks: &mut [u8],
) -> Result<u32, UnitError>
    ensures { unit_outcome result marks.new ≡ simulated o k words.now set program.now budget marks.old }
{
    let n = check_net(o, k, words, set)?;
    run_net(n, words, set, program, budget, marks)
}

// The program that is written for the merged scan from `node`: it is found at fault where `node` is none.
pub fn merged_program(node: u16) -> [u32; 10]
    ensures { result ≡ merged node }
{
    [
        255,
        16777216 + node as u32,
        16908288 + node as u32,
        50331648,
        33554434,
        33686016,
        33620226,
        33685761,
        33685763,
        67108864,
    ]
}
