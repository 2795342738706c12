// Rounds within a budget.
#![tactic(auto)]

ghost use Rattle.std.specs.Prelude.{◌≡◌, false, ◌≤◌, length};
ghost use Rattle.theory.specs.Marks.{commands};
ghost use Rattle.theory.specs.Scans.{rounds};
ghost use Rattle.theory.specs.Origins.{chosen, InsideFrom};
ghost use Rattle.scan_start.specs.Starts.{Low};
ghost use Rattle.scan_lanes.specs.Codes.{marks_of, Written};

use scan_block::{IS, ISNT, signs_of};
use scan_fold::{code_is, plain_marks};
use scan_link::table_of;
use scan_round::{Plan, round};

// Whether the rounds ended within their budget, and how many were run.
#[derive(Drop)]
pub struct Ran {
    pub done: bool,
    pub count: u32,
}

// Rounds until one sets nothing, within `budget` rounds, over marks that are written for the pass over "is".
fn run_written(plan: &Plan, budget: u32, marks: &mut [u8]) -> Ran
    requires room { plan.now.n ≤ length marks.old }
    requires written { Written plan.now.n marks.old }
    ensures { rounds commands (chosen plan.now.set plan.now.words.now) 0 budget (marks_of plan.now.n marks.old) ≡ record { done = result.done; count = result.count; marks = marks_of plan.now.n marks.new } }
{
    for count in 0..budget {
        let changed = round(count == 0, plan, marks);
        if !changed {
            return Ran {
                done: true,
                count: count + 1,
            };
        }
    }
    Ran {
        done: false,
        count: budget,
    }
}

// Rounds until one sets nothing, within `budget` rounds. While they run the marks are written for the passes.
pub fn run_rounds(n: usize, words: &[u32], set: u32, budget: u32, marks: &mut [u8]) -> Ran
    requires inside { InsideFrom n words.now }
    requires few { n ≤ 1024 }
    requires room { n ≤ length marks.old }
    requires low { Low n marks.old }
    ensures marks_value { rounds commands (chosen set words.now) 0 budget marks.old ≡ record { done = result.done; count = result.count; marks = marks.new } }
    ensures low_2 { Low n marks.new }
{
    let plan = Plan {
        set,
        n,
        words,
        signs: signs_of(words),
        is_table: table_of(set, IS),
        isnt_table: table_of(set, ISNT),
    };
    code_is(n, marks);
    let ran = run_written(&plan, budget, marks);
    plain_marks(n, marks);
    ran
}
