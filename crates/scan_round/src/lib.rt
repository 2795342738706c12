// One round: a pass over the "is" links for its first three commands, and one over the "is not" links for the last two, left out where it would set nothing.
#![tactic(auto)]

ghost use Rattle.std.specs.Prelude.{◌≡◌, false, not, ℕ, ◌<◌, ◌≤◌, length, get_or};
ghost use Rattle.theory_laws.specs.Deciding.{Decides};
ghost use Rattle.theory.specs.Marks.{U, has, commands, round};
ghost use Rattle.theory.specs.Origins.{chosen, InsideFrom};
ghost use Rattle.theory.specs.Growth.{Set};
ghost use Rattle.scan_block.specs.Signs.{NoIsnt};
ghost use Rattle.scan_lanes.specs.Codes.{on_nodes, is_code, any_new, marks_of, Written};
ghost use Rattle.scan_link.specs.Classes.{Table};
ghost use Rattle.scan_lanes.specs.Passes.{is_commands, isnt_commands};
ghost use Rattle.scan_round.specs.Quiet.{Quiet};

use scan_block::{IS, ISNT, Signs};
use scan_fold::{code_isnt, fold_is, fold_isnt};
use scan_link::Lanes;
use scan_pass::{Pass, run_pass};

// What the rounds of a scan are over: the words, whose ends are below `n`, and the set of origins; what a look at the words' signs has said; and the lanes that each class
// of words may open in a pass over "is" and in one over "is not".
#[derive(Clone, Copy)]
pub struct Plan<'a> {
    pub set: u32,
    pub n: usize,
    pub words: &'a [u32],
    pub signs: Signs,
    pub is_table: [u8; 8],
    pub isnt_table: [u8; 8],
    ghost is_right: { Table set 0 is_table },
    ghost isnt_right: { Table set 1 isnt_table },
    ghost isnts: { signs.isnts ≡ false → NoIsnt (length words.now) words.now },
    ghost inside: { InsideFrom n words.now },
}

// The commands that follow "is". The result has bits 0, 1 and 6 where they put a T, an F, a U.
fn run_is(plan: &Plan, marks: &mut [u8]) -> u8
    requires room { plan.now.n ≤ length marks.old }
    requires written { Written plan.now.n marks.old }
    ensures marks_after { marks.new ≡ on_nodes is_code plan.now.n (round is_commands (chosen plan.now.set plan.now.words.now) (marks_of plan.now.n marks.old)) }
    ensures decides { Decides (not (any_new result)) (Quiet is_commands (chosen plan.now.set plan.now.words.now) (marks_of plan.now.n marks.old)) }
    ensures v_value { has 6 result ≡ false → (v : ℕ) → v < plan.now.n → has U (get_or (round is_commands (chosen plan.now.set plan.now.words.now) (marks_of plan.now.n marks.old)) v 0) ≡ has U (get_or (marks_of plan.now.n marks.old) v 0) }
{
    let pass = Pass {
        lanes: Lanes {
            set: plan.set,
            sign: IS,
            table: plan.is_table,
        },
        n: plan.n,
        words: plan.words,
    };
    run_pass(plan.signs.few_is, &pass, marks);
    fold_is(plan.n, marks)
}

// The commands that follow "is not". The result has bit 1 where they put an F. One function for both signs is no plainer: here the bytes are written anew first, each sign has a
// fold of its own, and what the two results say differs.
fn run_isnt(plan: &Plan, marks: &mut [u8]) -> u8
    requires room { plan.now.n ≤ length marks.old }
    requires written { Written plan.now.n marks.old }
    ensures marks_after { marks.new ≡ on_nodes is_code plan.now.n (round isnt_commands (chosen plan.now.set plan.now.words.now) (marks_of plan.now.n marks.old)) }
    ensures decides { Decides (not (has 1 result)) (Quiet isnt_commands (chosen plan.now.set plan.now.words.now) (marks_of plan.now.n marks.old)) }
{
    let pass = Pass {
        lanes: Lanes {
            set: plan.set,
            sign: ISNT,
            table: plan.isnt_table,
        },
        n: plan.n,
        words: plan.words,
    };
    code_isnt(plan.n, marks);
    run_pass(plan.signs.few_isnt, &pass, marks);
    fold_isnt(plan.n, marks)
}

// One round; whether it set a mark. The commands of "is not" test for U alone, so they are passed over where none has come since they ran, and where no word says "is not".
pub fn round(first: bool, plan: &Plan, marks: &mut [u8]) -> bool
    requires passed { first ≡ false → Quiet isnt_commands (chosen plan.now.set plan.now.words.now) (marks_of plan.now.n marks.old) }
    requires room { plan.now.n ≤ length marks.old }
    requires written { Written plan.now.n marks.old }
    ensures marks_after { marks.new ≡ on_nodes is_code plan.now.n (round commands (chosen plan.now.set plan.now.words.now) (marks_of plan.now.n marks.old)) }
    ensures set { Set result (marks_of plan.now.n marks.old) (round commands (chosen plan.now.set plan.now.words.now) (marks_of plan.now.n marks.old)) }
    ensures quiet { Quiet isnt_commands (chosen plan.now.set plan.now.words.now) (round commands (chosen plan.now.set plan.now.words.now) (marks_of plan.now.n marks.old)) }
{
    let new = run_is(plan, marks);
    let came = new / 64 % 2 == 1;
    let changed = came | (new % 4 != 0);
    if !((first | came) & plan.signs.isnts) {
        return changed;
    }
    let crossed = run_isnt(plan, marks);
    changed | (crossed / 2 % 2 == 1)
}
