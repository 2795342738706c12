// The check of a proof from anybody, over the words that a set of origins chooses.
#![tactic(auto)]

ghost use Rattle.std.specs.Prelude.{◌≡◌, ℕ, ◌+◌, ◌*◌, ◌≤◌, ◌<◌, length, get_or};
ghost use Rattle.theory.specs.Origins.{chosen, NetFrom};
ghost use Rattle.net.specs.Clauses.{call};
ghost use Rattle.proof_form.specs.Checker.{closing, check_proof};
ghost use Rattle.proof_given.specs.Held.{Entered};
ghost use Rattle.proof_check.specs.declared.JudgeError.TheVariants.{Refused};
ghost use Rattle.proof_check.specs.Table.{judged, judged_clauses, judged_done};

use net::{Refusal, check_net, is_bad_statement};
use proof_branch::check_sequent;
use proof_form::{Found, Walked};
use proof_given::branch_fits;
use proof_rule::word_of;

// Why a list is not accepted as a proof of the statement: it is none (number 12), with the first step at fault or the number for none; or a refusal.
#[derive(Clone, Copy)]
pub enum JudgeError {
    Faulty(u32),
    Refused(Refusal),
}

impl From<Refusal> for JudgeError {
    ghost from_gives = { λ refusal e. e ≡ Refused refusal };

    fn from(refusal: Refusal) -> JudgeError {
        JudgeError::Refused(refusal)
    }
}

// Where no one step is at fault. A number and no `Option`: it is the answer itself, `no_step` in the clause.
const NO_STEP: u32 = 4294967295;

// The most numbers in a list, and the most sequents one above another.
const LIST_LIMIT: usize = 4294967295;

const DEPTH_LIMIT: usize = 255;

// The end of the walk over a list that has `branches` branches.
fn close_walk(list: &[u32], branches: usize, base: usize, walked: Walked) -> Found
    requires { (base ≤ length list.now) × (length list.now ≤ 4294967295) }
    ensures { result ≡ closing list.now branches base walked }
{
    match walked {
        Walked::Fault(step) => Found::At(step),
        Walked::Cut => Found::Nowhere,
        Walked::Upto(end, met, fitted) => {
            if !fitted {
                return Found::Nowhere;
            }
            if met != branches {
                return Found::Nowhere;
            }
            // This test bounds `end`, so that the next one does not overflow.
            if (list.len() - base) / 3 != end {
                return Found::Nowhere;
            }
            if base + 3 * end != list.len() {
                return Found::Nowhere;
            }
            if branch_fits(list, base, 0, 0, end) {
                return Found::Right;
            }
            Found::Nowhere
        }
    }
}

// The check of a list as a proof of `goal` from the words, over `n` nodes.
fn check_list(o: usize, n: usize, words: &[u32], set: u32, goal: u32, list: &[u32]) -> Found
    requires entered { Entered words.now }
    requires small { (o ≤ n) × (n ≤ 1024) }
    ensures { result ≡ check_proof o n (chosen set words.now) goal list.now }
{
    if list.len() == 0 {
        return Found::Nowhere;
    }
    if LIST_LIMIT < list.len() {
        return Found::Nowhere;
    }
    let first = list[0];
    let branches = first as usize;
    if branches == 0 {
        return Found::Nowhere;
    }
    let base = 1 + 2 * branches;
    if list.len() < base {
        return Found::Nowhere;
    }
    let mut added = [0u32; 256];
    let walked = check_sequent(
        o,
        n,
        words,
        set,
        list,
        base,
        &mut added,
        0,
        goal,
        0,
        1,
        true,
        DEPTH_LIMIT,
    );
    close_walk(list, branches, base, walked)
}

// Numbers 4 and 12 for a net of `n` nodes.
fn check_statement(
    o: u32,
    k: u32,
    n: usize,
    words: &[u32],
    set: u32,
    x: u32,
    y: u32,
    sign: u32,
    list: &[u32],
) -> Result<(), JudgeError>
    requires { (n ≡ o + k) × NetFrom o k words.now }
    ensures { result ≡ call (judged_clauses o (chosen set words.now) x y sign list.now n) judged_done }
{
    if is_bad_statement(o, n, x, y, sign) {
        return Err(JudgeError::Refused(Refusal::BadQuestion));
    }
    let goal = word_of(x as usize, y as usize, sign);
    let found = check_list(o as usize, n, words, set, goal, list);
    match found {
        Found::Right => Ok(()),
        Found::At(step) => Err(JudgeError::Faulty(step as u32)),
        Found::Nowhere => Err(JudgeError::Faulty(NO_STEP)),
    }
}

// Whether `list` proves x → y (`sign` 0) or x ↛ y (`sign` 1) from the words that the set of origins chooses.
pub fn check_proof(
    o: u32,
    k: u32,
    words: &[u32],
    set: u32,
    x: u32,
    y: u32,
    sign: u32,
    list: &[u32],
) -> Result<(), JudgeError>
    ensures { result ≡ judged o k words.now set x y sign list.now }
{
    let n = check_net(o, k, words, set)?;
    check_statement(o, k, n, words, set, x, y, sign, list)
}
