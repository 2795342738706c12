// A sequent and its premises are checked by turns.
#![tactic(auto)]

ghost use Rattle.std.specs.Prelude.{◌≡◌, ℕ, ◌+◌, ◌*◌, ◌≤◌, ◌<◌, length};
ghost use Rattle.proof_form.specs.Checker.{sequent, premises};
ghost use Rattle.theory.specs.Origins.{chosen};
ghost use Rattle.proof_given.specs.Held.{held, Entered};

use proof_form::{Asks, Walked};
use proof_given::branch_fits;
use proof_rule::ask;

// The proof of `goal` that begins with step `step`, where at most `depth` sequents may stand one above another.
#[cycle(check_premises_check_sequent)]
pub fn check_sequent(
    o: usize,
    n: usize,
    words: &[u32],
    set: u32,
    list: &[u32],
    base: usize,
    added: &mut [u32; 256],
    count: usize,
    goal: u32,
    step: usize,
    branch: usize,
    fitted: bool,
    depth: usize,
) -> Walked
    requires entered { Entered words.now }
    requires room { (o ≤ n) × (n ≤ 1024) × (base ≤ length list.now) × (count + depth ≤ 255) × (branch ≤ step + 1) × (length added.old ≡ 256) }
    ensures { (result ≡ sequent o n (chosen set words.now) list.now base depth (held added.old count) goal step branch fitted) × (held added.new count ≡ held added.old count) × (length added.new ≡ 256) }
{
    if (list.len() - base) / 3 <= step {
        return Walked::Cut;
    }
    if depth == 0 {
        return Walked::Fault(step);
    }
    let at = base + 3 * step;
    let asks = ask(
        o,
        n,
        words,
        set,
        added,
        count,
        goal,
        list[at],
        list[at + 1],
        list[at + 2],
    );
    check_premises(
        o,
        n,
        words,
        set,
        list,
        base,
        added,
        count,
        goal,
        step,
        branch,
        fitted,
        depth - 1,
        asks,
    )
}

// The premises of step `step`, which asks for them.
#[cycle(check_premises_check_sequent)]
pub fn check_premises(
    o: usize,
    n: usize,
    words: &[u32],
    set: u32,
    list: &[u32],
    base: usize,
    added: &mut [u32; 256],
    count: usize,
    goal: u32,
    step: usize,
    branch: usize,
    fitted: bool,
    depth: usize,
    asks: Asks,
) -> Walked
    requires entered { Entered words.now }
    requires room { (o ≤ n) × (n ≤ 1024) × (base + 3 * (step + 1) ≤ length list.now) × (count + depth ≤ 254) × (branch ≤ step + 1) × (length added.old ≡ 256) }
    ensures { (result ≡ premises list.now base (sequent o n (chosen set words.now) list.now base depth) (held added.old count) goal step branch fitted asks) × (held added.new count ≡ held added.old count) × (length added.new ≡ 256) }
{
    let next = step + 1;
    match asks {
        Asks::Broken => Walked::Fault(step),
        Asks::Nothing => Walked::Upto(next, branch, fitted),
        Asks::One(word, above) => {
            added[count] = word;
            check_sequent(
                o,
                n,
                words,
                set,
                list,
                base,
                added,
                count + 1,
                above,
                next,
                branch,
                fitted,
                depth,
            )
        }
        Asks::Two(above, word) => {
            let first = check_sequent(
                o,
                n,
                words,
                set,
                list,
                base,
                added,
                count,
                above,
                next,
                branch + 1,
                fitted,
                depth,
            );
            let Walked::Upto(end, other, fit) = first else {
                return first;
            };
            let all = fit & branch_fits(list, base, branch, next, end);
            added[count] = word;
            check_sequent(
                o,
                n,
                words,
                set,
                list,
                base,
                added,
                count + 1,
                goal,
                end,
                other,
                all,
                depth,
            )
        }
    }
}
