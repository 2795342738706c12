// The scan from a node within its budget: rounds until one sets nothing.
#![tactic(auto)]

ghost use Rattle.std.specs.Prelude.{◌≡◌, ◌≤◌};
ghost use Rattle.theory.specs.Origins.{chosen, InsideFrom};
ghost use Rattle.scan.specs.Table.{scan_outcome, scan_clauses, scan_done, scanned};
ghost use Rattle.scan.specs.declared.ScanError.TheVariants.{Refused};
ghost use Rattle.net.specs.Clauses.{call};

use net::{Refusal, check_net};
use scan_rounds::run_rounds;
use scan_start::put_start;

// Why a scan has no result: its budget of rounds, which is told, was spent before it ended (number 6), or a refusal.
#[derive(Clone, Copy)]
pub enum ScanError {
    Spent(u32),
    Refused(Refusal),
}

impl From<Refusal> for ScanError {
    ghost from_gives = { λ refusal e. e ≡ Refused refusal };

    fn from(refusal: Refusal) -> ScanError {
        ScanError::Refused(refusal)
    }
}

// Numbers 4, 5, 6 and 0, on a net of `n` nodes that was checked.
pub fn scan_net(
    n: usize,
    words: &[u32],
    set: u32,
    x: u32,
    budget: u32,
    marks: &mut [u8],
) -> Result<u32, ScanError>
    requires inside { InsideFrom n words.now }
    requires few { n ≤ 1024 }
    ensures { scan_outcome result marks.new ≡ call (scan_clauses (chosen set words.now) x budget marks.old n) (scan_done (chosen set words.now) x budget marks.old n) }
{
    let at = x as usize;
    if n <= at {
        return Err(ScanError::Refused(Refusal::BadQuestion));
    }
    if marks.len() < n {
        return Err(ScanError::Refused(Refusal::ShortBuffer));
    }
    put_start(n, at, marks);
    let ran = run_rounds(n, words, set, budget, marks);
    if ran.done {
        Ok(ran.count)
    } else {
        Err(ScanError::Spent(ran.count))
    }
}

// The scan from the node `start`, object or kind, within `budget` rounds.
pub fn scan(
    o: u32,
    k: u32,
    words: &[u32],
    set: u32,
    start: u32,
    budget: u32,
    marks: &mut [u8],
) -> Result<u32, ScanError>
    ensures { scan_outcome result marks.new ≡ scanned o k words.now set start budget marks.old }
{
    let n = check_net(o, k, words, set)?;
    scan_net(n, words, set, start, budget, marks)
}
