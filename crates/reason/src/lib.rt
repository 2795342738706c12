// The shortest reason for a statement, over the words that a set of origins chooses: distances level by level from its end, then the smallest next state at each step.
#![tactic(auto)]

ghost use Rattle.std.specs.Prelude.{◌≡◌, List, ◌∷◌, ℕ, ◌+◌, ◌<◌, ◌≤◌, length, drop};
ghost use Rattle.theory.specs.Words.{sign_at};
ghost use Rattle.theory.specs.Origins.{chosen, NetFrom};
ghost use Rattle.reason_walk.specs.Walk.{Leads};
ghost use Rattle.reason.specs.Table.{reason_outcome, reason_clauses, reason_done, reasoned};
ghost use Rattle.reason.specs.declared.ReasonError.TheVariants.{Refused};
ghost use Rattle.reason.specs.Searched.{reason_from};
ghost use Rattle.net.specs.Clauses.{call};

use net::{Refusal, check_net, is_bad_statement};
use reason_search::{NEVER, find_distances};
use reason_walk::write_nodes;

// Why there is no reason: the statement is not supported (number 7), the list is too short for the places needed, which are told (number 8), or a
// refusal.
#[derive(Clone, Copy)]
pub enum ReasonError {
    Unsupported,
    Short(u32),
    Refused(Refusal),
}

impl From<Refusal> for ReasonError {
    ghost from_gives = { λ refusal e. e ≡ Refused refusal };

    fn from(refusal: Refusal) -> ReasonError {
        ReasonError::Refused(refusal)
    }
}

// The sizes of the two parts and the start, which stand in front of the other nodes.
fn write_head(first: u16, second: u16, x: u16, list: &mut [u16])
    requires { 3 ≤ length list.old }
    ensures { list.new ≡ first ∷ second ∷ x ∷ drop 3 list.old }
{
    list[0] = first;
    list[1] = second;
    list[2] = x;
}

// Numbers 7, 8 and 0 once the distances are known.
fn write_reason(
    n: usize,
    sign: u32,
    words: &[u32],
    set: u32,
    places: &[u16],
    x: usize,
    list: &mut [u16],
) -> Result<u32, ReasonError>
    requires net { NetFrom 0 n words.now }
    requires room { length places.now ≡ n + n }
    requires leads { Leads n (sign_at sign) (chosen set words.now) places.now }
    requires start { x < n }
    ensures { (past : List ℕ) → reason_outcome result past list.new ≡ reason_from n (sign_at sign) (chosen set words.now) x places.now past list.old }
{
    let far = places[x];
    if far == NEVER {
        return Err(ReasonError::Unsupported);
    }
    let links = far as usize;
    let size = 3 + far as u32;
    if list.len() < size as usize {
        return Err(ReasonError::Short(size));
    }
    let count = write_nodes(n, sign, words, set, places, x, &mut list[3..]);
    write_head((1 + count) as u16, (links - count) as u16, x as u16, list);
    Ok(size)
}

// Numbers 4 and 5, then the distances and the reason, for a net of `n` nodes.
fn reason_net(
    o: u32,
    n: usize,
    words: &[u32],
    set: u32,
    x: u32,
    y: u32,
    sign: u32,
    scratch: &mut [u16],
    list: &mut [u16],
) -> Result<u32, ReasonError>
    requires { NetFrom 0 n words.now }
    ensures { reason_outcome result scratch.new list.new ≡ call (reason_clauses o (chosen set words.now) x y sign scratch.old list.old n) (reason_done (chosen set words.now) x y sign scratch.old list.old n) }
{
    if is_bad_statement(o, n, x, y, sign) {
        return Err(ReasonError::Refused(Refusal::BadQuestion));
    }
    let size = n + n;
    if scratch.len() < size {
        return Err(ReasonError::Refused(Refusal::ShortBuffer));
    }
    find_distances(n, sign, words, set, y as usize, &mut scratch[..size]);
    write_reason(n, sign, words, set, &scratch[..size], x as usize, list)
}

// The shortest reason for x → y (`sign` 0) or x ↛ y (`sign` 1) by the words that the set of origins chooses.
pub fn find_reason(
    o: u32,
    k: u32,
    words: &[u32],
    set: u32,
    x: u32,
    y: u32,
    sign: u32,
    scratch: &mut [u16],
    list: &mut [u16],
) -> Result<u32, ReasonError>
    ensures { reason_outcome result scratch.new list.new ≡ reasoned o k words.now set x y sign scratch.old list.old }
{
    let n = check_net(o, k, words, set)?;
    reason_net(o, n, words, set, x, y, sign, scratch, list)
}
