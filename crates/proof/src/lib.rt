// Our proof of a statement, by the words that a set of origins chooses: the shortest reason is found, and its links are turned into steps.
#![tactic(auto)]

ghost use Rattle.std.specs.Prelude.{◌≡◌, List, ℕ, ◌+◌, ◌≤◌, ◌<◌, length};
ghost use Rattle.theory.specs.Origins.{chosen};
ghost use Rattle.proof_form.specs.FromReason.{start_at};
ghost use Rattle.proof_given.specs.Held.{Entered};
ghost use Rattle.proof.specs.Table.{without_reason, proof_outcome, proved};
ghost use Rattle.proof.specs.Listed.{put, put_kind, listed, object_list, kind_list};

use net::Refusal;
use proof_body::{write_kind, write_object};
use proof_rule::word_of;
use reason::{ReasonError, find_reason};

// Why there is no proof: the statement is not supported (number 7), our proof is too deep (number 11), the list is too short for the numbers needed,
// which are told (number 8), or a refusal.
#[derive(Clone, Copy)]
pub enum ProofError {
    Unsupported,
    TooDeep,
    Short(u32),
    Refused(Refusal),
}

// A reason that finds no room here is of a proof that is too deep.
impl From<ReasonError> for ProofError {
    ghost from_gives = { λ reason e. e ≡ without_reason reason };

    fn from(reason: ReasonError) -> ProofError {
        match reason {
            ReasonError::Unsupported => ProofError::Unsupported,
            ReasonError::Short(_) => ProofError::TooDeep,
            ReasonError::Refused(refusal) => ProofError::Refused(refusal),
        }
    }
}

// The most links of a kind's reason: two more sequents stand one above another.
const KIND_LINKS: usize = 253;

// The first link of an object's reason, as a word.
fn start_word(x: u32, path: &[u16]) -> u32
    requires { (3 < length path.now) × (x ≤ 1024) }
    ensures { result ≡ start_at x path.now }
{
    let to = path[3];
    if path[0] == 1 {
        return word_of(x as usize, to as usize, 1);
    }
    word_of(x as usize, to as usize, 0)
}

// Numbers 8 and 0 for an object's statement with this reason.
fn put_object(
    words: &[u32],
    set: u32,
    x: u32,
    path: &[u16],
    list: &mut [u32],
) -> Result<u32, ProofError>
    requires entered { Entered words.now }
    requires room { (3 < length path.now) × (length path.now ≤ 258) × (x ≤ 1024) }
    ensures { (past : List ℕ) → proof_outcome result past list.new ≡ put (object_list (chosen set words.now) x path.now) past list.old }
{
    let links = path.len() - 4;
    let size = 8 * links + 6;
    if list.len() < size {
        return Err(ProofError::Short(size as u32));
    }
    let start = start_word(x, path);
    write_object(words, set, path, links, x, start, list);
    Ok(size as u32)
}

// Numbers 11, 8 and 0 for a kind's statement with this reason.
fn put_kind(
    n: usize,
    words: &[u32],
    set: u32,
    x: u32,
    y: u32,
    sign: u32,
    path: &[u16],
    list: &mut [u32],
) -> Result<u32, ProofError>
    requires entered { Entered words.now }
    requires room { (3 ≤ length path.now) × (length path.now ≤ 258) × (n ≤ 1024) × (x ≤ 1024) × (y ≤ 1024) × (sign ≤ 1) }
    ensures { (past : List ℕ) → proof_outcome result past list.new ≡ put_kind n (chosen set words.now) x y sign path.now past list.old }
{
    let links = path.len() - 3;
    if KIND_LINKS < links {
        return Err(ProofError::TooDeep);
    }
    let size = 8 * links + 9;
    if list.len() < size {
        return Err(ProofError::Short(size as u32));
    }
    let goal = word_of(x as usize, y as usize, sign);
    let start = word_of(n, x as usize, 0);
    write_kind(
        words,
        set,
        path,
        links,
        2 + sign,
        goal,
        n as u32,
        start,
        list,
    );
    Ok(size as u32)
}

// Numbers 11, 8 and 0 for a statement with this reason.
fn put_proof(
    o: u32,
    n: usize,
    words: &[u32],
    set: u32,
    x: u32,
    y: u32,
    sign: u32,
    path: &[u16],
    list: &mut [u32],
) -> Result<u32, ProofError>
    requires entered { Entered words.now }
    requires room { (3 ≤ length path.now) × (length path.now ≤ 258) × (n ≤ 1024) × (x ≤ 1024) × (y ≤ 1024) × (sign ≤ 1) × (x < o → 3 < length path.now) }
    ensures { (past : List ℕ) → proof_outcome result past list.new ≡ listed o n (chosen set words.now) x y sign path.now past list.old }
{
    if x < o {
        return put_object(words, set, x, path, list);
    }
    put_kind(n, words, set, x, y, sign, path, list)
}

// The proof of x → y (`sign` 0) or x ↛ y (`sign` 1) by the words that the set of origins chooses: how many numbers were written.
pub fn write_proof(
    o: u32,
    k: u32,
    words: &[u32],
    set: u32,
    x: u32,
    y: u32,
    sign: u32,
    scratch: &mut [u16],
    list: &mut [u32],
) -> Result<u32, ProofError>
    ensures { proof_outcome result scratch.new list.new ≡ proved o k words.now set x y sign scratch.old list.old }
{
    // Room for the longest reason of a proof that is not too deep: an object's with 255 links, three places more as it is written.
    let mut path = [0u16; 258];
    let places = find_reason(o, k, words, set, x, y, sign, scratch, &mut path)?;
    let n = o as usize + k as usize;
    put_proof(o, n, words, set, x, y, sign, &path[..places as usize], list)
}
