// Completion: every supported word of a net, ascending, into the lent list.
#![tactic(auto)]

ghost use Rattle.std.specs.Prelude.{◌≡◌, ◌+◌, ◌≤◌, length};
ghost use Rattle.theory.specs.Origins.{chosen, NetFrom};
ghost use Rattle.theory.specs.Completion.{complete};
ghost use Rattle.completion.specs.Table.{completion_outcome, completion_clauses, completion_done, completed_by};
ghost use Rattle.completion.specs.declared.CompletionError.TheVariants.{Refused};
ghost use Rattle.net.specs.Clauses.{call};

use completion_list::{count_rows, write_rows};
use net::{Refusal, check_net};
use scan_start::clear;

// Why a completion was not written: how many words the list would need room for (number 8), or a refusal.
#[derive(Clone, Copy)]
pub enum CompletionError {
    Short(usize),
    Refused(Refusal),
}

impl From<Refusal> for CompletionError {
    ghost from_gives = { λ refusal e. e ≡ Refused refusal };

    fn from(refusal: Refusal) -> CompletionError {
        CompletionError::Refused(refusal)
    }
}

// Number 0 where the list has room for the words: one scan for each node.
fn complete_at_once(
    o: u32,
    k: u32,
    n: usize,
    words: &[u32],
    set: u32,
    marks: &mut [u8],
    list: &mut [u32],
) -> Result<usize, CompletionError>
    requires net { NetFrom o k words.now }
    requires size { n ≡ o + k }
    requires room { n ≤ length marks.old }
    requires fits { length (complete o k (chosen set words.now)) ≤ length list.old }
    ensures { completion_outcome result marks.new list.new ≡ call (completion_clauses (complete o k (chosen set words.now)) marks.old list.old n) (completion_done (complete o k (chosen set words.now)) marks.old list.old n) }
{
    let size = write_rows(o, k, n, words, set, marks, list);
    clear(n, marks);
    Ok(size)
}

// Numbers 8 and 0: the words are counted first, so that a list that is too short stays as it was.
fn complete_counted(
    o: u32,
    k: u32,
    n: usize,
    words: &[u32],
    set: u32,
    marks: &mut [u8],
    list: &mut [u32],
) -> Result<usize, CompletionError>
    requires net { NetFrom o k words.now }
    requires size { n ≡ o + k }
    requires room { n ≤ length marks.old }
    ensures { completion_outcome result marks.new list.new ≡ call (completion_clauses (complete o k (chosen set words.now)) marks.old list.old n) (completion_done (complete o k (chosen set words.now)) marks.old list.old n) }
{
    let size = count_rows(o, k, n, words, set, marks);
    if list.len() < size {
        clear(n, marks);
        return Err(CompletionError::Short(size));
    }
    complete_at_once(o, k, n, words, set, marks, list)
}

// Numbers 5, 8 and 0, on a net that was checked. A list of two places for each node and kind has room for any result.
fn complete_checked(
    o: u32,
    k: u32,
    n: usize,
    words: &[u32],
    set: u32,
    marks: &mut [u8],
    list: &mut [u32],
) -> Result<usize, CompletionError>
    requires net { NetFrom o k words.now }
    requires size { n ≡ o + k }
    ensures { completion_outcome result marks.new list.new ≡ call (completion_clauses (complete o k (chosen set words.now)) marks.old list.old n) (completion_done (complete o k (chosen set words.now)) marks.old list.old n) }
{
    if marks.len() < n {
        return Err(CompletionError::Refused(Refusal::ShortBuffer));
    }
    let most = n * (k as usize * 2);
    if list.len() < most {
        return complete_counted(o, k, n, words, set, marks, list);
    }
    complete_at_once(o, k, n, words, set, marks, list)
}

// The completion of a net, how many words it has: they are plain.
pub fn complete_net(
    o: u32,
    k: u32,
    words: &[u32],
    set: u32,
    marks: &mut [u8],
    list: &mut [u32],
) -> Result<usize, CompletionError>
    ensures { completion_outcome result marks.new list.new ≡ completed_by o k words.now set marks.old list.old }
{
    let n = check_net(o, k, words, set)?;
    complete_checked(o, k, n, words, set, marks, list)
}
