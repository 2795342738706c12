// Completion by rows ([6]): every supported word of a net, ascending, into the lent list, and the rows left with exactly what the net supports.
#![tactic(auto)]

ghost use Rattle.std.specs.Prelude.{◌≡◌, ◌+◌};
ghost use Rattle.theory.specs.Origins.{chosen, NetFrom};
ghost use Rattle.net.specs.Clauses.{call};
ghost use Rattle.rows_completion.specs.Table.{rows_outcome, rows_clauses, rows_done, completed_by_rows};

use completion::CompletionError;
use net::{Refusal, check_net};
use rows_filling::fill_rows;
use rows_listing::{count_words, write_rows};

// Numbers 5, 8 and 0, on a net that was checked.
fn complete_checked(
    o: u32,
    k: u32,
    n: usize,
    words: &[u32],
    set: u32,
    yeses: &mut [u64],
    noes: &mut [u64],
    list: &mut [u32],
) -> Result<usize, CompletionError>
    requires net { NetFrom o k words.now }
    requires size { n ≡ o + k }
    ensures { rows_outcome result yeses.new noes.new list.new ≡ call (rows_clauses o k (chosen set words.now) yeses.old noes.old list.old n) (rows_done o k (chosen set words.now) yeses.old noes.old list.old n) }
{
    let w = (n + 63) / 64;
    let size = n * w;
    if yeses.len() < size {
        return Err(CompletionError::Refused(Refusal::ShortBuffer));
    }
    if noes.len() < size {
        return Err(CompletionError::Refused(Refusal::ShortBuffer));
    }
    fill_rows(o, k, n, w, words, set, yeses, noes);
    let needed = count_words(n, w, yeses, noes);
    if list.len() < needed {
        return Err(CompletionError::Short(needed));
    }
    write_rows(n, w, yeses, noes, list);
    Ok(needed)
}

// The completion of a net by rows, and how many words it has: it takes no marks.
pub fn completion_by_rows(
    o: u32,
    k: u32,
    words: &[u32],
    set: u32,
    yeses: &mut [u64],
    noes: &mut [u64],
    list: &mut [u32],
) -> Result<usize, CompletionError>
    ensures { rows_outcome result yeses.new noes.new list.new ≡ completed_by_rows o k words.now set yeses.old noes.old list.old }
{
    let n = check_net(o, k, words, set)?;
    complete_checked(o, k, n, words, set, yeses, noes, list)
}
