// Compaction: a lent list is sorted where it stands, and loses repeats and the words that the others support.
#![tactic(auto)]

ghost use Rattle.std.specs.Prelude.{◌≡◌, ◌++◌, ◌+◌, ◌-◌, ◌≤◌, length, take, replicate};
ghost use Rattle.theory.specs.Nets.{Net};
ghost use Rattle.theory.specs.Compaction.{compacted};
ghost use Rattle.compact.specs.Table.{compaction_outcome, compaction_clauses, compaction_done, compacted_by};
ghost use Rattle.net.specs.Clauses.{call};

use compact_sort::{remove_repeats, sort_words};
use compact_thin::thin_words;
use net::{Refusal, check_plain};
use scan_start::clear;

// Zero from place `from` on.
fn zero_from(from: usize, list: &mut [u32])
    requires { from ≤ length list.old }
    ensures { list.new ≡ take from list.old ++ replicate (length list.old - from) 0 }
{
    list[from..].fill(0);
}

// Numbers 5 and 0, on a list that was checked.
fn compact_checked(
    o: u32,
    k: u32,
    n: usize,
    list: &mut [u32],
    marks: &mut [u8],
) -> Result<u32, Refusal>
    requires net { Net o k list.old }
    requires size { n ≡ o + k }
    ensures { compaction_outcome result list.new marks.new ≡ call (compaction_clauses list.old marks.old n) (compaction_done (compacted o k list.old) list.old marks.old n) }
{
    if marks.len() < n {
        return Err(Refusal::ShortBuffer);
    }
    sort_words(list);
    let count = remove_repeats(list);
    let left = thin_words(o, k, n, count, list, marks);
    zero_from(left, list);
    clear(n, marks);
    let size = left as u32;
    Ok(size)
}

// The compaction of a list of plain words: how many are left.
pub fn compact_list(o: u32, k: u32, list: &mut [u32], marks: &mut [u8]) -> Result<u32, Refusal>
    ensures { compaction_outcome result list.new marks.new ≡ compacted_by o k list.old marks.old }
{
    let n = check_plain(o, k, list)?;
    compact_checked(o, k, n, list, marks)
}
