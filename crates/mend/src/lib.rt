// Mending: the words are read in listed order, and each is kept if those kept so far have no clash together with it.
#![tactic(auto)]

ghost use Rattle.std.specs.Prelude.{◌≡◌, ◌||◌, [], ◌+◌, ◌/◌, ltb};
ghost use Rattle.theory.specs.Nets.{Net};
ghost use Rattle.theory.specs.Mending.{kept_from, dropped_from};
ghost use Rattle.mend.specs.Table.{mending_outcome, mending_clauses, mending_done, mended_by};
ghost use Rattle.mend.specs.declared.MendError.TheVariants.{Refused};
ghost use Rattle.net.specs.Clauses.{call};

use mend_loop::mend_all;
use net::{Refusal, check_plain};
use scan_start::clear;

// Why there is no mended net: a list is too short, with how many entries each would need room for (number 8), or a refusal.
#[derive(Clone, Copy)]
pub enum MendError {
    Short(u32),
    Refused(Refusal),
}

impl From<Refusal> for MendError {
    ghost from_gives = { λ refusal e. e ≡ Refused refusal };

    fn from(refusal: Refusal) -> MendError {
        MendError::Refused(refusal)
    }
}

// Whether a list has room for fewer entries than there are words, by the lengths.
fn is_short(words: usize, kept: usize, dropped: usize) -> bool
    ensures { result ≡ (ltb kept words || ltb (dropped / 3) words) }
{
    kept < words || dropped / 3 < words
}

// Numbers 5, 8 and 0, on a list that was checked.
fn mend_checked(
    o: u32,
    k: u32,
    n: usize,
    words: &[u32],
    kept: &mut [u32],
    dropped: &mut [u32],
    marks: &mut [u8],
) -> Result<(u32, u32), MendError>
    requires net { Net o k words.now }
    requires size { n ≡ o + k }
    ensures { mending_outcome result kept.new dropped.new marks.new ≡ call (mending_clauses words.now kept.old dropped.old marks.old n) (mending_done (kept_from o k [] words.now) (dropped_from o k [] words.now) kept.old dropped.old marks.old n) }
{
    if marks.len() < n {
        return Err(MendError::Refused(Refusal::ShortBuffer));
    }
    let all = words.len() as u32;
    if is_short(words.len(), kept.len(), dropped.len()) {
        clear(n, marks);
        return Err(MendError::Short(all));
    }
    let counts = mend_all(o as usize, k as usize, n, words, kept, dropped, marks);
    clear(n, marks);
    let left = counts.kept as u32;
    let lost = counts.dropped as u32;
    Ok((left, lost))
}

// Mends the net of a list of plain words, and how many words are kept and how many dropped: the words kept in one list, in the other each word dropped with the node and kind that it would have clashed at.
pub fn mend(
    o: u32,
    k: u32,
    words: &[u32],
    kept: &mut [u32],
    dropped: &mut [u32],
    marks: &mut [u8],
) -> Result<(u32, u32), MendError>
    ensures { mending_outcome result kept.new dropped.new marks.new ≡ mended_by o k words.now kept.old dropped.old marks.old }
{
    let n = check_plain(o, k, words)?;
    mend_checked(o, k, n, words, kept, dropped, marks)
}
