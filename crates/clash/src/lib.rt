// The clash test, which a scope runs at boot.
#![tactic(auto)]

ghost use Rattle.std.specs.Prelude.{◌≡◌, ◌+◌, ◌-◌, ◌<◌, ◌≤◌, Ok, MatchOption, length, drop};
ghost use Rattle.theory.specs.Origins.{chosen, NetFrom};
ghost use Rattle.clash.specs.Table.{clash_outcome, first_both, clash_search, clash_clauses, clash_done, clashed_by};
ghost use Rattle.net.specs.Clauses.{call};

use net::{Refusal, check_net};
use question::full_scan;
use scan_start::clear;

// The first kind below `n`, from `o` on, at which yes and no stand both.
fn first_both(o: usize, n: usize, marks: &[u8]) -> Option<usize>
    requires { (o ≤ n) × (n ≤ length marks.now) }
    ensures { MatchOption result (first_both marks.now o (n - o) ≡ n) (λ y. (y < n) × (y ≡ first_both marks.now o (n - o))) }
{
    for y in o..n {
        let byte = marks[y];
        if byte / 2 % 4 == 3 {
            return Some(y);
        }
    }
    None
}

// The first node that clashes, with its first kind. The marks of the nodes are spoilt.
fn search_clash(
    o: u32,
    k: u32,
    n: usize,
    words: &[u32],
    set: u32,
    marks: &mut [u8],
) -> Option<(usize, usize)>
    requires net { NetFrom o k words.now }
    requires size { n ≡ o + k }
    requires room { n ≤ length marks.old }
    ensures found { Ok result ≡ clash_search o k (chosen set words.now) }
    ensures past { drop n marks.new ≡ drop n marks.old }
    ensures long { length marks.new ≡ length marks.old }
{
    let objects = o as usize;
    let end = n as u32;
    for x in 0..end {
        full_scan(o, k, n, words, set, x, marks);
        if let Some(y) = first_both(objects, n, marks) {
            return Some((x as usize, y));
        }
    }
    None
}

// Numbers 5, 7 and 0, on a net that was checked.
fn clash_net(
    o: u32,
    k: u32,
    n: usize,
    words: &[u32],
    set: u32,
    marks: &mut [u8],
) -> Result<Option<(usize, usize)>, Refusal>
    requires net { NetFrom o k words.now }
    requires size { n ≡ o + k }
    ensures { clash_outcome result marks.new ≡ call (clash_clauses (clash_search o k (chosen set words.now)) marks.old n) (clash_done (clash_search o k (chosen set words.now)) marks.old n) }
{
    if marks.len() < n {
        return Err(Refusal::ShortBuffer);
    }
    let found = search_clash(o, k, n, words, set, marks);
    clear(n, marks);
    Ok(found)
}

// Whether some node, object or kind, has yes and no at some kind: the smallest node that clashes and its smallest kind, or none (number 7).
pub fn find_clash(
    o: u32,
    k: u32,
    words: &[u32],
    set: u32,
    marks: &mut [u8],
) -> Result<Option<(usize, usize)>, Refusal>
    ensures { clash_outcome result marks.new ≡ clashed_by o k words.now set marks.old }
{
    let n = check_net(o, k, words, set)?;
    clash_net(o, k, n, words, set, marks)
}
