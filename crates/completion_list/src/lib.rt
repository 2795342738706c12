// The completed list: each node's row, counted, and written one after another.
#![tactic(auto)]

ghost use Rattle.std.specs.Prelude.{◌≡◌, ◌+◌, ◌≤◌, length, drop};
ghost use Rattle.theory_laws.specs.Over.{over};
ghost use Rattle.theory.specs.Origins.{chosen, NetFrom};
ghost use Rattle.theory.specs.Completion.{complete};

use completion_cell::{count_row, write_row};
use question::full_scan;

// How many words the completed list has. The marks of the nodes are spoilt.
pub fn count_rows(o: u32, k: u32, n: usize, words: &[u32], set: u32, marks: &mut [u8]) -> usize
    requires net { NetFrom o k words.now }
    requires size { n ≡ o + k }
    requires room { n ≤ length marks.old }
    ensures counted { result ≡ length (complete o k (chosen set words.now)) }
    ensures past { drop n marks.new ≡ drop n marks.old }
    ensures long { length marks.new ≡ length marks.old }
{
    let objects = o as usize;
    let nodes = n as u32;
    let mut size = 0;
    for x in 0..nodes {
        full_scan(o, k, n, words, set, x, marks);
        let more = count_row(objects, n, marks);
        size += more;
    }
    size
}

// Each node's row into what remains of the list; how many words. The marks of the nodes are spoilt.
pub fn write_rows(
    o: u32,
    k: u32,
    n: usize,
    words: &[u32],
    set: u32,
    marks: &mut [u8],
    list: &mut [u32],
) -> usize
    requires net { NetFrom o k words.now }
    requires size { n ≡ o + k }
    requires room { n ≤ length marks.old }
    requires fits { length (complete o k (chosen set words.now)) ≤ length list.old }
    ensures counted { result ≡ length (complete o k (chosen set words.now)) }
    ensures written { list.new ≡ over (complete o k (chosen set words.now)) list.old }
    ensures past { drop n marks.new ≡ drop n marks.old }
    ensures long { length marks.new ≡ length marks.old }
{
    let objects = o as usize;
    let nodes = n as u32;
    let mut at = 0;
    for x in 0..nodes {
        full_scan(o, k, n, words, set, x, marks);
        let size = write_row(objects, n, x, marks, &mut list[at..]);
        at += size;
    }
    at
}
