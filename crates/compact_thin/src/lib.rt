// The words of a list from the highest down: each that the words still present support without it is taken out.
#![tactic(auto)]

ghost use Rattle.std.specs.Prelude.{◌≡◌, cond, ◌++◌, ◌+◌, ◌-◌, ◌<◌, ◌≤◌, length, get_or, take, drop};
ghost use Rattle.theory.specs.Nets.{Net, LegalWord};
ghost use Rattle.theory.specs.Compaction.{without, supports, thin};

use net_word::{PLAIN_SET, head_of, tail_of};
use question::full_scan;

// Whether the words support what `word` says: one scan from its tail, read at its head.
fn is_supported(o: u32, k: u32, n: usize, words: &[u32], word: u32, marks: &mut [u8]) -> bool
    requires net { Net o k words.now }
    requires legal { LegalWord o k word }
    requires size { n ≡ o + k }
    requires room { n ≤ length marks.old }
    ensures answer { result ≡ supports o k words.now word }
    ensures past { drop n marks.new ≡ drop n marks.old }
{
    full_scan(o, k, n, words, PLAIN_SET, tail_of(word) as u32, marks);
    let byte = marks[head_of(word)];
    if word % 2 == 0 {
        byte / 4 % 2 == 1
    } else {
        byte / 2 % 2 == 1
    }
}

// Takes the word at place `i` out of the first `end` words; those after it move down by one.
fn remove_at(words: &mut [u32], i: usize, end: usize)
    requires { (i < end) × (end ≤ length words.old) }
    ensures { words.new ≡ without i (take end words.old) ++ drop (end - 1) words.old }
{
    words.copy_within(i + 1..end, i);
}

// Tests the word at place `i` of the first `end` words against the others, and takes it out if they support it; whether they do.
fn thin_one(
    o: u32,
    k: u32,
    n: usize,
    i: usize,
    end: usize,
    words: &mut [u32],
    marks: &mut [u8],
) -> bool
    requires size { n ≡ o + k }
    requires place { (i < end) × (end ≤ length words.old) }
    requires net { Net o k (take end words.old) }
    requires room { n ≤ length marks.old }
    ensures answer { result ≡ supports o k (without i (take end words.old)) (get_or words.old i 0) }
    ensures left { take (cond result (end - 1) end) words.new ≡ cond result (without i (take end words.old)) (take end words.old) }
    ensures past { drop n marks.new ≡ drop n marks.old }
{
    let word = words[i];
    let rest = end - 1;
    words[i] = words[rest];
    let supported = is_supported(o, k, n, &words[..rest], word, marks);
    if supported {
        remove_at(words, i, end);
    } else {
        words[i] = word;
    }
    supported
}

// From the highest of the first `count` words down; how many are left, in front.
pub fn thin_words(
    o: u32,
    k: u32,
    n: usize,
    count: usize,
    words: &mut [u32],
    marks: &mut [u8],
) -> usize
    requires size { n ≡ o + k }
    requires part { count ≤ length words.old }
    requires net { Net o k (take count words.old) }
    requires room { n ≤ length marks.old }
    ensures kept { take result words.new ≡ thin o k count (take count words.old) }
    ensures fewer { result ≤ count }
    ensures past { drop n marks.new ≡ drop n marks.old }
{
    let mut end = count;
    for i in (0..count).rev() {
        if thin_one(o, k, n, i, end, words, marks) {
            end -= 1;
        }
    }
    end
}
