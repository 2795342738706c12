// One link in a pass over the links of a sign: which words are followed, and the marks that are put along one.
#![tactic(auto)]

ghost use Rattle.std.specs.Prelude.{◌≡◌, true, ℕ, ◌<◌, ◌≤◌, length};
ghost use Rattle.theory.specs.Origins.{origin_of, origin_limit, EndsFrom};
ghost use Rattle.scan_lanes.specs.Lanes.{lane_from};
ghost use Rattle.scan_link.specs.Classes.{class_of, word_in, lanes_for, Table};

use net_word::{head_of, is_chosen, plain_of, tail_of};

// All three lanes of a pass.
const LANES: u8 = 7;

// The class of a word: its origin, and 4 more where it says "is not". One multiplication, by 2^31 + 2^8, puts the two side by side at the top of 32 bits.
fn class_of(word: u32) -> usize
    requires { origin_of word ≤ origin_limit }
    ensures { result ≡ class_of word }
{
    (word as u64 * 2147483904 % 4294967296 / 536870912) as usize
}

// A word of a class.
fn word_in(class: usize) -> u32
    requires { class < 8 }
    ensures { result ≡ word_in class }
{
    (class % 4 * 2097152 + class / 4) as u32
}

// The lanes that a word may open: none where it is not chosen or has the other sign.
fn lanes_for(set: u32, sign: u32, word: u32) -> u8
    requires { origin_of word ≤ origin_limit }
    ensures { result ≡ lanes_for set sign word }
{
    if word % 2 != sign {
        return 0;
    }
    if !is_chosen(set, word) {
        return 0;
    }
    LANES
}

// These lanes for each class of words.
pub fn table_of(set: u32, sign: u32) -> [u8; 8]
    ensures { Table set sign result }
{
    let mut table = [0u8; 8];
    for i in 0..8 {
        table[i] = lanes_for(set, sign, word_in(i));
    }
    table
}

// The lanes that the words of a pass may open, class by class: where a set of origins chooses them and they have the sign.
#[derive(Clone, Copy)]
pub struct Lanes {
    pub set: u32,
    pub sign: u32,
    pub table: [u8; 8],
    ghost right: { Table set sign table },
}

// The lanes that a word may open, by its class.
pub fn lanes_of(lanes: &Lanes, word: u32) -> u8
    requires { origin_of word ≤ origin_limit }
    ensures { result ≡ lanes_for lanes.now.set lanes.now.sign word }
{
    lanes.table[class_of(word)]
}

// Whether no lane is open along a word, whatever its class: then it does nothing in any pass. Only a `true` is relied on.
pub fn is_closed(n: usize, word: u32, marks: &[u8]) -> bool
    requires ends { EndsFrom n word }
    requires room { n ≤ length marks.now }
    ensures { result ≡ true → (set sign : ℕ) → lane_from set sign word marks.now ≡ marks.now }
{
    let plain = plain_of(word);
    let tail = tail_of(plain);
    let head = head_of(plain);
    marks[tail] / 16 & marks[head] == 0
}

// One word. A lane is open where its bit stands in the upper half at the tail and in the lower half at the head; its mark is put by striking one of the two out. What tests
// for a mark stays as it was when the pass began, so that marks put in the pass are not tested in it.
pub fn follow(lanes: &Lanes, n: usize, word: u32, marks: &mut [u8])
    requires ends { EndsFrom n word }
    requires room { n ≤ length marks.old }
    ensures { marks.new ≡ lane_from lanes.now.set lanes.now.sign word marks.old }
{
    let plain = plain_of(word);
    let tail = tail_of(plain);
    let head = head_of(plain);
    let open = marks[tail] / 16 & marks[head] & lanes_of(lanes, word);
    if open != 0 {
        marks[tail] = marks[tail] & (255 - open % 4 * 16);
        marks[head] = marks[head] & (255 - open / 4 * 4);
    }
}
