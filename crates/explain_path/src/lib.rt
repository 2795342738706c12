// The derivation of what a path without repeats shows, written as numbers.
#![tactic(auto)]

ghost use Rattle.std.specs.Prelude.{◌≡◌, ◌+◌, ◌-◌, ◌*◌, ◌≤◌, ◌<◌, length, get_or, drop};
ghost use Rattle.derivation_lines.specs.Known.{KnownWords};
ghost use Rattle.derivation_lines.specs.Deriving.{climb, rise, sink, swing};
ghost use Rattle.explain_line.specs.Blocks.{line_limit, part_limit, put_lines};
ghost use Rattle.explain_path.specs.Parts.{join_lines};

use derivation_lines::{IS, IS_NOT, RULE_1, RULE_3, RULE_4};
use explain_line::{DOWN, UNDER, UP, put_line, put_link, write_cross, write_steps};

// The first part: no line where it is one node, else two a link less one.
fn write_climb(words: &[u32], set: u32, part: &[u16], list: &mut [u32])
    requires known { KnownWords words.now }
    requires some { (1 ≤ length part.now) × (length part.now ≤ part_limit) }
    requires room { 8 * (length part.now - 1) ≤ length list.old + 4 }
    ensures { list.new ≡ put_lines list.old 0 (climb set words.now (get_or part.now 0 0) (drop 1 part.now)) }
{
    if 1 < part.len() {
        put_link(words, set, list, 0, part[0], part[1], IS);
        write_steps(UP, words, set, part[0], &part[1..], list, 1);
    }
}

// How many lines the first part has.
fn climb_size(nodes: usize) -> u32
    requires { (1 ≤ nodes) × (nodes ≤ part_limit) }
    ensures { result ≡ nodes - 1 + (nodes - 1) - 1 }
{
    if nodes == 1 {
        return 0;
    }
    (2 * nodes - 3) as u32
}

// The line that puts the first part before line `n` - 1; the number of the next line.
fn write_join(part: &[u16], y: u16, f: u32, list: &mut [u32], n: u32) -> u32
    requires some { (1 ≤ length part.now) × (length part.now ≤ part_limit) }
    requires room { 4 * (n + length (join_lines (get_or part.now 0 0) (drop 1 part.now) y f n)) ≤ length list.old }
    requires number { (1 ≤ n) × (n < line_limit) × (length part.now ≤ 1 + f) }
    ensures value { result ≡ n + length (join_lines (get_or part.now 0 0) (drop 1 part.now) y f n) }
    ensures list_after { list.new ≡ put_lines list.old n (join_lines (get_or part.now 0 0) (drop 1 part.now) y f n) }
{
    if part.len() == 1 {
        return n;
    }
    put_line(list, n, part[0], y, IS_NOT, RULE_4, f - 1, n - 1);
    n + 1
}

// x → xn.
pub fn write_rise(words: &[u32], set: u32, part: &[u16], list: &mut [u32])
    requires known { KnownWords words.now }
    requires some { (1 ≤ length part.now) × (length part.now ≤ part_limit) }
    requires room { (8 * (length part.now - 1) ≤ length list.old + 4) × (4 ≤ length list.old) }
    ensures { list.new ≡ put_lines list.old 0 (rise set words.now (get_or part.now 0 0) (drop 1 part.now)) }
{
    if part.len() == 1 {
        put_line(list, 0, part[0], part[0], IS, RULE_1, 0, 0);
    } else {
        write_climb(words, set, part, list);
    }
}

// x ↛ y by a second part, under an object, or of one node.
pub fn write_sink(words: &[u32], set: u32, part: &[u16], second: &[u16], list: &mut [u32])
    requires known { KnownWords words.now }
    requires some { (1 ≤ length part.now) × (length part.now ≤ part_limit) }
    requires more { (1 ≤ length second.now) × (length second.now ≤ part_limit) }
    requires room { 4 * length (sink set words.now (get_or part.now 0 0) (drop 1 part.now) (get_or second.now 0 0) (drop 1 second.now)) ≤ length list.old }
    ensures { list.new ≡ put_lines list.old 0 (sink set words.now (get_or part.now 0 0) (drop 1 part.now) (get_or second.now 0 0) (drop 1 second.now)) }
{
    write_climb(words, set, part, list);
    let f = climb_size(part.len());
    let u = part[part.len() - 1];
    let y = second[0];
    let size = write_cross(words, set, u, y, list, f);
    let n = write_join(part, y, f, list, f + size);
    write_steps(UNDER, words, set, part[0], second, list, n);
}

// The same of a kind, where the second part has more nodes: the statement is turned round while it goes down.
pub fn write_swing(words: &[u32], set: u32, part: &[u16], second: &[u16], list: &mut [u32])
    requires known { KnownWords words.now }
    requires some { (1 ≤ length part.now) × (length part.now ≤ part_limit) }
    requires more { (1 ≤ length second.now) × (length second.now ≤ part_limit) }
    requires room { 4 * length (swing set words.now (get_or part.now 0 0) (drop 1 part.now) (get_or second.now 0 0) (drop 1 second.now)) ≤ length list.old }
    ensures { list.new ≡ put_lines list.old 0 (swing set words.now (get_or part.now 0 0) (drop 1 part.now) (get_or second.now 0 0) (drop 1 second.now)) }
{
    write_climb(words, set, part, list);
    let f = climb_size(part.len());
    let u = part[part.len() - 1];
    let y = second[second.len() - 1];
    let size = write_cross(words, set, second[0], u, list, f);
    let n = f + size;
    write_steps(DOWN, words, set, u, second, list, n);
    let m = n + 2 * (second.len() - 1) as u32;
    put_line(list, m, u, y, IS_NOT, RULE_3, m - 1, 0);
    write_join(part, y, f, list, m + 1);
}
