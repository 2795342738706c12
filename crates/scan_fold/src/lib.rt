// The bytes of all nodes, written for a pass over the links, and folded after it: the loops between two passes.
#![tactic(auto)]

ghost use Rattle.std.specs.Prelude.{◌≡◌, ℕ, ◌<◌, ◌≤◌, length, drop, slice_index};
ghost use Rattle.scan_start.specs.Starts.{Low};
ghost use Rattle.scan_lanes.specs.Codes.{on_nodes, is_code, is_marks, isnt_code, isnt_marks, NoneNew};
ghost use Rattle.scan_fold.specs.Gained.{NoneGained};

use scan_lanes::{is_code, is_folded, is_marks, isnt_code, isnt_folded, new_bits};

// The bytes of `n` nodes, each changed by `change`.
fn change_each<F: Fn(u8) -> u8>(n: usize, change: F, marks: &mut [u8])
    requires room { n ≤ length marks.old }
    requires callable { (v : ℕ) → v < n → F.pre change (slice_index marks.old v) }
    ensures changed { (v : ℕ) → v < n → F.post change (slice_index marks.old v) (slice_index marks.new v) }
    ensures past { drop n marks.new ≡ drop n marks.old }
{
    for byte in &mut marks[..n] {
        *byte = change(*byte);
    }
}

// The same, by `fold`; the bits of the result are those that one of the bytes has gained.
fn fold_each<F: Fn(u8) -> u8>(n: usize, fold: F, marks: &mut [u8]) -> u8
    requires room { n ≤ length marks.old }
    requires callable { (v : ℕ) → v < n → F.pre fold (slice_index marks.old v) }
    ensures changed { (v : ℕ) → v < n → F.post fold (slice_index marks.old v) (slice_index marks.new v) }
    ensures past { drop n marks.new ≡ drop n marks.old }
    ensures by_index { (i : ℕ) → i < 8 → NoneGained i n marks.old marks.new result }
{
    let mut new = 0;
    for byte in &mut marks[..n] {
        let folded = fold(*byte);
        new |= new_bits(folded, *byte);
        *byte = folded;
    }
    new
}

// The marks of `n` nodes, written for the pass over "is".
pub fn code_is(n: usize, marks: &mut [u8])
    requires room { n ≤ length marks.old }
    requires low { Low n marks.old }
    ensures { marks.new ≡ on_nodes is_code n marks.old }
{
    change_each(n, is_code, marks);
}

// The marks that the pass over "is" put are folded in; bits 0, 1 and 6 of the result say that a T, an F, a U was among them.
pub fn fold_is(n: usize, marks: &mut [u8]) -> u8
    requires { n ≤ length marks.old }
    ensures marks_after { marks.new ≡ on_nodes (λ (e : ℕ). is_code (is_marks e)) n marks.old }
    ensures by_index { (i : ℕ) → i < 8 → NoneNew is_marks i n marks.old result }
{
    fold_each(n, is_folded, marks)
}

// The same bytes, written for the pass over "is not".
pub fn code_isnt(n: usize, marks: &mut [u8])
    requires { n ≤ length marks.old }
    ensures { marks.new ≡ on_nodes (λ (e : ℕ). isnt_code (is_marks e)) n marks.old }
{
    change_each(n, isnt_code, marks);
}

// The marks that the pass over "is not" put are folded in, and the bytes written for the pass over "is"; bit 1 of the result says that there was one.
pub fn fold_isnt(n: usize, marks: &mut [u8]) -> u8
    requires { n ≤ length marks.old }
    ensures marks_after { marks.new ≡ on_nodes (λ (e : ℕ). is_code (isnt_marks e)) n marks.old }
    ensures by_index { (i : ℕ) → i < 8 → NoneNew isnt_marks i n marks.old result }
{
    fold_each(n, isnt_folded, marks)
}

// The bytes of the pass over "is" as marks.
pub fn plain_marks(n: usize, marks: &mut [u8])
    requires { n ≤ length marks.old }
    ensures { marks.new ≡ on_nodes is_marks n marks.old }
{
    change_each(n, is_marks, marks);
}
