// The supported words about one node, counted and written by its marks.
#![tactic(auto)]

ghost use Rattle.std.specs.Prelude.{◌≡◌, ◌-◌, ◌<◌, ◌≤◌, length};
ghost use Rattle.theory_laws.specs.Over.{over};
ghost use Rattle.theory.specs.Completion.{cell, row};

// How many words the marks of the kinds below `n`, from `o` on, make.
pub fn count_row(o: usize, n: usize, marks: &[u8]) -> usize
    requires { (o ≤ n) × (n ≤ 1024) × (n ≤ length marks.now) }
    ensures { result ≡ length (row 0 marks.now o (n - o)) }
{
    let mut size = 0;
    for &byte in &marks[o..n] {
        size += (byte / 4 % 2 + byte / 2 % 2) as usize;
    }
    size
}

// The words about `x` and the kind `y`, by its byte, into the front of the list; how many.
fn write_cell(x: u32, y: u32, byte: u8, list: &mut [u32]) -> usize
    requires { (x < 1024) × (y < 1024) × (length (cell x y byte) ≤ length list.old) }
    ensures size { result ≡ length (cell x y byte) }
    ensures written { list.new ≡ over (cell x y byte) list.old }
{
    let word = x * 2048 + y * 2;
    if byte / 4 % 2 == 1 {
        list[0] = word;
        if byte / 2 % 2 == 1 {
            list[1] = word + 1;
            return 2;
        }
        return 1;
    }
    if byte / 2 % 2 == 1 {
        list[0] = word + 1;
        return 1;
    }
    0
}

// The row of `x` by its marks, into the front of the list; how many words.
pub fn write_row(o: usize, n: usize, x: u32, marks: &[u8], list: &mut [u32]) -> usize
    requires { (o ≤ n) × (n ≤ 1024) × (x < n) × (n ≤ length marks.now) × (length (row x marks.now o (n - o)) ≤ length list.old) }
    ensures size { result ≡ length (row x marks.now o (n - o)) }
    ensures written { list.new ≡ over (row x marks.now o (n - o)) list.old }
{
    let mut at = 0;
    for y in o..n {
        let put = write_cell(x, y as u32, marks[y], &mut list[at..]);
        at += put;
    }
    at
}
