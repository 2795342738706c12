// The rows of a net: exactly what the chosen words support, whatever the rows held before. The no rows come from the yes rows: what is no of a node's
// kinds is no of it (3.4), and so is what is such a kind (3.5).
#![tactic(auto)]

ghost use Rattle.std.specs.Prelude.{◌≡◌, true, cond, ◌++◌, ℕ, ◌+◌, ◌-◌, ◌*◌, ◌<◌, ◌≤◌, length, drop};
ghost use Rattle.theory.specs.Words.{is, isnt};
ghost use Rattle.theory.specs.Marks.{has};
ghost use Rattle.theory.specs.Origins.{chosen, NetFrom};
ghost use Rattle.theory.specs.Rows.{width, bit_at, supported_rows};
ghost use Rattle.rows_steps.specs.Members.{members};
ghost use Rattle.rows_steps.specs.Rows.{put, meets};
ghost use Rattle.rows_steps.specs.Steps.{gather_nodes, gather_words, gather, back_row, back};
ghost use Rattle.rows_filling.specs.Below.{Below};

use rows_links::{close_rows, put_kinds, put_links};
use rows_word::{clear_words, has_bit, join_rows, join_two, put_bit, rows_meet};

// The row gains the rows of the nodes in the word, two at a time: the next is given by the trailing zeros.
fn gather_word(base: usize, n: usize, w: usize, word: u64, rows: &[u64], row: &mut [u64])
    requires { (w ≤ length row.old) × (n * w ≤ length rows.now) × (base < 1024) × Below base n word }
    ensures { row.new ≡ gather_nodes w base (members word) rows.now row.old }
{
    let mut left = word;
    // No `for`: a step takes the lowest bit off, and there are as many steps as bits.
    while left != 0 {
        let t = u64::trailing_zeros(left) as usize;
        let rest = left & (left - 1);
        if rest == 0 {
            join_rows(0, (base + t) * w, w, rows, row);
            return;
        }
        let u = u64::trailing_zeros(rest) as usize;
        join_two(0, (base + t) * w, (base + u) * w, w, rows, row);
        left = rest & (rest - 1);
    }
}

// The row gains the rows of the nodes in the yes row at place `a`.
fn gather_row(a: usize, n: usize, w: usize, yeses: &[u64], rows: &[u64], row: &mut [u64])
    requires { (a + w ≤ length yeses.now) × (w ≤ length row.old) × (n * w ≤ length rows.now) × (w ≤ 16) × ((q : ℕ) → q < w * 64 → bit_at yeses.now a q ≡ true → q < n) }
    ensures { row.new ≡ gather_words w a 0 w yeses.now rows.now row.old }
{
    for i in 0..w {
        gather_word(i * 64, n, w, yeses[a + i], rows, row);
    }
}

// Every node's row gains the rows of the nodes in its yes row, gathered beside the rows.
fn gather_rows(n: usize, w: usize, yeses: &[u64], rows: &mut [u64])
    requires { (n * w ≤ length yeses.now) × (n * w ≤ length rows.old) × (w ≤ 16) × ((x q : ℕ) → x < n → q < w * 64 → bit_at yeses.now (x * w) q ≡ true → q < n) }
    ensures { rows.new ≡ gather w 0 n yeses.now rows.old }
{
    for x in 0..n {
        let a = x * w;
        let mut row = [0u64; 16];
        gather_row(a, n, w, yeses, rows, &mut row);
        join_rows(a, 0, w, &row, rows);
    }
}

// The row at place `a` gains bit `y`, if it has a bit of the yes row at place `b`. A bit that is set already asks for no look at the rows.
fn back_bit(a: usize, b: usize, y: usize, w: usize, yeses: &[u64], rows: &mut [u64])
    requires { (b + w ≤ length yeses.now) × (a + w ≤ length rows.old) × (y < w * 64) }
    ensures { rows.new ≡ cond (meets b a w yeses.now rows.old) (put a y rows.old) rows.old }
{
    if has_bit(a, y, rows) {
        return;
    }
    if rows_meet(b, a, w, yeses, rows) {
        put_bit(a, y, rows);
    }
}

// The row at place `a` gains each kind whose yes row has a bit of it. An empty row gains nothing.
fn back_row(a: usize, o: usize, n: usize, w: usize, yeses: &[u64], rows: &mut [u64])
    requires { (o ≤ n) × (n ≤ w * 64) × (n * w ≤ length yeses.now) × (a + w ≤ length rows.old) }
    ensures { rows.new ≡ back_row w a o (n - o) yeses.now rows.old }
{
    if !rows_meet(a, a, w, rows, rows) {
        return;
    }
    for y in o..n {
        back_bit(a, y * w, y, w, yeses, rows);
    }
}

// The same for every node.
fn back_rows(o: usize, n: usize, w: usize, yeses: &[u64], rows: &mut [u64])
    requires { (o ≤ n) × (n ≤ w * 64) × (n * w ≤ length yeses.now) × (n * w ≤ length rows.old) }
    ensures { rows.new ≡ back w o (n - o) 0 n yeses.now rows.old }
{
    for x in 0..n {
        back_row(x * w, o, n, w, yeses, rows);
    }
}

// Both rows of a net of `n` nodes, `w` words each.
pub fn fill_rows(
    o: u32,
    k: u32,
    n: usize,
    w: usize,
    words: &[u32],
    set: u32,
    yeses: &mut [u64],
    noes: &mut [u64],
)
    requires net { NetFrom o k words.now }
    requires size { (n ≡ o + k) × (w ≡ width (o + k)) }
    requires room { (n * w ≤ length yeses.old) × (n * w ≤ length noes.old) }
    ensures yeses_after { yeses.new ≡ supported_rows o k (chosen set words.now) is ++ drop (n * w) yeses.old }
    ensures noes_after { noes.new ≡ supported_rows o k (chosen set words.now) isnt ++ drop (n * w) noes.old }
{
    let objects = o as usize;
    clear_words(n * w, yeses);
    clear_words(n * w, noes);
    put_kinds(objects, n, w, yeses);
    put_links(objects, n, w, words, set, yeses, noes);
    close_rows(objects, n, w, yeses);
    gather_rows(n, w, yeses, noes);
    back_rows(objects, n, w, yeses, noes);
}
