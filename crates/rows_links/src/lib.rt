// The bits that kinds and links set in cleared rows, and the closure of the yes rows by Warshall's algorithm.
#![tactic(auto)]

ghost use Rattle.std.specs.Prelude.{◌≡◌, cond, ◌+◌, ◌-◌, ◌*◌, ◌/◌, ◌<◌, ◌≤◌, length};
ghost use Rattle.theory.specs.Words.{tail_of, head_of};
ghost use Rattle.theory.specs.Origins.{chosen, InsideFrom};
ghost use Rattle.theory.specs.Rows.{bit_at};
ghost use Rattle.rows_steps.specs.Rows.{gain};
ghost use Rattle.rows_steps.specs.Steps.{kind_bits, is_link, is_links, isnt_link, isnt_links, through, middles};

use net_word::{head_of, is_chosen, plain_of, tail_of};
use rows_word::{has_bit, join_rows, put_bit};

// Bit p of row p for each kind p: those from `o` on below `n`.
pub fn put_kinds(o: usize, n: usize, w: usize, rows: &mut [u64])
    requires { (o ≤ n) × (n ≤ w * 64) × (n * w ≤ length rows.old) }
    ensures { rows.new ≡ kind_bits w o (n - o) rows.old }
{
    for p in o..n {
        put_bit(p * w, p, rows);
    }
}

// The bits of a plain word: of a → link one in the yes rows; of a ↛ link its head in its tail's no row and, if the tail is a kind, the tail in its head's.
fn put_link(o: usize, w: usize, word: u32, yeses: &mut [u64], noes: &mut [u64])
    requires along { (tail_of word * w + head_of word / 64 < length yeses.old) × (tail_of word * w + head_of word / 64 < length noes.old) }
    requires back { head_of word * w + tail_of word / 64 < length noes.old }
    ensures yeses_after { yeses.new ≡ is_link w word yeses.old }
    ensures noes_after { noes.new ≡ isnt_link o w word noes.old }
{
    let tail = tail_of(word);
    let head = head_of(word);
    if word % 2 == 0 {
        put_bit(tail * w, head, yeses);
        return;
    }
    put_bit(tail * w, head, noes);
    if o <= tail {
        put_bit(head * w, tail, noes);
    }
}

// The bits of all links that the set chooses.
pub fn put_links(
    o: usize,
    n: usize,
    w: usize,
    words: &[u32],
    set: u32,
    yeses: &mut [u64],
    noes: &mut [u64],
)
    requires net { InsideFrom n words.now }
    requires size { n ≤ w * 64 }
    requires room { (n * w ≤ length yeses.old) × (n * w ≤ length noes.old) }
    ensures yeses_after { yeses.new ≡ is_links w (chosen set words.now) yeses.old }
    ensures noes_after { noes.new ≡ isnt_links o w (chosen set words.now) noes.old }
{
    for &word in words {
        if is_chosen(set, word) {
            let plain = plain_of(word);
            put_link(o, w, plain, yeses, noes);
        }
    }
}

// The row at place `a`, if it has bit `m`, gains the row of m.
fn pass_on(a: usize, m: usize, w: usize, row: &[u64], rows: &mut [u64])
    requires { (a + w ≤ length rows.old) × (w ≤ length row.now) × (m < w * 64) }
    ensures { rows.new ≡ cond (bit_at rows.old a m) (gain a 0 w row.now rows.old) rows.old }
{
    if has_bit(a, m, rows) {
        join_rows(a, 0, w, row, rows);
    }
}

// What is m is what m is, for every node.
fn pass_through(m: usize, n: usize, w: usize, row: &[u64], rows: &mut [u64])
    requires { (m < n) × (n ≤ w * 64) × (n * w ≤ length rows.old) × (w ≤ length row.now) }
    ensures { rows.new ≡ through w m row.now 0 n rows.old }
{
    for x in 0..n {
        pass_on(x * w, m, w, row, rows);
    }
}

// The same for every kind m: those from `o` on below `n`. The row of m is taken aside, so that no row is read while it is written.
pub fn close_rows(o: usize, n: usize, w: usize, rows: &mut [u64])
    requires { (o ≤ n) × (n ≤ w * 64) × (w ≤ 16) × (n * w ≤ length rows.old) }
    ensures { rows.new ≡ middles w n o (n - o) rows.old }
{
    for m in o..n {
        let mut row = [0u64; 16];
        join_rows(0, m * w, w, rows, &mut row);
        pass_through(m, n, w, &row, rows);
    }
}
