// The completed list out of rows: its size by counting ones, its words by the next node of each row.
#![tactic(auto)]

ghost use Rattle.std.specs.Prelude.{◌≡◌, ◌+◌, ◌*◌, ◌<◌, ◌≤◌, length};
ghost use Rattle.std.specs.Int.Bits.{bit_or};
ghost use Rattle.theory_laws.specs.Over.{over};
ghost use Rattle.rows_steps.specs.Members.{members};
ghost use Rattle.rows_steps.specs.Listing.{pair, word_pairs, row_pairs, all_pairs, ones_from};

// How many nodes the row at place `a` has.
fn row_size(a: usize, w: usize, rows: &[u64]) -> usize
    requires { (a + w ≤ length rows.now) × (w ≤ 16) }
    ensures { (result ≡ ones_from a w rows.now) × (result ≤ 1024) }
{
    let mut size = 0;
    for &word in &rows[a..a + w] {
        size += word.count_ones() as usize;
    }
    size
}

// How many words the rows of `n` nodes make.
pub fn count_words(n: usize, w: usize, yeses: &[u64], noes: &[u64]) -> usize
    requires { (n ≤ 1024) × (w ≤ 16) × (n * w ≤ length yeses.now) × (n * w ≤ length noes.now) }
    ensures { result ≡ length (all_pairs w 0 n yeses.now noes.now) }
{
    let mut size = 0;
    for x in 0..n {
        let a = x * w;
        let some = row_size(a, w, yeses);
        let more = row_size(a, w, noes);
        size += some + more;
    }
    size
}

// The words about `x` and the kind `y`, yes before no, into the front of the list; how many.
fn write_pair(x: u32, y: u32, p: bool, q: bool, list: &mut [u32]) -> usize
    requires { (x < 1024) × (y < 1024) × (length (pair x y p q) ≤ length list.old) }
    ensures size { result ≡ length (pair x y p q) }
    ensures written { list.new ≡ over (pair x y p q) list.old }
{
    let word = x * 2048 + y * 2;
    if p {
        list[0] = word;
        if q {
            list[1] = word + 1;
            return 2;
        }
        return 1;
    }
    if q {
        list[0] = word + 1;
        return 1;
    }
    0
}

// The words about `x` and the nodes of a yes word and a no word, from node `base` on, into the front of the list; how many.
fn write_word(x: u32, base: u32, some: u64, more: u64, list: &mut [u32]) -> usize
    requires { (x < 1024) × (base ≤ 960) × (length (word_pairs x base some more (members (bit_or some more))) ≤ length list.old) }
    ensures size { result ≡ length (word_pairs x base some more (members (bit_or some more))) }
    ensures written { list.new ≡ over (word_pairs x base some more (members (bit_or some more))) list.old }
{
    let mut at = 0;
    let mut left = some | more;
    // No `for`: a step takes the lowest bit off, and there are as many steps as bits.
    while left != 0 {
        let t = left.trailing_zeros();
        let p = (some >> t) % 2 == 1;
        let q = (more >> t) % 2 == 1;
        let put = write_pair(x, base + t, p, q, &mut list[at..]);
        at += put;
        left &= left - 1;
    }
    at
}

// The words about `x`, by its rows at place `a`, into the front of the list; how many.
fn write_row(x: u32, a: usize, w: usize, yeses: &[u64], noes: &[u64], list: &mut [u32]) -> usize
    requires { (x < 1024) × (w ≤ 16) × (a + w ≤ length yeses.now) × (a + w ≤ length noes.now) × (length (row_pairs x a 0 w yeses.now noes.now) ≤ length list.old) }
    ensures size { result ≡ length (row_pairs x a 0 w yeses.now noes.now) }
    ensures written { list.new ≡ over (row_pairs x a 0 w yeses.now noes.now) list.old }
{
    let mut at = 0;
    for i in 0..w {
        let base = (i * 64) as u32;
        let put = write_word(x, base, yeses[a + i], noes[a + i], &mut list[at..]);
        at += put;
    }
    at
}

// Each node's row into what remains of the list.
pub fn write_rows(n: usize, w: usize, yeses: &[u64], noes: &[u64], list: &mut [u32])
    requires { (n ≤ 1024) × (w ≤ 16) × (n * w ≤ length yeses.now) × (n * w ≤ length noes.now) × (length (all_pairs w 0 n yeses.now noes.now) ≤ length list.old) }
    ensures { list.new ≡ over (all_pairs w 0 n yeses.now noes.now) list.old }
{
    let mut at = 0;
    for x in 0..n {
        let put = write_row(x as u32, x * w, w, yeses, noes, &mut list[at..]);
        at += put;
    }
}
