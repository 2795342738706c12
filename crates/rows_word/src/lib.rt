// Rows of bits in lent words of 64: cleared, a bit set and tested, one row joined to another, two rows compared.
#![tactic(auto)]

ghost use Rattle.std.specs.Prelude.{◌≡◌, ◌+◌, ◌/◌, ◌<◌, ◌≤◌, length};
ghost use Rattle.theory.specs.Rows.{bit_at};
ghost use Rattle.rows_steps.specs.Rows.{put, gain, meets};
ghost use Rattle.rows_steps.specs.Steps.{blank_rows};

// The first `size` words zero.
pub fn clear_words(size: usize, rows: &mut [u64])
    requires { size ≤ length rows.old }
    ensures { rows.new ≡ blank_rows size rows.old }
{
    rows[..size].fill(0);
}

// Bit `y` of the row at place `a` is set.
pub fn put_bit(a: usize, y: usize, rows: &mut [u64])
    requires { a + y / 64 < length rows.old }
    ensures { rows.new ≡ put a y rows.old }
{
    let i = a + y / 64;
    let bit = (y % 64) as u32;
    rows[i] |= 1u64 << bit;
}

// Whether bit `y` of the row at place `a` is set.
pub fn has_bit(a: usize, y: usize, rows: &[u64]) -> bool
    requires { a + y / 64 < length rows.now }
    ensures { result ≡ bit_at rows.now a y }
{
    let bit = (y % 64) as u32;
    (rows[a + y / 64] >> bit) % 2 == 1
}

// The row at place `a` gains what the row of `others` at place `b` has.
pub fn join_rows(a: usize, b: usize, w: usize, others: &[u64], rows: &mut [u64])
    requires { (a + w ≤ length rows.old) × (b + w ≤ length others.now) }
    ensures { rows.new ≡ gain a b w others.now rows.old }
{
    for j in 0..w {
        rows[a + j] |= others[b + j];
    }
}

// The same of two rows of `others`, at places `b` and `c`: the row is read and written once for both.
pub fn join_two(a: usize, b: usize, c: usize, w: usize, others: &[u64], rows: &mut [u64])
    requires { (a + w ≤ length rows.old) × (b + w ≤ length others.now) × (c + w ≤ length others.now) }
    ensures { rows.new ≡ gain a c w others.now (gain a b w others.now rows.old) }
{
    for j in 0..w {
        rows[a + j] = rows[a + j] | others[b + j] | others[c + j];
    }
}

// Whether the row at place `a` and the row of `others` at place `b` have a bit in common: one test for all words.
pub fn rows_meet(a: usize, b: usize, w: usize, rows: &[u64], others: &[u64]) -> bool
    requires { (a + w ≤ length rows.now) × (b + w ≤ length others.now) }
    ensures { result ≡ meets a b w rows.now others.now }
{
    let mut both = 0u64;
    for j in 0..w {
        both |= rows[a + j] & others[b + j];
    }
    both != 0
}
