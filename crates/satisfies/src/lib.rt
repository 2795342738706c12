// Whether a statement holds in a lent valuation: the test that anybody may run on a table from anybody.
#![tactic(auto)]

ghost use Rattle.std.specs.Prelude.{◌≡◌, ◌+◌, ◌*◌, ◌<◌, ◌≤◌, length};
ghost use Rattle.theory.specs.Words.{sign_at};
ghost use Rattle.theory.specs.Marks.{T, F, has};
ghost use Rattle.theory.specs.Valuations.{agrees, everywhere, satisfies};
ghost use Rattle.satisfies.specs.Table.{low_bytes, bad_table, tested_by};

use net::{NODE_LIMIT, Refusal, is_bad_statement};

// Why a statement was not tried: the table is none (number 13), or a refusal.
#[derive(Clone, Copy)]
pub enum TestError {
    BadTable,
    Refused(Refusal),
}

// Whether a value has T, and whether it has F.
fn has_t(byte: u8) -> bool
    ensures { result ≡ has T byte }
{
    byte % 2 == 1
}

fn has_f(byte: u8) -> bool
    ensures { result ≡ has F byte }
{
    byte / 2 % 2 == 1
}

// (6.3) and (6.4) at one element, by its bytes of the two kinds.
fn agree(sign: u32, p: u8, q: u8) -> bool
    ensures { result ≡ agrees (sign_at sign) p q }
{
    if sign == 0 {
        return (!has_t(p) | has_t(q)) & (!has_f(q) | has_f(p));
    }
    (!has_t(p) | has_f(q)) & (!has_t(q) | has_f(p))
}

// The same at every element.
fn agree_everywhere(
    o: usize,
    k: usize,
    n: usize,
    table: &[u8],
    x: usize,
    y: usize,
    sign: u32,
) -> bool
    requires { (n ≡ o + k) × (n ≤ 1024) × (o ≤ x) × (x < n) × (o ≤ y) × (y < n) × (n * k ≤ length table.now) }
    ensures { result ≡ everywhere o k table.now x y (sign_at sign) 0 n }
{
    let left = x - o;
    let right = y - o;
    for d in 0..n {
        let at = d * k;
        if !agree(sign, table[at + left], table[at + right]) {
            return false;
        }
    }
    true
}

// Whether the first `size` bytes are values.
fn are_low(size: usize, table: &[u8]) -> bool
    requires { size ≤ length table.now }
    ensures { result ≡ low_bytes table.now 0 size }
{
    table[..size].iter().all(|byte| *byte <= 3)
}

// Whether a table is none for `n` elements and `k` kinds.
fn is_bad_table(n: usize, k: usize, table: &[u8]) -> bool
    requires { (n ≤ 1024) × (k ≤ n) }
    ensures { result ≡ bad_table n k table.now }
{
    let size = n * k;
    if table.len() < size {
        return true;
    }
    !are_low(size, table)
}

// Whether the statement holds: of an object by one byte, of a kind at every element.
fn holds_in(o: u32, k: u32, n: usize, table: &[u8], x: u32, y: u32, sign: u32) -> bool
    requires { (n ≡ o + k) × (n ≤ 1024) × (x < n) × (o ≤ y) × (y < n) × (n * k ≤ length table.now) }
    ensures { result ≡ satisfies o k table.now x y (sign_at sign) }
{
    let objects = o as usize;
    let kinds = k as usize;
    let subject = x as usize;
    let kind = y as usize;
    if x < o {
        let byte = table[subject * kinds + (kind - objects)];
        if sign == 0 {
            return has_t(byte);
        }
        return has_f(byte);
    }
    agree_everywhere(objects, kinds, n, table, subject, kind, sign)
}

// The test of a statement in a lent valuation: whether it holds.
pub fn test_valuation(
    o: u32,
    k: u32,
    table: &[u8],
    x: u32,
    y: u32,
    sign: u32,
) -> Result<bool, TestError>
    ensures { result ≡ tested_by o k table.now x y sign }
{
    let kinds = k as usize;
    let n = o as usize + kinds;
    if NODE_LIMIT < n {
        return Err(TestError::Refused(Refusal::TooManyNodes));
    }
    if is_bad_statement(o, n, x, y, sign) {
        return Err(TestError::Refused(Refusal::BadQuestion));
    }
    if is_bad_table(n, kinds, table) {
        return Err(TestError::BadTable);
    }
    Ok(holds_in(o, k, n, table, x, y, sign))
}
