// The net's own valuation, written into a lent table: what a none is shown by.
#![tactic(auto)]

ghost use Rattle.std.specs.Prelude.{◌≡◌, ◌+◌, ◌-◌, ◌*◌, ◌≤◌, length, drop};
ghost use Rattle.theory_laws.specs.Over.{over};
ghost use Rattle.theory.specs.Origins.{chosen, NetFrom};
ghost use Rattle.valuation.specs.Values.{value_row, own_values};
ghost use Rattle.valuation.specs.Table.{valuation_outcome, valuation_clauses, valuation_done, filled_by};
ghost use Rattle.valuation.specs.declared.ValuationError.TheVariants.{Refused};
ghost use Rattle.net.specs.Clauses.{call};

use net::{Refusal, check_net};
use question::{answer_at, answer_number, full_scan};
use scan_start::clear;

// Why a table was not filled: it is too short (number 13), or a refusal.
#[derive(Clone, Copy)]
pub enum ValuationError {
    ShortTable,
    Refused(Refusal),
}

impl From<Refusal> for ValuationError {
    ghost from_gives = { λ refusal e. e ≡ Refused refusal };

    fn from(refusal: Refusal) -> ValuationError {
        ValuationError::Refused(refusal)
    }
}

// The row of the element with these marks, into the front of the table.
fn put_row(o: usize, n: usize, marks: &[u8], table: &mut [u8])
    requires { (o ≤ n) × (n ≤ length marks.now) × (n - o ≤ length table.old) }
    ensures { table.new ≡ over (value_row marks.now o (n - o)) table.old }
{
    for y in o..n {
        let mark = marks[y];
        let byte = answer_number(answer_at(mark));
        table[y - o] = byte;
    }
}

// Each element's row into what remains of the table, by one scan. The marks of the nodes are spoilt.
fn put_rows(o: u32, k: u32, n: usize, words: &[u32], set: u32, table: &mut [u8], marks: &mut [u8])
    requires net { NetFrom o k words.now }
    requires size { n ≡ o + k }
    requires fits { n * k ≤ length table.old }
    requires room { n ≤ length marks.old }
    ensures written { table.new ≡ over (own_values o k (chosen set words.now)) table.old }
    ensures past { drop n marks.new ≡ drop n marks.old }
    ensures long { length marks.new ≡ length marks.old }
{
    let objects = o as usize;
    let kinds = k as usize;
    let nodes = n as u32;
    let mut at = 0;
    for x in 0..nodes {
        full_scan(o, k, n, words, set, x, marks);
        put_row(objects, n, marks, &mut table[at..]);
        at += kinds;
    }
}

// Numbers 5, 13 and 0, on a net that was checked.
fn fill_checked(
    o: u32,
    k: u32,
    n: usize,
    words: &[u32],
    set: u32,
    table: &mut [u8],
    marks: &mut [u8],
) -> Result<(), ValuationError>
    requires net { NetFrom o k words.now }
    requires size { n ≡ o + k }
    ensures { valuation_outcome result table.new marks.new ≡ call (valuation_clauses k table.old marks.old n) (valuation_done (own_values o k (chosen set words.now)) table.old marks.old n) }
{
    if marks.len() < n {
        return Err(ValuationError::Refused(Refusal::ShortBuffer));
    }
    let places = n * k as usize;
    if table.len() < places {
        return Err(ValuationError::ShortTable);
    }
    put_rows(o, k, n, words, set, table, marks);
    clear(n, marks);
    Ok(())
}

// The valuation of the words that the set chooses.
pub fn fill_valuation(
    o: u32,
    k: u32,
    words: &[u32],
    set: u32,
    table: &mut [u8],
    marks: &mut [u8],
) -> Result<(), ValuationError>
    ensures { valuation_outcome result table.new marks.new ≡ filled_by o k words.now set table.old marks.old }
{
    let n = check_net(o, k, words, set)?;
    fill_checked(o, k, n, words, set, table, marks)
}
