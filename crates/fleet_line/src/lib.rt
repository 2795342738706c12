// The writers of the lines of the sheet of `fleet` ([11]), each into the front of what it is lent.
#![tactic(auto)]

ghost use Rattle.std.specs.Prelude.{◌+◌, ◌*◌, ◌≤◌, ◌≡◌, cond, ◌++◌, ◌∷◌, [], eqb, length};
ghost use Rattle.text_field.specs.Writing.{Wrote};
ghost use Rattle.fleet_line.specs.Line.{wide, numbers_line, refused_line, total_line};

use text_field::{LINE_END, SPACE, put_bytes, put_number};

// A number of eight bytes in decimal, with the byte after it. Gives how many bytes that is.
fn put_wide(text: &mut [u8], n: u64, after: u8) -> usize
    requires { 21 ≤ length text.old }
    ensures { Wrote (wide n ++ (after ∷ [])) text.old text.new result }
{
    let mut digits = [0u8; 20];
    let size = io::decimal(n, &mut digits);
    put_bytes(text, &digits[..size], after)
}

// The byte after number `i` of so many.
fn after_number(i: usize, size: usize) -> u8
    requires { i + 1 ≤ size }
    ensures { result ≡ cond (eqb (i + 1) size) 10 32 }
{
    if i + 1 == size { LINE_END } else { SPACE }
}

// Numbers in a line. Gives how many bytes that is.
pub fn put_numbers(text: &mut [u8], numbers: &[u64]) -> usize
    requires { length numbers.now * 21 ≤ length text.old }
    ensures { Wrote (numbers_line numbers.now) text.old text.new result }
{
    let mut at = 0;
    for (i, &number) in numbers.iter().enumerate() {
        let after = after_number(i, numbers.len());
        at += put_wide(&mut text[at..], number, after);
    }
    at
}

// The line of a refusal. Gives how many bytes that is.
pub fn put_refused(text: &mut [u8], number: u32) -> usize
    requires { 19 ≤ length text.old }
    ensures { Wrote (refused_line number) text.old text.new result }
{
    let mut at = put_bytes(text, b"refused", SPACE);
    at += put_number(&mut text[at..], number, LINE_END);
    at
}

// The last line. Gives how many bytes that is.
pub fn put_total(text: &mut [u8], sums: &[u64]) -> usize
    requires { length sums.now * 21 + 6 ≤ length text.old }
    ensures { Wrote (total_line sums.now) text.old text.new result }
{
    let mut at = put_bytes(text, b"total", SPACE);
    at += put_numbers(&mut text[at..], sums);
    at
}
