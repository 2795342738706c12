// The writer of one field of a line, bytes or a number in decimal, into the front of what it is lent.
#![tactic(auto)]

ghost use Rattle.std.specs.Prelude.{◌+◌, ◌<◌, ◌≤◌, ◌≡◌, ◌++◌, ◌∷◌, [], length, drop};
ghost use Rattle.text_field.specs.Writing.{Wrote};
ghost use Rattle.text_field.specs.Decimal.{decimal};

// The bytes after a field: one space, or at the end of a line byte 10.
pub const SPACE: u8 = 32;

pub const LINE_END: u8 = 10;

// A field of fixed bytes, with the byte after it. Gives how many bytes that is.
pub fn put_bytes(text: &mut [u8], field: &[u8], after: u8) -> usize
    requires { length field.now + 1 ≤ length text.old }
    ensures { Wrote (field.now ++ (after ∷ [])) text.old text.new result }
{
    let size = field.len();
    text[..size].copy_from_slice(field);
    text[size] = after;
    size + 1
}

// The decimal digits of `n`, at the end of `digits`. Gives where they start.
fn spell(digits: &mut [u8], n: u32) -> usize
    requires { 10 ≡ length digits.old }
    ensures { (drop result digits.new ≡ decimal n) × (result < 10) }
{
    let mut rest = n;
    for at in (0..10).rev() {
        digits[at] = 48 + (rest % 10) as u8;
        rest /= 10;
        if rest == 0 {
            return at;
        }
    }
    0
}

// A number in decimal, with the byte after it. Gives how many bytes that is.
pub fn put_number(text: &mut [u8], n: u32, after: u8) -> usize
    requires { length (decimal n) + 1 ≤ length text.old }
    ensures { Wrote (decimal n ++ (after ∷ [])) text.old text.new result }
{
    let mut digits = [0u8; 10];
    let start = spell(&mut digits, n);
    put_bytes(text, &digits[start..], after)
}
