// The writer of one line of a derivation as text, into the front of what it is lent.
#![tactic(auto)]

ghost use Rattle.std.specs.Prelude.{◌+◌, ◌<◌, ◌≤◌, ◌≡◌, ◌++◌, ◌∷◌, [], length, get_or};
ghost use Rattle.theory.specs.Words.{sign_at};
ghost use Rattle.theory.specs.Origins.{origin_of};
ghost use Rattle.text_field.specs.Writing.{Wrote};
ghost use Rattle.text_field.specs.Decimal.{decimal};
ghost use Rattle.derivation_lines.specs.Lines.{none};
ghost use Rattle.derivation_lines.specs.Flat.{ground_at, line_at};
ghost use Rattle.why_line.specs.Text.{line_room, named, said_text, link_text, ground_text, front_text, line_text};

use net_word::{head_of, origin_of, tail_of};
use text_field::{LINE_END, SPACE, put_bytes, put_number};

// A word and a number, with the byte after them. Gives how many bytes that is.
fn put_named(text: &mut [u8], word: &[u8], number: u32, after: u8) -> usize
    requires { length word.now + 12 ≤ length text.old }
    ensures { Wrote (named word.now number after) text.old text.new result }
{
    let at = put_bytes(text, word, SPACE);
    at + put_number(&mut text[at..], number, after)
}

// The sign and the head, with the spaces after them. Gives how many bytes that is.
fn put_said(text: &mut [u8], sign: u32, y: u32) -> usize
    requires { 24 ≤ length text.old }
    ensures { Wrote (said_text (sign_at sign) y) text.old text.new result }
{
    if sign == 0 {
        let at = put_named(text, b"is", y, SPACE);
        return at + put_bytes(&mut text[at..], b"    ", SPACE);
    }
    let at = put_named(text, b"is-not", y, SPACE);
    at + put_bytes(&mut text[at..], b"", SPACE)
}

// A link by its index and, where origins are told, by its origin. Gives how many bytes that is.
fn put_link(text: &mut [u8], told: bool, origin: u32, index: u32) -> usize
    requires { 36 ≤ length text.old }
    ensures { Wrote (link_text told origin index) text.old text.new result }
{
    if !told {
        return put_named(text, b"link", index, LINE_END);
    }
    let at = put_named(text, b"link", index, SPACE);
    at + put_named(&mut text[at..], b"origin", origin, LINE_END)
}

// A rule and the two lines that it is used on. Gives how many bytes that is.
fn put_two(text: &mut [u8], rule: &[u8], i: u32, j: u32) -> usize
    requires { length rule.now + 24 ≤ length text.old }
    ensures { Wrote (named rule.now i 32 ++ (decimal j ++ (10 ∷ []))) text.old text.new result }
{
    let at = put_named(text, rule, i, SPACE);
    at + put_number(&mut text[at..], j, LINE_END)
}

// The origin of the word with this index, 0 where there is none.
fn origin_at(words: &[u32], index: usize) -> u32
    ensures { result ≡ origin_of (get_or words.now index 0) }
{
    if words.len() <= index {
        return 0;
    }
    origin_of(words[index])
}

// Where a line that has a ground comes from: its rule and the two numbers after it. Gives how many bytes that is.
fn put_ground(text: &mut [u8], told: bool, words: &[u32], rule: u32, i: u32, j: u32) -> usize
    requires room { 36 ≤ length text.old }
    requires numbers { (i < 4294967295) × (j < 4294967295) }
    requires some { ground_at rule i j ≡ none → ⊥ }
    ensures { Wrote (ground_text told words.now (ground_at rule i j)) text.old text.new result }
{
    if rule == 0 {
        let origin = origin_at(words, i as usize);
        return put_link(text, told, origin, i);
    }
    if rule == 1 {
        return put_bytes(text, b"3.1", LINE_END);
    }
    if rule == 2 {
        return put_two(text, b"3.2 from", i + 1, j + 1);
    }
    if rule == 3 {
        return put_named(text, b"3.3 from", i + 1, LINE_END);
    }
    if rule == 4 {
        return put_two(text, b"3.4 from", i + 1, j + 1);
    }
    put_two(text, b"3.5 from", i + 1, j + 1)
}

// The number of line `n`, counted from 1 on, and the tail. Gives how many bytes that is.
fn put_front(text: &mut [u8], n: u32, x: u32) -> usize
    requires room { 25 ≤ length text.old }
    requires number { n < 4294967295 }
    ensures { Wrote (front_text n x) text.old text.new result }
{
    let at = put_named(text, b" ", n + 1, SPACE);
    at + put_named(&mut text[at..], b"", x, SPACE)
}

// Line `n`, by its four numbers. Gives how many bytes that is.
pub fn put_derived(
    text: &mut [u8],
    told: bool,
    words: &[u32],
    n: u32,
    word: u32,
    rule: u32,
    i: u32,
    j: u32,
) -> usize
    requires room { line_room ≤ length text.old }
    requires numbers { (n < 4294967295) × ((i < 4294967295) × (j < 4294967295)) }
    requires some { ground_at rule i j ≡ none → ⊥ }
    ensures { Wrote (line_text told words.now n (line_at word rule i j)) text.old text.new result × (result ≤ line_room) }
{
    let mut at = put_front(text, n, tail_of(word) as u32);
    at += put_said(&mut text[at..], word % 2, head_of(word) as u32);
    at += put_ground(&mut text[at..], told, words, rule, i, j);
    at
}
