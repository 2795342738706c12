// The writer of one line of `ask`'s text, into the front of what it is lent.
#![tactic(auto)]

ghost use Rattle.std.specs.Prelude.{◌+◌, ◌<◌, ◌≤◌, ◌++◌, ◌∷◌, [], length};
ghost use Rattle.text_field.specs.Writing.{Wrote};
ghost use Rattle.text_field.specs.Decimal.{decimal};
ghost use Rattle.ask_answer.specs.Ending.{field as specs·field, last_field};
ghost use Rattle.ask_line.specs.Line.{net_word, line_of};

use ask_answer::put_answer;
use net::Refusal;
use question::Answer;
use text_field::{LINE_END, SPACE, put_bytes, put_number};

// A question's line. Gives how many bytes that is.
pub fn put_line(text: &mut [u8], x: u32, y: u32, asked: Result<(Answer, u32), Refusal>) -> usize
    requires { (x < 65536) × ((y < 65536) × (31 ≤ length text.old)) }
    ensures { Wrote (line_of x y asked) text.old text.new result × (result ≤ 31) }
{
    let mut at = put_number(text, x, SPACE);
    at += put_number(&mut text[at..], y, SPACE);
    at += put_answer(&mut text[at..], asked);
    at
}

// A word and two numbers, with the byte after them. Gives how many bytes that is.
pub fn put_report(text: &mut [u8], word: &[u8], number: u32, value: u32, after: u8) -> usize
    requires { length word.now + 23 ≤ length text.old }
    ensures { Wrote (specs·field word.now (specs·field (decimal number) (decimal value ++ (after ∷ [])))) text.old text.new result }
{
    let mut at = put_bytes(text, word, SPACE);
    at += put_number(&mut text[at..], number, SPACE);
    at += put_number(&mut text[at..], value, after);
    at
}

// The line of a refused net: its number, the index and the cause. Gives how many bytes that is.
pub fn put_refused_net(text: &mut [u8], number: u32, index: u32, cause: u32) -> usize
    requires { 37 ≤ length text.old }
    ensures { Wrote (specs·field net_word (specs·field (decimal number) (specs·field (decimal index) (last_field (decimal cause))))) text.old text.new result }
{
    let at = put_report(text, b"net", number, index, SPACE);
    at + put_number(&mut text[at..], cause, LINE_END)
}
