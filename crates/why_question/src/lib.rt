// What `why` prints for one question: the line of `ask`, and below it why.
#![tactic(auto)]

ghost use Rattle.std.specs.Prelude.{◌<◌, ◌≤◌, length};
ghost use Rattle.text_field.specs.Writing.{Wrote};
ghost use Rattle.why_question.specs.Because.{both_room, question_room, both_text, because_text, asked_text, question_text};

use ask_line::put_line;
use net::Refusal;
use question::{Answer, ask_question};
use text_field::{LINE_END, put_bytes};
use why_reason::put_why;

// Why x is y, and then why it is not. Gives how many bytes that is.
fn put_both(
    o: u32,
    k: u32,
    words: &[u32],
    set: u32,
    x: u32,
    y: u32,
    told: bool,
    text: &mut [u8],
) -> usize
    requires { both_room ≤ length text.old }
    ensures { Wrote (both_text told o k words.now set x y) text.old text.new result × (result ≤ both_room) }
{
    let at = put_why(o, k, words, set, x, y, 0, told, text);
    at + put_why(o, k, words, set, x, y, 1, told, &mut text[at..])
}

// Why the answer is what it is; that the net is silent where it is none. Gives how many bytes that is.
fn put_because(
    o: u32,
    k: u32,
    words: &[u32],
    set: u32,
    x: u32,
    y: u32,
    told: bool,
    answer: Answer,
    text: &mut [u8],
) -> usize
    requires { both_room ≤ length text.old }
    ensures { Wrote (because_text told o k words.now set x y answer) text.old text.new result × (result ≤ both_room) }
{
    match answer {
        Answer::None => put_bytes(text, b"  the net is silent", LINE_END),
        Answer::Yes => put_why(o, k, words, set, x, y, 0, told, text),
        Answer::No => put_why(o, k, words, set, x, y, 1, told, text),
        Answer::Both => put_both(o, k, words, set, x, y, told, text),
    }
}

// The same of a question, nothing where it is refused. Gives how many bytes that is.
fn put_asked(
    o: u32,
    k: u32,
    words: &[u32],
    set: u32,
    x: u32,
    y: u32,
    told: bool,
    asked: Result<(Answer, u32), Refusal>,
    text: &mut [u8],
) -> usize
    requires { both_room ≤ length text.old }
    ensures { Wrote (asked_text told o k words.now set x y asked) text.old text.new result × (result ≤ both_room) }
{
    match asked {
        Ok((answer, _)) => put_because(o, k, words, set, x, y, told, answer, text),
        Err(_) => 0,
    }
}

// The line of a question, and below it why. Gives how many bytes that is.
pub fn put_question(
    o: u32,
    k: u32,
    words: &[u32],
    set: u32,
    x: u32,
    y: u32,
    told: bool,
    text: &mut [u8],
) -> usize
    requires { (x < 65536) × ((y < 65536) × (question_room ≤ length text.old)) }
    ensures { Wrote (question_text told o k words.now set x y) text.old text.new result × (result ≤ question_room) }
{
    let mut marks = [0u8; 1024];
    let asked = ask_question(o, k, words, set, x, y, &mut marks);
    let at = put_line(text, x, y, asked);
    at + put_asked(o, k, words, set, x, y, told, asked, &mut text[at..])
}
