// What follows x and y in a question's line: the answer and its count, or `refused` and a number.
#![tactic(auto)]

ghost use Rattle.std.specs.Prelude.{◌≤◌, ◌++◌, ◌∷◌, [], length};
ghost use Rattle.text_field.specs.Writing.{Wrote};
ghost use Rattle.ask_answer.specs.Ending.{answer_word, answer_fields};

use net::{Refusal, refusal_given};
use question::Answer;
use text_field::{LINE_END, SPACE, put_bytes, put_number};

// One of the four words, with the space after it. Gives how many bytes that is.
fn put_word(text: &mut [u8], answer: Answer) -> usize
    requires { 5 ≤ length text.old }
    ensures { Wrote (answer_word answer ++ (32 ∷ [])) text.old text.new result }
{
    match answer {
        Answer::None => put_bytes(text, b"none", SPACE),
        Answer::Yes => put_bytes(text, b"yes", SPACE),
        Answer::No => put_bytes(text, b"no", SPACE),
        Answer::Both => put_bytes(text, b"both", SPACE),
    }
}

// What follows x and y in a question's line. Gives how many bytes that is.
pub fn put_answer(text: &mut [u8], asked: Result<(Answer, u32), Refusal>) -> usize
    requires { 19 ≤ length text.old }
    ensures { Wrote (answer_fields asked) text.old text.new result }
{
    match asked {
        Ok((answer, count)) => {
            let at = put_word(text, answer);
            at + put_number(&mut text[at..], count, LINE_END)
        }
        Err(refusal) => {
            let at = put_bytes(text, b"refused", SPACE);
            at + put_number(&mut text[at..], refusal_given(refusal).number, LINE_END)
        }
    }
}
