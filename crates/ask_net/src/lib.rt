// The text for a net: a line for each question, or its number, the index and the cause.
#![tactic(auto)]

ghost use Rattle.std.specs.Prelude.{ℕ, ◌*◌, ◌/◌, ◌≤◌, ◌≡◌, length, Ok};
ghost use Rattle.net.specs.Table.{check_net};
ghost use Rattle.text_field.specs.Writing.{Wrote};
ghost use Rattle.ask_net.specs.Lines.{lines_of, net_text, chosen_text, plain_text};

use ask_line::{put_line, put_refused_net};
use net::{Refusal, check_net, check_plain, refusal_given};
use netfile_numbers::u16_at;
use questions_pair::{Held, ask_pair};

// A line for each question of a net that was checked, each into what remains of the text. Questions in a row about one node cost one scan. Gives how many bytes that is.
fn put_lines(
    o: u32,
    k: u32,
    n: usize,
    words: &[u32],
    set: u32,
    questions: &[u8],
    text: &mut [u8],
) -> usize
    requires net { check_net o k words.now set ≡ Ok n }
    requires room { length questions.now / 4 * 31 ≤ length text.old }
    ensures { Wrote (lines_of o k words.now set (length questions.now / 4) questions.now) text.old text.new result }
{
    let mut marks = [0u8; 1024];
    let mut held = Held { node: n, count: 0 };
    let mut at: usize = 0;
    for i in 0..questions.len() / 4 {
        let x = u16_at(questions, i * 4);
        let y = u16_at(questions, i * 4 + 2);
        let turn = ask_pair(o, k, n, words, set, x, y, held, &mut marks);
        let asked = turn.asked;
        held = turn.held;
        at += put_line(&mut text[at..], x, y, asked);
    }
    at
}

// The text for a net by what its check gave: a line for each question, or its number, the index and the cause. Gives how many bytes that is.
fn put_net(
    o: u32,
    k: u32,
    words: &[u32],
    set: u32,
    checked: Result<usize, Refusal>,
    questions: &[u8],
    text: &mut [u8],
) -> usize
    requires net { (n : ℕ) → checked ≡ Ok n → check_net o k words.now set ≡ Ok n }
    requires room { (37 ≤ length text.old) × (length questions.now / 4 * 31 ≤ length text.old) }
    ensures { Wrote (net_text o k words.now set questions.now checked) text.old text.new result }
{
    match checked {
        Ok(n) => put_lines(o, k, n, words, set, questions, text),
        Err(refusal) => {
            let reply = refusal_given(refusal);
            put_refused_net(text, reply.number, reply.first, reply.second)
        }
    }
}

// The text for a net whose words have origins, of which the set chooses. Gives how many bytes that is.
pub fn answer_net(
    o: u32,
    k: u32,
    words: &[u32],
    set: u32,
    questions: &[u8],
    text: &mut [u8],
) -> usize
    requires { (37 ≤ length text.old) × (length questions.now / 4 * 31 ≤ length text.old) }
    ensures { Wrote (chosen_text o k words.now set questions.now) text.old text.new result }
{
    let checked = check_net(o, k, words, set);
    put_net(o, k, words, set, checked, questions, text)
}

// The text for a net of plain words: all of origin 0, all chosen. Gives how many bytes that is.
pub fn answer_plain(o: u32, k: u32, words: &[u32], questions: &[u8], text: &mut [u8]) -> usize
    requires { (37 ≤ length text.old) × (length questions.now / 4 * 31 ≤ length text.old) }
    ensures { Wrote (plain_text o k words.now questions.now) text.old text.new result }
{
    let checked = check_plain(o, k, words);
    put_net(o, k, words, 1, checked, questions, text)
}
