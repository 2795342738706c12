// The text of `why`, turn by turn: the line of each question, and below it why.
#![tactic(auto)]

ghost use Rattle.std.specs.Prelude.{◌≤◌, ◌≡◌, length};
ghost use Rattle.text_field.specs.Writing.{Wrote};
ghost use Rattle.netfile.specs.Contents.{file_limit};
ghost use Rattle.why_question.specs.Because.{question_room};
ghost use Rattle.why_text.specs.Turns.{question_at, net_part, bodies_part, part_of, Turned};

use ask_line::{put_refused_net, put_report};
use net::{Refusal, check_net, check_plain, refusal_given};
use netfile::{read_bodies, read_contents};
use netfile_numbers::{read_words, u16_at, u32_at};
use text_field::LINE_END;
use why_question::put_question;

// What a turn leaves: how many bytes it printed, and whether another follows.
#[derive(Drop)]
pub struct Turn {
    pub size: usize,
    pub going: bool,
}

// The text of question `i`, nothing where there is none. Gives how many bytes that is.
fn put_question_at(
    o: u32,
    k: u32,
    words: &[u32],
    set: u32,
    told: bool,
    questions: &[u8],
    i: usize,
    text: &mut [u8],
) -> usize
    requires { question_room ≤ length text.old }
    ensures { Wrote (question_at told o k words.now set questions.now i) text.old text.new result }
{
    if questions.len() / 4 <= i {
        return 0;
    }
    let x = u16_at(questions, i * 4);
    let y = u16_at(questions, i * 4 + 2);
    put_question(o, k, words, set, x, y, told, text)
}

// Turn `i` for a net by what its check gave.
fn turn_net(
    o: u32,
    k: u32,
    words: &[u32],
    set: u32,
    told: bool,
    checked: Result<usize, Refusal>,
    questions: &[u8],
    i: u32,
    text: &mut [u8],
) -> Turn
    requires { question_room ≤ length text.old }
    ensures { Turned (net_part told o k words.now set questions.now i checked) text.old text.new result }
{
    match checked {
        Ok(_) => {
            let size = put_question_at(o, k, words, set, told, questions, i as usize, text);
            Turn {
                size,
                going: i as usize + 1 < questions.len() / 4,
            }
        }
        Err(refusal) => {
            let reply = refusal_given(refusal);
            let size = put_refused_net(text, reply.number, reply.first, reply.second);
            Turn { size, going: false }
        }
    }
}

// Turn `i` for the bodies of a file; without a set its words are plain, and no origin is told.
fn turn_bodies(
    nodes: &[u8],
    links: &[u8],
    questions: &[u8],
    origins: &[u8],
    i: u32,
    text: &mut [u8],
) -> Turn
    requires nodes { 8 ≤ length nodes.now }
    requires links { length links.now ≤ file_limit }
    requires set { (length origins.now ≡ 0 → ⊥) → 4 ≤ length origins.now }
    requires room { question_room ≤ length text.old }
    ensures { Turned (bodies_part nodes.now links.now questions.now origins.now i) text.old text.new result }
{
    let mut words = [0u32; 8192];
    read_words(links, &mut words);
    let size = links.len() / 4;
    let o = u32_at(nodes, 0);
    let k = u32_at(nodes, 4);
    if origins.len() == 0 {
        let plain = check_plain(o, k, &words[..size]);
        return turn_net(o, k, &words[..size], 1, false, plain, questions, i, text);
    }
    let set = u32_at(origins, 0);
    let checked = check_net(o, k, &words[..size], set);
    turn_net(o, k, &words[..size], set, true, checked, questions, i, text)
}

// One turn: what is printed for question `i` of a file of any length, and whether another follows.
pub fn take_turn(file: &[u8], i: u32, text: &mut [u8]) -> Turn
    requires { question_room ≤ length text.old }
    ensures { Turned (part_of file.now i) text.old text.new result }
{
    match read_contents(file) {
        Ok(_) => {
            let bodies = read_bodies(file);
            turn_bodies(bodies[0], bodies[1], bodies[2], bodies[3], i, text)
        }
        Err(malformed) => {
            let size = put_report(text, b"file", 9, malformed.place, LINE_END);
            Turn { size, going: false }
        }
    }
}
