// The whole text of `ask`: what it prints for a file.
#![tactic(auto)]

ghost use Rattle.std.specs.Prelude.{◌*◌, ◌/◌, ◌≤◌, ◌≡◌, ◌++◌, length, drop};
ghost use Rattle.netfile.specs.Contents.{file_limit};
ghost use Rattle.text_field.specs.Writing.{Wrote};
ghost use Rattle.ask_text.specs.Text.{bodies_text, text_of};

use ask_line::put_report;
use ask_net::{answer_net, answer_plain};
use netfile::{read_bodies, read_contents};
use netfile_numbers::{read_words, u32_at};
use text_field::LINE_END;

// The text for the bodies of a file; without a set its words are plain. Gives how many bytes that is.
fn answer_bodies(
    nodes: &[u8],
    links: &[u8],
    questions: &[u8],
    origins: &[u8],
    text: &mut [u8],
) -> usize
    requires nodes { 8 ≤ length nodes.now }
    requires links { length links.now ≤ file_limit }
    requires set { (length origins.now ≡ 0 → ⊥) → 4 ≤ length origins.now }
    requires room { (37 ≤ length text.old) × (length questions.now / 4 * 31 ≤ length text.old) }
    ensures { Wrote (bodies_text nodes.now links.now questions.now origins.now) text.old text.new result }
{
    let mut words = [0u32; 8192];
    read_words(links, &mut words);
    let size = links.len() / 4;
    let o = u32_at(nodes, 0);
    let k = u32_at(nodes, 4);
    if origins.len() == 0 {
        return answer_plain(o, k, &words[..size], questions, text);
    }
    let set = u32_at(origins, 0);
    answer_net(o, k, &words[..size], set, questions, text)
}

// The whole text for a file of any length, in front of `text`, and how many bytes it has.
pub fn answer_file(file: &[u8], text: &mut [u8; 262144]) -> usize
    ensures { (text.new ≡ text_of file.now ++ drop (length (text_of file.now)) text.old) × (result ≡ length (text_of file.now)) }
{
    match read_contents(file) {
        Ok(_) => {
            let bodies = read_bodies(file);
            answer_bodies(bodies[0], bodies[1], bodies[2], bodies[3], text)
        }
        Err(malformed) => put_report(text, b"file", 9, malformed.place, LINE_END),
    }
}
