// The text of a derivation: a line for each of its lines, into the front of what it is lent.
#![tactic(auto)]

ghost use Rattle.std.specs.Prelude.{◌*◌, ◌/◌, ◌≤◌, length};
ghost use Rattle.text_field.specs.Writing.{Wrote};
ghost use Rattle.derivation_lines.specs.Flat.{lines_of};
ghost use Rattle.why_line.specs.Text.{line_room, lines_text};
ghost use Rattle.why_lines.specs.Printable.{Printable};

use why_line::put_derived;

// All lines, each into what remains of the text. Gives how many bytes that is.
pub fn put_derivation(text: &mut [u8], told: bool, words: &[u32], list: &[u32]) -> usize
    requires room { (length list.now ≤ 65536) × (length list.now / 4 * line_room ≤ length text.old) }
    requires lines { Printable list.now }
    ensures { Wrote (lines_text told words.now 0 (lines_of list.now)) text.old text.new result }
{
    let mut at = 0;
    for (n, line) in list.chunks_exact(4).enumerate() {
        let word = line[0];
        let rule = line[1];
        let i = line[2];
        let j = line[3];
        at += put_derived(&mut text[at..], told, words, n as u32, word, rule, i, j);
    }
    at
}
