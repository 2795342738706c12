// Why x is y, or is not: the text of the derivation that `explain` finds, nothing where there is none.
#![tactic(auto)]

ghost use Rattle.std.specs.Prelude.{◌≤◌, length, take};
ghost use Rattle.text_field.specs.Writing.{Wrote};
ghost use Rattle.derivation_lines.specs.Flat.{lines_of};
ghost use Rattle.why_line.specs.Text.{lines_text};
ghost use Rattle.why_lines.specs.Printable.{Printable};
ghost use Rattle.why_reason.specs.Told.{lines_room, derivation_room, why_text};

use explain::explain;
use why_lines::put_derivation;

// Places of scratch, of the reason and of its lines that do on 1,024 nodes.
const SCRATCH_ROOM: usize = 2048;

const REASON_ROOM: usize = 2050;

const LINES_ROOM: usize = 16380;

// The lines that stand in the first places. Gives how many bytes that is.
fn put_told(text: &mut [u8], told: bool, words: &[u32], places: u32, lines: &[u32]) -> usize
    requires places { (places ≤ length lines.now) × (places ≤ lines_room) }
    requires lines { Printable (take places lines.now) }
    requires room { derivation_room ≤ length text.old }
    ensures { Wrote (lines_text told words.now 0 (lines_of (take places lines.now))) text.old text.new result × (result ≤ derivation_room) }
{
    put_derivation(text, told, words, &lines[..places as usize])
}

// Why x → y (`sign` 0), or x ↛ y (`sign` 1), by the words that the set of origins chooses. Gives how many bytes that is.
pub fn put_why(
    o: u32,
    k: u32,
    words: &[u32],
    set: u32,
    x: u32,
    y: u32,
    sign: u32,
    told: bool,
    text: &mut [u8],
) -> usize
    requires { derivation_room ≤ length text.old }
    ensures { Wrote (why_text told o k words.now set x y sign) text.old text.new result × (result ≤ derivation_room) }
{
    let mut scratch = [0u16; SCRATCH_ROOM];
    let mut reason = [0u16; REASON_ROOM];
    let mut lines = [0u32; LINES_ROOM];
    let found = explain(
        o,
        k,
        words,
        set,
        x,
        y,
        sign,
        &mut scratch,
        &mut reason,
        &mut lines,
    );
    match found {
        Ok((places, _)) => put_told(text, told, words, places, &lines),
        Err(_) => 0,
    }
}
