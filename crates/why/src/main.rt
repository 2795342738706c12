// `why`: one net file on standard input; the answers to its questions on standard output, and below each why.
#![tactic(auto)]

use full_read::read_full;
use std::io;
use std::io::Write;
use why_text::take_turn;

// Turns until one is the last. One byte more than the largest file is read, so that a larger one is seen to be larger.
fn main(rt: HostRuntime) -> io::Result<()> {
    let mut file = [0u8; 32769];
    let mut text = [0u8; 696320];
    let read = read_full(&mut rt.reader(), &mut file);
    let mut i: u32 = 0;
    let mut going = true;
    // No `for`: a turn says whether another follows.
    while going {
        let turn = take_turn(&file[..read], i, &mut text);
        let size = turn.size;
        io::writer(&rt).write_all(&text[..size])?;
        going = turn.going;
        i += 1;
    }
    Ok(())
}
