// `ask`: one net file on standard input, its text on standard output.
#![tactic(auto)]

use full_read::read_full;
use std::io;
use std::io::Write;

// One byte more than the largest file is read, so that a larger one is seen to be larger.
fn main(rt: HostRuntime) -> io::Result<()> {
    let mut file = [0u8; 32769];
    let mut text = [0u8; 262144];
    let read = read_full(&mut rt.reader(), &mut file);
    let size = ask_text::answer_file(&file[..read], &mut text);
    io::writer(&rt).write_all(&text[..size])
}
