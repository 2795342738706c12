// `fleet`: net files on standard input, each after its length in four bytes; a line for each and the total on standard output ([11]).
#![tactic(auto)]

ghost use Rattle.std.specs.Prelude.{suc, ◌-◌, ◌≤◌, ◌≡◌, cond, length};
ghost use Rattle.fleet_text.specs.Sums.{Sums};

use fleet_text::{Turn, file_size, take_turn};
use full_read::read_full;
use std::io;
use std::io::{Read, Write};

// At most so many files.
const FILES_LIMIT: u32 = 65536;

// Reads so many bytes of the input into the front of `file`. Gives how many there were.
fn read_sized<R: Read>(reader: &mut R, size: usize, file: &mut [u8]) -> usize
    requires { size ≤ length file.old }
    ensures { result ≤ size }
{
    read_full(reader, &mut file[..size])
}

// Makes the turn of a head and of the file behind it, of which `size` bytes were read, and prints what it prints, unless a write failed before.
fn print_turn<W: Write>(
    writer: &mut W,
    printed: &mut io::Result<()>,
    left: u32,
    sums: [u64; 8],
    head: &[u8],
    size: usize,
    file: &[u8],
) -> Turn
    requires few { (left ≤ 65536) × Sums (65536 - left) sums }
    requires read { size ≤ length file.now }
    ensures { (result.left ≤ 65536) × Sums (65536 - result.left) result.sums × (cond result.going (suc result.left) 0 ≤ left) }
{
    let mut text = [0u8; 256];
    let turn = take_turn(left, sums, head, &file[..size], &mut text);
    let put = turn.size;
    if printed.is_ok() {
        *printed = writer.write_all(&text[..put]);
    }
    turn
}

// One turn: the head, and the file behind it where there is one.
fn read_turn<R: Read, W: Write>(
    reader: &mut R,
    writer: &mut W,
    printed: &mut io::Result<()>,
    left: u32,
    sums: [u64; 8],
) -> Turn
    requires { (left ≤ 65536) × Sums (65536 - left) sums }
    ensures { (result.left ≤ 65536) × Sums (65536 - result.left) result.sums × (cond result.going (suc result.left) 0 ≤ left) }
{
    let mut head = [0u8; 4];
    let mut file = [0u8; 32768];
    let got = read_full(reader, &mut head);
    let size = file_size(left, &head[..got]);
    let read = read_sized(reader, size, &mut file);
    print_turn(writer, printed, left, sums, &head[..got], read, &file)
}

// Turns until one is the last. Only one file is held at a time.
fn main(rt: HostRuntime) -> io::Result<()> {
    let mut reader = rt.reader();
    let mut writer = io::writer(&rt);
    let mut printed = Ok(());
    let mut left = FILES_LIMIT;
    let mut sums = [0u64; 8];
    let mut going = true;
    // No `for`: a turn says whether another follows.
    while going {
        let next = read_turn(&mut reader, &mut writer, &mut printed, left, sums);
        going = next.going;
        left = next.left;
        sums = next.sums;
    }
    printed
}
