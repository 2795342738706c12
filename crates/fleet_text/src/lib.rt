// The sheet of `fleet` ([11]), turn by turn: what the next bytes of the input are, and what is printed for them and the file behind them.
#![tactic(auto)]

ghost use Rattle.std.specs.Prelude.{◌+◌, ◌-◌, ◌≤◌, ◌≡◌, true, false, length};
ghost use Rattle.text_field.specs.Writing.{Wrote};
ghost use Rattle.netfile.specs.Contents.{file_limit};
ghost use Rattle.figures_file.specs.Files.{figured_file};
ghost use Rattle.fleet_line.specs.Line.{total_line};
ghost use Rattle.fleet_text.specs.Sums.{Sums, Small, plus};
ghost use Rattle.fleet_text.specs.Fleet.{file_line, refused_end};
ghost use Rattle.fleet_text.specs.Turns.{head_of, size_of, Turned};

use figures_file::count_file;
use fleet_line::{put_numbers, put_refused, put_total};
use netfile_numbers::u32_at;

// The largest file.
const FILE_LIMIT: u32 = 32768;

// What the next four bytes of the input are, or as many as there are: its end, no length of a file, or the length of one.
#[derive(Drop)]
pub enum Head {
    End,
    Bad,
    Size(usize),
}

// What a turn leaves: how many bytes it printed, whether another follows, how many files may still come, and the sums.
#[derive(Drop)]
pub struct Turn {
    pub size: usize,
    pub going: bool,
    pub left: u32,
    pub sums: [u64; 8],
}

// The head where so many files may still come.
fn read_head(left: u32, head: &[u8]) -> Head
    ensures { result ≡ head_of left head.now }
{
    if head.len() == 0 {
        return Head::End;
    }
    if left == 0 {
        return Head::Bad;
    }
    if head.len() < 4 {
        return Head::Bad;
    }
    let size = u32_at(head, 0);
    if FILE_LIMIT < size {
        return Head::Bad;
    }
    Head::Size(size as usize)
}

// How many bytes are to be read behind a head.
pub fn file_size(left: u32, head: &[u8]) -> usize
    ensures { (result ≡ size_of (head_of left head.now)) × (result ≤ file_limit) }
{
    let first = read_head(left, head);
    match first {
        Head::End => 0,
        Head::Bad => 0,
        Head::Size(size) => size,
    }
}

// Number 14 and the total. Gives how many bytes that is.
fn put_refused_end(text: &mut [u8], sums: &[u64]) -> usize
    requires { (length sums.now ≡ 8) × (193 ≤ length text.old) }
    ensures { Wrote (refused_end sums.now) text.old text.new result }
{
    let mut at = put_refused(text, 14);
    at += put_total(&mut text[at..], sums);
    at
}

// The line of a file. Gives how many bytes that is.
fn put_line(text: &mut [u8], number: u32, counts: &[u64]) -> usize
    requires { (length counts.now ≡ 8) × (193 ≤ length text.old) }
    ensures { Wrote (file_line number counts.now) text.old text.new result }
{
    if number == 0 {
        return put_numbers(text, counts);
    }
    put_refused(text, number)
}

// The sums with eight counts more.
fn add_counts(mut sums: [u64; 8], counts: &[u64]) -> [u64; 8]
    requires { Sums 65535 sums × Small counts.now }
    ensures { result ≡ plus sums counts.now }
{
    for (i, &count) in counts.iter().enumerate() {
        sums[i] += count;
    }
    sums
}

// The turn of a whole file: its line in front of the text, and what it adds.
fn take_file(left: u32, sums: [u64; 8], file: &[u8], text: &mut [u8]) -> Turn
    requires few { (1 ≤ left) × Sums 65535 sums }
    requires room { 193 ≤ length text.old }
    ensures line { Wrote (file_line (figured_file file.now).number (figured_file file.now).counts) text.old text.new result.size }
    ensures state { (result.going ≡ true) × (result.left ≡ left - 1) × (result.sums ≡ plus sums (figured_file file.now).counts) }
{
    let figured = count_file(file);
    let size = put_line(text, figured.number, &figured.counts);
    let sums = add_counts(sums, &figured.counts);
    Turn {
        size,
        going: true,
        left: left - 1,
        sums,
    }
}

// The last turn of an input of whole files: the total.
fn close_turn(left: u32, sums: [u64; 8], text: &mut [u8]) -> Turn
    requires { Sums 65536 sums × (193 ≤ length text.old) }
    ensures line { Wrote (total_line sums) text.old text.new result.size }
    ensures state { (result.going ≡ false) × (result.left ≡ left) × (result.sums ≡ sums) }
{
    let size = put_total(text, &sums);
    Turn {
        size,
        going: false,
        left,
        sums,
    }
}

// The last turn of any other input: number 14 and the total.
fn refuse_turn(left: u32, sums: [u64; 8], text: &mut [u8]) -> Turn
    requires { Sums 65536 sums × (193 ≤ length text.old) }
    ensures line { Wrote (refused_end sums) text.old text.new result.size }
    ensures state { (result.going ≡ false) × (result.left ≡ left) × (result.sums ≡ sums) }
{
    let size = put_refused_end(text, &sums);
    Turn {
        size,
        going: false,
        left,
        sums,
    }
}

// One turn: what is printed for a head and for what was read of the file behind it, and the state after it.
pub fn take_turn(left: u32, sums: [u64; 8], head: &[u8], file: &[u8], text: &mut [u8]) -> Turn
    requires few { (left ≤ 65536) × Sums (65536 - left) sums }
    requires room { 193 ≤ length text.old }
    ensures { Turned left sums file.now (head_of left head.now) text.old text.new result }
{
    let first = read_head(left, head);
    match first {
        Head::End => close_turn(left, sums, text),
        Head::Bad => refuse_turn(left, sums, text),
        Head::Size(size) => {
            if file.len() < size {
                return refuse_turn(left, sums, text);
            }
            take_file(left, sums, file, text)
        }
    }
}
