// The lines of `ask`, as bytes: what has no room is left out.
use crate::closure::{CELLS, Table};
use crate::file::{NetFile, read_numbers};
use crate::net::Net;
use crate::places::{Filling, front};
use crate::reply::{Refusal, Reply};
use crate::rounds::{Markers, whole_budget};

// Appends a number in decimal and the byte that follows it.
fn put_field(text: &mut Filling<u8>, number: u32, follows: u8) {
    for power in [
        1000000000, 100000000, 10000000, 1000000, 100000, 10000, 1000, 100, 10, 1,
    ] {
        if power == 1 || number >= power {
            text.push(b'0' + (number / power % 10) as u8);
        }
    }
    text.push(follows);
}

// Appends the line of a malformed file.
fn put_file(text: &mut Filling<u8>, place: u32) {
    text.extend(b"file 9 ");
    put_field(text, place, b'\n');
}

// Appends the line of a refused net: its number, the index and the cause.
fn put_net(text: &mut Filling<u8>, net: Reply) {
    text.extend(b"net ");
    put_field(text, net.number, b' ');
    put_field(text, net.first, b' ');
    put_field(text, net.second, b'\n');
}

// Appends one of the four words and a space.
fn put_answer(text: &mut Filling<u8>, answer: u32) {
    match answer {
        0 => text.extend(b"none "),
        1 => text.extend(b"yes "),
        2 => text.extend(b"no "),
        _ => text.extend(b"both "),
    }
}

// Appends the line of one question of a legal net: x and y, the answer off its table, and the scan's count.
fn put_question(text: &mut Filling<u8>, net: Net, support: &Table, x: u32, y: u32) {
    put_field(text, x, b' ');
    put_field(text, y, b' ');
    if net.nodes.statement(x, y, 0).is_err() {
        text.extend(b"refused 4\n");
        return;
    }
    put_answer(text, support.answer(x, y));
    let budget = whole_budget(net.nodes);
    let count = Markers::from(x).run(net, budget).unwrap_or(budget);
    put_field(text, count, b'\n');
}

// Numbers of the net of a file: without a set its words are plain ones.
fn check(net: Net, set: Option<u32>) -> Result<(), Refusal> {
    match set {
        Some(_) => net.check(),
        None => net.nodes.check_list(net.words),
    }
}

// The lines of a well-formed file.
fn put_lines(text: &mut Filling<u8>, file: NetFile) {
    let mut words = [0u32; 8192];
    let count = read_numbers(file.words, &mut words);
    let net = Net {
        nodes: file.nodes,
        words: front(&words, count),
        set: file.set.unwrap_or(15),
    };
    if let Err(refusal) = check(net, file.set) {
        put_net(text, Reply::from(refusal));
        return;
    }
    let mut room = [0; CELLS];
    let support = Table::of(net, &mut room);
    let mut pairs = [0u32; 8192];
    let count = read_numbers(file.questions, &mut pairs);
    for &pair in front(&pairs, count) {
        put_question(text, net, &support, pair % 65536, pair / 65536);
    }
}

// The text that `ask` prints for a file, written in front of `text`, and its length: what has no room is left out.
pub fn ask_text(file: &[u8], text: &mut [u8]) -> usize {
    let mut text = Filling::new(text);
    match NetFile::of(file) {
        Ok(opened) => put_lines(&mut text, opened),
        Err(Refusal::File { place }) => put_file(&mut text, place),
        Err(_) => {}
    }
    text.count()
}
