// The reader of a net file: its contents, and its bodies as stretches of the file itself.
#![tactic(auto)]

ghost use Rattle.std.specs.Prelude.{◌≤◌, ◌≡◌, length, map};
ghost use Rattle.netfile.specs.Contents.{wrong_size, told_entries, contents_of, stretch, bodies_of};

use netfile_entry::{entry_count, open_entry, open_fourth};

// The size of an entry.
const ENTRY_SIZE: usize = 8;

// The size of the smallest contents, which are three entries.
const LEAST_SIZE: usize = 24;

// The largest file.
const FILE_LIMIT: usize = 32768;

// Why a file is refused: the place of what is wrong with it, which is told with a 9.
#[derive(Clone, Copy)]
pub struct Malformed {
    pub place: u32,
}

// Whether the contents do not fit in the file, or it is above the limit.
fn wrong_size(file: &[u8]) -> bool
    ensures { result ≡ wrong_size file.now }
{
    if file.len() < LEAST_SIZE {
        return true;
    }
    if file.len() < entry_count(file) * ENTRY_SIZE {
        return true;
    }
    FILE_LIMIT < file.len()
}

// The entries of a file of any length: the start and the end of each body. With three entries the fourth is an empty one at the end of the file.
fn read_entries(file: &[u8]) -> Result<[(usize, usize); 4], Malformed>
    ensures { result ≡ told_entries file.now }
{
    if wrong_size(file) {
        return Err(Malformed { place: 3 });
    }
    let count = entry_count(file);
    let Some(nodes) = open_entry(count, file, 0, count * ENTRY_SIZE) else {
        return Err(Malformed { place: 0 });
    };
    let Some(words) = open_entry(count, file, 1, nodes.1) else {
        return Err(Malformed { place: 1 });
    };
    let Some(questions) = open_entry(count, file, 2, words.1) else {
        return Err(Malformed { place: 2 });
    };
    let Some(set) = open_fourth(count, file, questions.1) else {
        return Err(Malformed { place: 4 });
    };
    Ok([nodes, words, questions, set])
}

// The contents of a file of any length: where the questions start and where the set starts, which is the end of a file of three entries; or the place of a 9.
pub fn read_contents(file: &[u8]) -> Result<(usize, usize), Malformed>
    ensures { result ≡ contents_of file.now }
{
    let [_, _, questions, set] = read_entries(file)?;
    Ok((questions.0, set.0))
}

// The body of an entry: the stretch of the file from its start to its end.
fn body<'a>(file: &'a [u8], entry: (usize, usize)) -> &'a [u8]
    requires { (entry.0 ≤ entry.1) × (entry.1 ≤ length file.now) }
    ensures { result.now ≡ stretch file.now entry.0 entry.1 }
{
    &file[entry.0..entry.1]
}

// The four bodies of a file of any length, each the stretch of the file itself; with three entries the fourth is empty, and so are all of a malformed file.
pub fn read_bodies<'a>(file: &'a [u8]) -> [&'a [u8]; 4]
    ensures { map (λ x. x.now) result ≡ bodies_of file.now }
{
    let Ok(entries) = read_entries(file) else {
        return [&file[..0]; 4];
    };
    let [nodes, words, questions, set] = entries;
    [
        body(file, nodes),
        body(file, words),
        body(file, questions),
        body(file, set),
    ]
}
