// The entries of a net file's contents.
#![tactic(auto)]

ghost use Rattle.std.specs.Prelude.{◌<◌, ◌≤◌, ◌≡◌, length};
ghost use Rattle.netfile_entry.specs.Entries.{entries, contents_size, right_length, right_end, entry_at, fourth_at};

use netfile_numbers::u32_at;

// How many entries the contents have, by the first start.
pub fn entry_count(file: &[u8]) -> usize
    requires { 4 ≤ length file.now }
    ensures { result ≡ entries file.now }
{
    if u32_at(file, 0) == 32 { 4 } else { 3 }
}

// Whether body `n` may have this length.
fn right_length(n: usize, size: usize) -> bool
    ensures { result ≡ right_length n size }
{
    if n == 0 {
        return size == 8;
    }
    if n == 3 {
        return size == 4;
    }
    size % 4 == 0
}

// Whether body `n` of `count` may end there in a file of this size.
fn right_end(count: usize, n: usize, end: usize, size: usize) -> bool
    requires { n < count }
    ensures { result ≡ right_end count n end size }
{
    if n + 1 == count {
        end == size
    } else {
        end <= size
    }
}

// Entry `n` of `count`, whose body has to start at `from`: the start and the end of its body, none where it cannot be opened. The end is added wider than the four bytes of its parts.
pub fn open_entry(count: usize, file: &[u8], n: usize, from: usize) -> Option<(usize, usize)>
    requires { (n < count) × (count < 5) × (contents_size count ≤ length file.now) }
    ensures { result ≡ entry_at count file.now n from }
{
    let start = u32_at(file, n * 8) as usize;
    let size = u32_at(file, n * 8 + 4) as usize;
    if start != from {
        return None;
    }
    if !right_length(n, size) {
        return None;
    }
    if !right_end(count, n, from + size, file.len()) {
        return None;
    }
    Some((from, from + size))
}

// The fourth entry of `count`, whose body has to start at `from`; an empty one there where `count` is three.
pub fn open_fourth(count: usize, file: &[u8], from: usize) -> Option<(usize, usize)>
    requires { (2 < count) × (count < 5) × (contents_size count ≤ length file.now) }
    ensures { result ≡ fourth_at count file.now from }
{
    if count == 3 {
        return Some((from, from));
    }
    open_entry(count, file, 3, from)
}
