// Little-endian numbers: of two bytes, of four, and a body of four bytes each.
#![tactic(auto)]

ghost use Rattle.std.specs.Prelude.{◌+◌, ◌/◌, ◌<◌, ◌≤◌, ◌≡◌, ◌++◌, length, drop};
ghost use Rattle.netfile_numbers.specs.Bytes.{u16_at, u32_at, u32s};

// The little-endian number of two bytes at `at`.
pub fn u16_at(bytes: &[u8], at: usize) -> u32
    requires { at + 2 ≤ length bytes.now }
    ensures { (result ≡ u16_at bytes.now at) × (result < 65536) }
{
    bytes[at] as u32 + bytes[at + 1] as u32 * 256
}

// The little-endian number of four bytes at `at`.
pub fn u32_at(bytes: &[u8], at: usize) -> u32
    requires { at + 4 ≤ length bytes.now }
    ensures { result ≡ u32_at bytes.now at }
{
    u16_at(bytes, at) + u16_at(bytes, at + 2) * 65536
}

// The numbers of four bytes of a body, in front of `words`.
pub fn read_words(body: &[u8], words: &mut [u32])
    requires { length body.now / 4 ≤ length words.old }
    ensures { words.new ≡ u32s (length body.now / 4) body.now ++ drop (length body.now / 4) words.old }
{
    for (i, number) in body.chunks_exact(4).enumerate() {
        words[i] = u32_at(number, 0);
    }
}
