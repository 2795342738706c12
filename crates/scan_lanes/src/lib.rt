// How the marks of one node are written for a pass over the links, and read from it.
#![tactic(auto)]

ghost use Rattle.std.specs.Prelude.{◌≡◌, ◌+◌, ◌*◌, ◌-◌, ◌<◌};
ghost use Rattle.std.specs.Int.Bits.{bit_and};
ghost use Rattle.scan_lanes.specs.Codes.{is_code, is_marks, isnt_code, isnt_marks};

// The bits 2, 4 and 5, by which a byte of the pass over "is" says that U, T and F are missing.
const IS_MISSING: u8 = 52;
// The bits 0, 1 and 6, by which it says that T, F and U stand.
const IS_STANDING: u8 = 67;
// The bits 0, 1, 3 and 6, by which a byte of the pass over "is not" says that U, F, T and U stand.
const ISNT_STANDING: u8 = 75;

// The byte for the pass over "is" whose lower half is `low`: in its upper half stands what is missing in the lower one.
fn with_upper(low: u8) -> u8
    requires { low < 8 }
    ensures { result ≡ low + (7 - low) * 16 }
{
    low + (7 - low) * 16
}

// Marks written for the pass over "is".
pub fn is_code(byte: u8) -> u8
    requires { byte < 8 }
    ensures { result ≡ is_code byte }
{
    with_upper((byte + 4) % 8)
}

// A byte after the pass over "is", written for the next one: the marks put count. What is missing stays, and what stands is its opposite.
pub fn is_folded(byte: u8) -> u8
    ensures { result ≡ is_code (is_marks byte) }
{
    byte & IS_MISSING | ((byte / 16 & 3 | (byte & 4) << 4) ^ IS_STANDING)
}

// A byte of the pass over "is", written for the pass over "is not".
pub fn isnt_code(byte: u8) -> u8
    ensures { result ≡ isnt_code (is_marks byte) }
{
    let no_f = byte / 32 % 2;
    let no_u = byte / 4 % 2;
    (byte / 16 % 4 * 8 + no_f * 4 + no_f * 2 + no_u + no_u * 64) ^ ISNT_STANDING
}

// A byte after the pass over "is not", written for the pass over "is": the marks put count.
pub fn isnt_folded(byte: u8) -> u8
    ensures { result ≡ is_code (isnt_marks byte) }
{
    let no_f = byte / 4 & byte / 16;
    with_upper(byte / 8 % 2 + (1 - no_f % 2) * 2 + (1 - byte % 2) * 4)
}

// The bits of `folded` that `byte` lacks.
pub fn new_bits(folded: u8, byte: u8) -> u8
    ensures { result ≡ bit_and folded (255 - byte) }
{
    folded & (255 - byte)
}

// The marks of a byte of the pass over "is".
pub fn is_marks(byte: u8) -> u8
    ensures { result ≡ is_marks byte }
{
    3 - byte / 16 % 4 + (1 - byte / 4 % 2) * 4
}
