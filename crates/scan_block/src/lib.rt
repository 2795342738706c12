// The signs of words, a block of eight at a time: what a pass over the words of one sign need not look at.
#![tactic(auto)]

ghost use Rattle.std.specs.Prelude.{◌≡◌, false, ◌+◌, ◌%◌, ◌≤◌, length};
ghost use Rattle.scan_block.specs.Signs.{None, NoIsnt};

// The signs.
pub const IS: u32 = 0;

pub const ISNT: u32 = 1;

// How many words are looked at together.
pub const BLOCK: usize = 8;

// How many words there are to each block that is looked at when it is asked whether looking pays.
const SPREAD: usize = 512;

// Whether a word says "is not", and of which sign there are few words: blocks without one are many enough that it pays to look for them.
#[derive(Clone, Copy)]
pub struct Signs {
    pub isnts: bool,
    pub few_is: bool,
    pub few_isnt: bool,
}

// Whether a word of a block says "is not": then one of its words is odd.
fn some_isnt(words: &[u32], from: usize) -> bool
    requires { from + 8 ≤ length words.now }
    ensures { result ≡ false → None 1 words.now from 8 }
{
    let any = words[from..from + BLOCK]
        .iter()
        .fold(0, |any, word| any | word);
    any % 2 == 1
}

// Whether a word of a block says "is": then not all of its words are odd.
fn some_is(words: &[u32], from: usize) -> bool
    requires { from + 8 ≤ length words.now }
    ensures { result ≡ false → None 0 words.now from 8 }
{
    let all = words[from..from + BLOCK]
        .iter()
        .fold(1, |all, word| all & word);
    all % 2 == 0
}

// Whether one of the words of a block has the sign: where none has, all of them may be passed over. Only a `false` is relied on.
pub fn has_sign(sign: u32, words: &[u32], from: usize) -> bool
    requires { from + 8 ≤ length words.now }
    ensures { result ≡ false → None sign words.now from 8 }
{
    if sign == IS {
        return some_is(words, from);
    }
    if sign == ISNT {
        return some_isnt(words, from);
    }
    false
}

// Whether a word of the whole blocks, which end at `whole`, says "is not".
fn blocks_have_isnt(words: &[u32], whole: usize) -> bool
    requires { (whole % 8 ≡ 0) × (whole ≤ length words.now) }
    ensures { result ≡ false → NoIsnt whole words.now }
{
    for block in 0..whole / BLOCK {
        if some_isnt(words, block * BLOCK) {
            return true;
        }
    }
    false
}

// Whether a word from `from` on does.
fn rest_has_isnt(words: &[u32], from: usize) -> bool
    requires { from ≤ length words.now }
    ensures { result ≡ false → NoIsnt from words.now → NoIsnt (length words.now) words.now }
{
    words[from..].iter().any(|word| word % 2 == 1)
}

// Whether a word says "is not".
fn has_isnt(words: &[u32]) -> bool
    ensures { result ≡ false → NoIsnt (length words.now) words.now }
{
    let whole = words.len() / BLOCK * BLOCK;
    if blocks_have_isnt(words, whole) {
        return true;
    }
    rest_has_isnt(words, whole)
}

// 1 for a block without a word of the sign, 0 for any other.
fn lacks(sign: u32, words: &[u32], from: usize) -> usize
    requires { from + 8 ≤ length words.now }
    ensures { result ≤ 1 }
{
    if has_sign(sign, words, from) {
        return 0;
    }
    1
}

// Whether more than one block in two has no word of the sign, of at most 64 blocks spread over all words. It only says which way is shorter, so nothing is stated of it.
fn is_rare(sign: u32, words: &[u32]) -> bool {
    let whole = words.len() / BLOCK * BLOCK;
    let step = (words.len() / SPREAD + 1) * BLOCK;
    let mut looked = 0usize;
    let mut without = 0usize;
    for from in (0..whole).step_by(step) {
        without += lacks(sign, words, from);
        looked += 1;
    }
    looked / 2 < without
}

// What a scan asks of its words, once.
pub fn signs_of(words: &[u32]) -> Signs
    ensures { result.isnts ≡ false → NoIsnt (length words.now) words.now }
{
    let isnts = has_isnt(words);
    let few_is = is_rare(IS, words);
    let few_isnt = is_rare(ISNT, words);
    Signs {
        isnts,
        few_is,
        few_isnt,
    }
}
