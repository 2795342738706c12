// A link word's parts, its origin among them; whether a set of origins chooses it; the test of one word, and why a word fails it.
#![tactic(auto)]

ghost use Rattle.std.specs.Prelude.{◌≡◌, ◌≤◌};
ghost use Rattle.theory.specs.Words.{tail_of, head_of};
ghost use Rattle.theory.specs.Origins.{origin_of, plain_of, origin_limit, chooses};
ghost use Rattle.net_word.specs.Legal.{legal_from, plain_cause, cause_of, cause_number};

// Why a word is illegal: its origin is above 3, or else its tail is outside the net, or else its head is no kind.
#[derive(Clone, Copy)]
pub enum Cause {
    Tail,
    Head,
    Origin,
}

// The largest origin.
pub const ORIGIN_LIMIT: u32 = 3;

// A set with which plain words are read: it has origin 0.
pub const PLAIN_SET: u32 = 1;

// A plain word's tail.
pub fn tail_of(word: u32) -> usize
    ensures { result ≡ tail_of word }
{
    (word / 2048) as usize
}

// A word's head.
pub fn head_of(word: u32) -> usize
    ensures { result ≡ head_of word }
{
    (word / 2 % 1024) as usize
}

// A word's origin.
pub fn origin_of(word: u32) -> u32
    ensures { result ≡ origin_of word }
{
    word / 2097152
}

// A word with its origin removed.
pub fn plain_of(word: u32) -> u32
    ensures { result ≡ plain_of word }
{
    word % 2097152
}

// Whether the set chooses a word whose origin is at most 3.
pub fn is_chosen(set: u32, word: u32) -> bool
    requires { origin_of word ≤ origin_limit }
    ensures { result ≡ chooses set word }
{
    let origin = origin_of(word);
    (set >> origin) % 2 == 1
}

// Whether a word with an origin of at most `top` is legal in a net of `n` nodes, the first `o` of them objects.
pub fn is_legal(top: u32, o: usize, n: usize, word: u32) -> bool
    ensures { result ≡ legal_from top o n word }
{
    if top < origin_of(word) {
        return false;
    }
    let plain = plain_of(word);
    let tail = tail_of(plain);
    let head = head_of(plain);
    if n <= tail {
        return false;
    }
    if head < o {
        return false;
    }
    head < n
}

// Why an illegal plain word is one: the tail is looked at first.
pub fn plain_cause(n: usize, word: u32) -> Cause
    ensures { result ≡ plain_cause n word }
{
    let tail = tail_of(word);
    if n <= tail {
        return Cause::Tail;
    }
    Cause::Head
}

// Why an illegal word with an origin is one: the origin is looked at first.
pub fn cause_of(n: usize, word: u32) -> Cause
    ensures { result ≡ cause_of n word }
{
    if ORIGIN_LIMIT < origin_of(word) {
        return Cause::Origin;
    }
    plain_cause(n, plain_of(word))
}

// The number of a cause.
pub fn cause_number(cause: Cause) -> u32
    ensures { result ≡ cause_number cause }
{
    match cause {
        Cause::Tail => 1,
        Cause::Head => 2,
        Cause::Origin => 3,
    }
}
