// The answer to a question from rows that a completion left ([6]): two bits tell it. Nothing is written.
#![tactic(auto)]

ghost use Rattle.std.specs.Prelude.{◌≡◌};
ghost use Rattle.rows_answer.specs.Table.{answer_of_bits, answered_in_rows};

use net::{NODE_LIMIT, Refusal, is_bad_pair};
use question::Answer;
use rows_word::has_bit;

// What a yes bit and a no bit answer.
fn answer_of_bits(some: bool, more: bool) -> Answer
    ensures { result ≡ answer_of_bits some more }
{
    if some {
        if more {
            return Answer::Both;
        }
        return Answer::Yes;
    }
    if more {
        return Answer::No;
    }
    Answer::None
}

// The question whether `x` is `y`, asked of the rows of a net of `o` objects and `k` kinds.
pub fn answer_in_rows(
    o: u32,
    k: u32,
    yeses: &[u64],
    noes: &[u64],
    x: u32,
    y: u32,
) -> Result<Answer, Refusal>
    ensures { result ≡ answered_in_rows o k yeses.now noes.now x y }
{
    let n = o as usize + k as usize;
    if NODE_LIMIT < n {
        return Err(Refusal::TooManyNodes);
    }
    if is_bad_pair(o, n, x, y) {
        return Err(Refusal::BadQuestion);
    }
    let w = (n + 63) / 64;
    let size = n * w;
    if yeses.len() < size {
        return Err(Refusal::ShortBuffer);
    }
    if noes.len() < size {
        return Err(Refusal::ShortBuffer);
    }
    let a = x as usize * w;
    let kind = y as usize;
    let some = has_bit(a, kind, yeses);
    let more = has_bit(a, kind, noes);
    Ok(answer_of_bits(some, more))
}
