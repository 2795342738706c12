// The test of a single word, which may have an origin: it tells why an illegal one is illegal.
#![tactic(auto)]

ghost use Rattle.std.specs.Prelude.{◌≡◌};
ghost use Rattle.check_word.specs.Table.{check_word};

use net::{NODE_LIMIT, Refusal, refuse_word};
use net_word::{ORIGIN_LIMIT, is_legal};

// The test of one word for a net of `o` objects and `k` kinds.
pub fn check_word(o: u32, k: u32, word: u32) -> Result<(), Refusal>
    ensures { result ≡ check_word o k word }
{
    let objects = o as usize;
    let n = objects + k as usize;
    if NODE_LIMIT < n {
        return Err(Refusal::TooManyNodes);
    }
    if !is_legal(ORIGIN_LIMIT, objects, n, word) {
        return Err(refuse_word(n, 0, word));
    }
    Ok(())
}
