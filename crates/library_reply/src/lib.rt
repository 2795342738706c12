// The answers of the check of a net and of the test of a word as replies.
#![tactic(auto)]

ghost use Rattle.std.specs.Prelude.{◌≡◌};
ghost use Rattle.net.specs.Table.{checked_reply};
ghost use Rattle.check_word.specs.Table.{word_reply};
ghost use Rattle.library_reply.specs.Fits.{Fits};

use net::{Refusal, Reply, refusal_given, reply_of};

// The reply of the check of a net.
pub fn checked_given(checked: Result<usize, Refusal>) -> Reply
    requires { Fits (checked_reply checked) }
    ensures { result ≡ checked_reply checked }
{
    match checked {
        Ok(n) => reply_of(0, n as u32, 0),
        Err(refusal) => refusal_given(refusal),
    }
}

// The reply of the test of a word.
pub fn word_given(checked: Result<(), Refusal>) -> Reply
    ensures { result ≡ word_reply checked }
{
    match checked {
        Ok(()) => reply_of(0, 0, 0),
        Err(refusal) => refusal_given(refusal),
    }
}
