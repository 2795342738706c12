// The answers of scan, question, screenful of questions, clash test, completion, compaction, mending, reason, reason check, explanation, proof,
// proof check, valuation and its test, question of rows and marker unit, each as a reply. That of a completion by rows is a completion's, and that
// of the check of a derivation a reason check's.
#![tactic(auto)]

ghost use Rattle.std.specs.Prelude.{◌≡◌};
ghost use Rattle.scan.specs.Table.{scan_reply};
ghost use Rattle.question.specs.Table.{asked_reply};
ghost use Rattle.questions.specs.Table.{asked_all_reply};
ghost use Rattle.clash.specs.Table.{clashed_reply};
ghost use Rattle.completion.specs.Table.{completed_reply};
ghost use Rattle.compact.specs.Table.{compacted_reply};
ghost use Rattle.mend.specs.Table.{mended_reply};
ghost use Rattle.reason.specs.Table.{reasoned_reply};
ghost use Rattle.reason_check.specs.Table.{verdict_reply};
ghost use Rattle.explain.specs.Table.{explained_reply};
ghost use Rattle.proof.specs.Table.{proved_reply};
ghost use Rattle.proof_check.specs.Table.{judged_reply};
ghost use Rattle.valuation.specs.Table.{filled_reply};
ghost use Rattle.satisfies.specs.Table.{tested_reply};
ghost use Rattle.rows_answer.specs.Table.{answered_reply};
ghost use Rattle.unit.specs.Table.{simulated_reply};
ghost use Rattle.library_reply.specs.Fits.{Fits};

use completion::CompletionError;
use explain::ExplainError;
use mend::MendError;
use net::{Refusal, Reply, refusal_given, reply_of};
use proof::ProofError;
use proof_check::JudgeError;
use question::{Answer, answer_number};
use questions::PairsError;
use reason::ReasonError;
use satisfies::TestError;
use scan::ScanError;
use unit::UnitError;
use valuation::ValuationError;

// The reply of a scan.
pub fn scanned_given(scanned: Result<u32, ScanError>) -> Reply
    ensures { result ≡ scan_reply scanned }
{
    match scanned {
        Ok(count) => reply_of(0, count, 0),
        Err(ScanError::Spent(count)) => reply_of(6, count, 0),
        Err(ScanError::Refused(refusal)) => refusal_given(refusal),
    }
}

// The reply of a question.
pub fn asked_given(asked: Result<(Answer, u32), Refusal>) -> Reply
    ensures { result ≡ asked_reply asked }
{
    match asked {
        Ok((answer, count)) => reply_of(0, answer_number(answer) as u32, count),
        Err(refusal) => refusal_given(refusal),
    }
}

// The reply of a screenful of questions.
pub fn asked_all_given(asked: Result<(), PairsError>) -> Reply
    ensures { result ≡ asked_all_reply asked }
{
    match asked {
        Ok(()) => reply_of(0, 0, 0),
        Err(PairsError::BadPairs) => reply_of(10, 0, 0),
        Err(PairsError::Refused(refusal)) => refusal_given(refusal),
    }
}

// The reply of a clash test.
pub fn clashed_given(clashed: Result<Option<(usize, usize)>, Refusal>) -> Reply
    requires { Fits (clashed_reply clashed) }
    ensures { result ≡ clashed_reply clashed }
{
    match clashed {
        Ok(Some((x, y))) => reply_of(0, x as u32, y as u32),
        Ok(None) => reply_of(7, 0, 0),
        Err(refusal) => refusal_given(refusal),
    }
}

// The reply of a completion.
pub fn completed_given(completed: Result<usize, CompletionError>) -> Reply
    requires { Fits (completed_reply completed) }
    ensures { result ≡ completed_reply completed }
{
    match completed {
        Ok(size) => reply_of(0, size as u32, 0),
        Err(CompletionError::Short(needed)) => reply_of(8, needed as u32, 0),
        Err(CompletionError::Refused(refusal)) => refusal_given(refusal),
    }
}

// The reply of a compaction.
pub fn compacted_given(compacted: Result<u32, Refusal>) -> Reply
    ensures { result ≡ compacted_reply compacted }
{
    match compacted {
        Ok(size) => reply_of(0, size, 0),
        Err(refusal) => refusal_given(refusal),
    }
}

// The reply of mending.
pub fn mended_given(mended: Result<(u32, u32), MendError>) -> Reply
    ensures { result ≡ mended_reply mended }
{
    match mended {
        Ok((kept, dropped)) => reply_of(0, kept, dropped),
        Err(MendError::Short(needed)) => reply_of(8, needed, 0),
        Err(MendError::Refused(refusal)) => refusal_given(refusal),
    }
}

// The reply of a reason.
pub fn reasoned_given(reasoned: Result<u32, ReasonError>) -> Reply
    ensures { result ≡ reasoned_reply reasoned }
{
    match reasoned {
        Ok(places) => reply_of(0, places, 0),
        Err(ReasonError::Unsupported) => reply_of(7, 0, 0),
        Err(ReasonError::Short(needed)) => reply_of(8, needed, 0),
        Err(ReasonError::Refused(refusal)) => refusal_given(refusal),
    }
}

// The reply of the check of a reason, or of a derivation.
pub fn verdict_given(verdict: Result<bool, Refusal>) -> Reply
    ensures { result ≡ verdict_reply verdict }
{
    match verdict {
        Ok(true) => reply_of(0, 1, 0),
        Ok(false) => reply_of(0, 0, 0),
        Err(refusal) => refusal_given(refusal),
    }
}

// The reply of an explanation.
pub fn explained_given(explained: Result<(u32, u32), ExplainError>) -> Reply
    ensures { result ≡ explained_reply explained }
{
    match explained {
        Ok((lines, places)) => reply_of(0, lines, places),
        Err(ExplainError::Unsupported) => reply_of(7, 0, 0),
        Err(ExplainError::ShortReason(needed)) => reply_of(8, needed, 0),
        Err(ExplainError::ShortLines(needed)) => reply_of(8, needed, 1),
        Err(ExplainError::Refused(refusal)) => refusal_given(refusal),
    }
}

// The reply of a proof.
pub fn proved_given(proved: Result<u32, ProofError>) -> Reply
    ensures { result ≡ proved_reply proved }
{
    match proved {
        Ok(numbers) => reply_of(0, numbers, 0),
        Err(ProofError::Unsupported) => reply_of(7, 0, 0),
        Err(ProofError::TooDeep) => reply_of(11, 0, 0),
        Err(ProofError::Short(needed)) => reply_of(8, needed, 0),
        Err(ProofError::Refused(refusal)) => refusal_given(refusal),
    }
}

// The reply of the check of a proof.
pub fn judged_given(judged: Result<(), JudgeError>) -> Reply
    ensures { result ≡ judged_reply judged }
{
    match judged {
        Ok(()) => reply_of(0, 0, 0),
        Err(JudgeError::Faulty(step)) => reply_of(12, step, 0),
        Err(JudgeError::Refused(refusal)) => refusal_given(refusal),
    }
}

// The reply of a valuation.
pub fn filled_given(filled: Result<(), ValuationError>) -> Reply
    ensures { result ≡ filled_reply filled }
{
    match filled {
        Ok(()) => reply_of(0, 0, 0),
        Err(ValuationError::ShortTable) => reply_of(13, 0, 0),
        Err(ValuationError::Refused(refusal)) => refusal_given(refusal),
    }
}

// The reply of the test of a statement in a valuation.
pub fn tested_given(tested: Result<bool, TestError>) -> Reply
    ensures { result ≡ tested_reply tested }
{
    match tested {
        Ok(holds) => verdict_given(Ok(holds)),
        Err(TestError::BadTable) => reply_of(13, 0, 0),
        Err(TestError::Refused(refusal)) => refusal_given(refusal),
    }
}

// The reply of a question of rows.
pub fn answered_given(answered: Result<Answer, Refusal>) -> Reply
    ensures { result ≡ answered_reply answered }
{
    match answered {
        Ok(answer) => reply_of(0, answer_number(answer) as u32, 0),
        Err(refusal) => refusal_given(refusal),
    }
}

// The reply of a run of the marker unit.
pub fn simulated_given(simulated: Result<u32, UnitError>) -> Reply
    ensures { result ≡ simulated_reply simulated }
{
    match simulated {
        Ok(count) => reply_of(0, count, 0),
        Err(UnitError::Spent(count)) => reply_of(6, count, 0),
        Err(UnitError::Faulty(place)) => reply_of(16, place, 0),
        Err(UnitError::Refused(refusal)) => refusal_given(refusal),
    }
}
