// What C links: each function of the library `strumelka`, exported under its name, with its clauses.
#![tactic(auto)]

ghost use Rattle.std.specs.Prelude.{◌≡◌};
ghost use Rattle.net.specs.Table.{check_net, checked_reply};
ghost use Rattle.check_word.specs.Table.{check_word, word_reply};
ghost use Rattle.scan.specs.Table.{scanned, scan_reply};
ghost use Rattle.question.specs.Table.{questioned, asked_reply};
ghost use Rattle.questions.specs.Table.{questioned_all, asked_all_reply};
ghost use Rattle.clash.specs.Table.{clashed_by, clashed_reply};
ghost use Rattle.completion.specs.Table.{completed_by, completed_reply};
ghost use Rattle.compact.specs.Table.{compacted_by, compacted_reply};
ghost use Rattle.mend.specs.Table.{mended_by, mended_reply};
ghost use Rattle.reason.specs.Table.{reasoned, reasoned_reply};
ghost use Rattle.reason_check.specs.Table.{verdict, verdict_reply};
ghost use Rattle.explain.specs.Table.{explained, explained_reply};
ghost use Rattle.derivation_check.specs.Table.{lines_verdict};
ghost use Rattle.proof.specs.Table.{proved, proved_reply};
ghost use Rattle.proof_check.specs.Table.{judged, judged_reply};
ghost use Rattle.unit.specs.Table.{simulated, simulated_reply};
ghost use Rattle.valuation.specs.Table.{filled_by, filled_reply};
ghost use Rattle.satisfies.specs.Table.{tested_by, tested_reply};
ghost use Rattle.rows_completion.specs.Table.{completed_by_rows};
ghost use Rattle.rows_answer.specs.Table.{answered_in_rows, answered_reply};

use net::Reply;

// The test of a single word.
#[unsafe(no_mangle)]
pub extern "C" fn strumelka_check_word(o: u32, k: u32, word: u32) -> Reply
    ensures { result ≡ word_reply (check_word o k word) }
{
    strumelka::strumelka_check_word(o, k, word)
}

// The check of a net.
#[unsafe(no_mangle)]
pub extern "C" fn strumelka_check_net(o: u32, k: u32, words: &[u32], set: u32) -> Reply
    ensures { result ≡ checked_reply (check_net o k words.now set) }
{
    strumelka::strumelka_check_net(o, k, words, set)
}

// The scan from node `start`, object or kind, within `budget` rounds.
#[unsafe(no_mangle)]
pub extern "C" fn strumelka_scan(
    o: u32,
    k: u32,
    words: &[u32],
    set: u32,
    start: u32,
    budget: u32,
    marks: &mut [u8],
) -> Reply
    ensures { (result ≡ scan_reply (scanned o k words.now set start budget marks.old).answer)
        × (marks.new ≡ (scanned o k words.now set start budget marks.old).marks) }
{
    strumelka::strumelka_scan(o, k, words, set, start, budget, marks)
}

// The question whether `x` is `y`.
#[unsafe(no_mangle)]
pub extern "C" fn strumelka_question(
    o: u32,
    k: u32,
    words: &[u32],
    set: u32,
    x: u32,
    y: u32,
    marks: &mut [u8],
) -> Reply
    ensures { (result ≡ asked_reply (questioned o k words.now set x y marks.old).answer)
        × (marks.new ≡ (questioned o k words.now set x y marks.old).marks) }
{
    strumelka::strumelka_question(o, k, words, set, x, y, marks)
}

// The questions of all pairs, x then y, with room for a byte for each and for marks.
#[unsafe(no_mangle)]
pub extern "C" fn strumelka_questions(
    o: u32,
    k: u32,
    words: &[u32],
    set: u32,
    pairs: &[u16],
    answers: &mut [u8],
    marks: &mut [u8],
) -> Reply
    ensures { (result ≡ asked_all_reply (questioned_all o k words.now set pairs.now answers.old marks.old).answer)
        × (answers.new ≡ (questioned_all o k words.now set pairs.now answers.old marks.old).answers)
        × (marks.new ≡ (questioned_all o k words.now set pairs.now answers.old marks.old).marks) }
{
    strumelka::strumelka_questions(o, k, words, set, pairs, answers, marks)
}

// The completion, with room for marks and for the list.
#[unsafe(no_mangle)]
pub extern "C" fn strumelka_completion(
    o: u32,
    k: u32,
    words: &[u32],
    set: u32,
    marks: &mut [u8],
    list: &mut [u32],
) -> Reply
    ensures { (result ≡ completed_reply (completed_by o k words.now set marks.old list.old).answer)
        × (marks.new ≡ (completed_by o k words.now set marks.old list.old).marks)
        × (list.new ≡ (completed_by o k words.now set marks.old list.old).list) }
{
    strumelka::strumelka_completion(o, k, words, set, marks, list)
}

// The clash test.
#[unsafe(no_mangle)]
pub extern "C" fn strumelka_clash(
    o: u32,
    k: u32,
    words: &[u32],
    set: u32,
    marks: &mut [u8],
) -> Reply
    ensures { (result ≡ clashed_reply (clashed_by o k words.now set marks.old).answer)
        × (marks.new ≡ (clashed_by o k words.now set marks.old).marks) }
{
    strumelka::strumelka_clash(o, k, words, set, marks)
}

// The compaction of a list of plain words, where it stands.
#[unsafe(no_mangle)]
pub extern "C" fn strumelka_compact(o: u32, k: u32, list: &mut [u32], marks: &mut [u8]) -> Reply
    ensures { (result ≡ compacted_reply (compacted_by o k list.old marks.old).answer)
        × (list.new ≡ (compacted_by o k list.old marks.old).list)
        × (marks.new ≡ (compacted_by o k list.old marks.old).marks) }
{
    strumelka::strumelka_compact(o, k, list, marks)
}

// Mending the net of a list of plain words, with room for the words kept and, in threes, for those dropped.
#[unsafe(no_mangle)]
pub extern "C" fn strumelka_mend(
    o: u32,
    k: u32,
    words: &[u32],
    kept: &mut [u32],
    dropped: &mut [u32],
    marks: &mut [u8],
) -> Reply
    ensures { (result ≡ mended_reply (mended_by o k words.now kept.old dropped.old marks.old).answer)
        × (kept.new ≡ (mended_by o k words.now kept.old dropped.old marks.old).kept)
        × (dropped.new ≡ (mended_by o k words.now kept.old dropped.old marks.old).dropped)
        × (marks.new ≡ (mended_by o k words.now kept.old dropped.old marks.old).marks) }
{
    strumelka::strumelka_mend(o, k, words, kept, dropped, marks)
}

// The shortest reason for x → y (`sign` 0) or x ↛ y (`sign` 1), with room for distances and for the list.
#[unsafe(no_mangle)]
pub extern "C" fn strumelka_reason(
    o: u32,
    k: u32,
    words: &[u32],
    set: u32,
    x: u32,
    y: u32,
    sign: u32,
    scratch: &mut [u16],
    list: &mut [u16],
) -> Reply
    ensures { (result ≡ reasoned_reply (reasoned o k words.now set x y sign scratch.old list.old).answer)
        × (scratch.new ≡ (reasoned o k words.now set x y sign scratch.old list.old).scratch)
        × (list.new ≡ (reasoned o k words.now set x y sign scratch.old list.old).list) }
{
    strumelka::strumelka_reason(o, k, words, set, x, y, sign, scratch, list)
}

// The check of a reason for x → y (`sign` 0) or x ↛ y (`sign` 1).
#[unsafe(no_mangle)]
pub extern "C" fn strumelka_reason_check(
    o: u32,
    k: u32,
    words: &[u32],
    set: u32,
    x: u32,
    y: u32,
    sign: u32,
    list: &[u16],
) -> Reply
    ensures { result ≡ verdict_reply (verdict o k words.now set x y sign list.now) }
{
    strumelka::strumelka_reason_check(o, k, words, set, x, y, sign, list)
}

// The shortest reason for x → y (`sign` 0) or x ↛ y (`sign` 1) and its derivation, with room for distances, for the reason and for the lines.
#[unsafe(no_mangle)]
pub extern "C" fn strumelka_explain(
    o: u32,
    k: u32,
    words: &[u32],
    set: u32,
    x: u32,
    y: u32,
    sign: u32,
    scratch: &mut [u16],
    reason: &mut [u16],
    lines: &mut [u32],
) -> Reply
    ensures { (result ≡ explained_reply (explained o k words.now set x y sign scratch.old reason.old lines.old).answer)
        × (scratch.new ≡ (explained o k words.now set x y sign scratch.old reason.old lines.old).scratch)
        × (reason.new ≡ (explained o k words.now set x y sign scratch.old reason.old lines.old).list)
        × (lines.new ≡ (explained o k words.now set x y sign scratch.old reason.old lines.old).lines) }
{
    strumelka::strumelka_explain(o, k, words, set, x, y, sign, scratch, reason, lines)
}

// The check of a derivation of x → y (`sign` 0) or x ↛ y (`sign` 1).
#[unsafe(no_mangle)]
pub extern "C" fn strumelka_derivation_check(
    o: u32,
    k: u32,
    words: &[u32],
    set: u32,
    x: u32,
    y: u32,
    sign: u32,
    list: &[u32],
) -> Reply
    ensures { result ≡ verdict_reply (lines_verdict o k words.now set x y sign list.now) }
{
    strumelka::strumelka_derivation_check(o, k, words, set, x, y, sign, list)
}

// The proof of x → y (`sign` 0) or x ↛ y (`sign` 1), with room for distances and for the list.
#[unsafe(no_mangle)]
pub extern "C" fn strumelka_proof(
    o: u32,
    k: u32,
    words: &[u32],
    set: u32,
    x: u32,
    y: u32,
    sign: u32,
    scratch: &mut [u16],
    list: &mut [u32],
) -> Reply
    ensures { (result ≡ proved_reply (proved o k words.now set x y sign scratch.old list.old).answer)
        × (scratch.new ≡ (proved o k words.now set x y sign scratch.old list.old).scratch)
        × (list.new ≡ (proved o k words.now set x y sign scratch.old list.old).list) }
{
    strumelka::strumelka_proof(o, k, words, set, x, y, sign, scratch, list)
}

// The check of a proof of x → y (`sign` 0) or x ↛ y (`sign` 1).
#[unsafe(no_mangle)]
pub extern "C" fn strumelka_proof_check(
    o: u32,
    k: u32,
    words: &[u32],
    set: u32,
    x: u32,
    y: u32,
    sign: u32,
    list: &[u32],
) -> Reply
    ensures { result ≡ judged_reply (judged o k words.now set x y sign list.now) }
{
    strumelka::strumelka_proof_check(o, k, words, set, x, y, sign, list)
}

// The valuation of a net, with room for the table and for marks.
#[unsafe(no_mangle)]
pub extern "C" fn strumelka_valuation(
    o: u32,
    k: u32,
    words: &[u32],
    set: u32,
    table: &mut [u8],
    marks: &mut [u8],
) -> Reply
    ensures { (result ≡ filled_reply (filled_by o k words.now set table.old marks.old).answer)
        × (table.new ≡ (filled_by o k words.now set table.old marks.old).table)
        × (marks.new ≡ (filled_by o k words.now set table.old marks.old).marks) }
{
    strumelka::strumelka_valuation(o, k, words, set, table, marks)
}

// The test of x → y (`sign` 0) or x ↛ y (`sign` 1) in a lent valuation.
#[unsafe(no_mangle)]
pub extern "C" fn strumelka_satisfies(
    o: u32,
    k: u32,
    table: &[u8],
    x: u32,
    y: u32,
    sign: u32,
) -> Reply
    ensures { result ≡ tested_reply (tested_by o k table.now x y sign) }
{
    strumelka::strumelka_satisfies(o, k, table, x, y, sign)
}

// The completion by rows, with room for the yes rows, for the no rows and for the list.
#[unsafe(no_mangle)]
pub extern "C" fn strumelka_completion_by_rows(
    o: u32,
    k: u32,
    words: &[u32],
    set: u32,
    yeses: &mut [u64],
    noes: &mut [u64],
    list: &mut [u32],
) -> Reply
    ensures { (result ≡ completed_reply (completed_by_rows o k words.now set yeses.old noes.old list.old).answer)
        × (yeses.new ≡ (completed_by_rows o k words.now set yeses.old noes.old list.old).yeses)
        × (noes.new ≡ (completed_by_rows o k words.now set yeses.old noes.old list.old).noes)
        × (list.new ≡ (completed_by_rows o k words.now set yeses.old noes.old list.old).list) }
{
    strumelka::strumelka_completion_by_rows(o, k, words, set, yeses, noes, list)
}

// The question whether `x` is `y`, asked of rows that a completion by rows left.
#[unsafe(no_mangle)]
pub extern "C" fn strumelka_answer_in_rows(
    o: u32,
    k: u32,
    yeses: &[u64],
    noes: &[u64],
    x: u32,
    y: u32,
) -> Reply
    ensures { result ≡ answered_reply (answered_in_rows o k yeses.now noes.now x y) }
{
    strumelka::strumelka_answer_in_rows(o, k, yeses, noes, x, y)
}

// A program of the marker unit, run within `budget` commands on the marks as they are lent.
#[unsafe(no_mangle)]
pub extern "C" fn strumelka_unit(
    o: u32,
    k: u32,
    words: &[u32],
    set: u32,
    program: &[u32],
    budget: u32,
    marks: &mut [u8],
) -> Reply
    ensures { (result ≡ simulated_reply (simulated o k words.now set program.now budget marks.old).answer)
        × (marks.new ≡ (simulated o k words.now set program.now budget marks.old).marks) }
{
    strumelka::strumelka_unit(o, k, words, set, program, budget, marks)
}
