// A case on the proved operations: those that C links by their exported functions, the reader and the text of `ask` by their own.
use crate::answer::Answer;
use ask_text::answer_file;
use netfile::read_contents;
use readings_cases::operations::{Case, Lists};
use strumelka::{
    strumelka_answer_in_rows, strumelka_check_net, strumelka_check_word, strumelka_clash,
    strumelka_compact, strumelka_completion, strumelka_completion_by_rows,
    strumelka_derivation_check, strumelka_explain, strumelka_mend, strumelka_proof,
    strumelka_proof_check, strumelka_question, strumelka_questions, strumelka_reason,
    strumelka_reason_check, strumelka_satisfies, strumelka_scan, strumelka_unit,
    strumelka_valuation,
};

// What a case answers; what it writes stands in the lists.
pub fn run(case: Case, lists: &mut Lists) -> Answer {
    let Lists {
        words,
        pairs,
        answers,
        marks,
        list,
        dropped,
        yes,
        no,
        table,
        scratch,
        reason,
        file,
        text,
    } = lists;
    let reply = match case {
        Case::CheckNet { net } => strumelka_check_net(net.o, net.k, words, net.set),
        Case::CheckWord { o, k, word } => strumelka_check_word(o, k, word),
        Case::Scan { net, start, budget } => strumelka_scan(
            net.o, net.k, words, net.set, start, budget, marks,
        ),
        Case::Question { net, x, y } => strumelka_question(
            net.o, net.k, words, net.set, x, y, marks,
        ),
        Case::Questions { net } => strumelka_questions(
            net.o, net.k, words, net.set, pairs, answers, marks,
        ),
        Case::Completion { net } => strumelka_completion(net.o, net.k, words, net.set, marks, list),
        Case::CompletionByRows { net } => strumelka_completion_by_rows(
            net.o, net.k, words, net.set, yes, no, list,
        ),
        Case::AnswerInRows { o, k, x, y } => strumelka_answer_in_rows(o, k, yes, no, x, y),
        Case::Clash { net } => strumelka_clash(net.o, net.k, words, net.set, marks),
        Case::Compact { o, k } => strumelka_compact(o, k, list, marks),
        Case::Mend { o, k } => strumelka_mend(o, k, words, list, dropped, marks),
        Case::Valuation { net } => strumelka_valuation(net.o, net.k, words, net.set, table, marks),
        Case::Satisfies { o, k, x, y, sign } => strumelka_satisfies(o, k, table, x, y, sign),
        Case::Reason { asked } => strumelka_reason(
            asked.net.o,
            asked.net.k,
            words,
            asked.net.set,
            asked.x,
            asked.y,
            asked.sign,
            scratch,
            reason,
        ),
        Case::ReasonCheck { asked } => strumelka_reason_check(
            asked.net.o,
            asked.net.k,
            words,
            asked.net.set,
            asked.x,
            asked.y,
            asked.sign,
            reason,
        ),
        Case::Proof { asked } => strumelka_proof(
            asked.net.o,
            asked.net.k,
            words,
            asked.net.set,
            asked.x,
            asked.y,
            asked.sign,
            scratch,
            list,
        ),
        Case::ProofCheck { asked } => strumelka_proof_check(
            asked.net.o,
            asked.net.k,
            words,
            asked.net.set,
            asked.x,
            asked.y,
            asked.sign,
            list,
        ),
        Case::Explain { asked } => strumelka_explain(
            asked.net.o,
            asked.net.k,
            words,
            asked.net.set,
            asked.x,
            asked.y,
            asked.sign,
            scratch,
            reason,
            list,
        ),
        Case::DerivationCheck { asked } => strumelka_derivation_check(
            asked.net.o,
            asked.net.k,
            words,
            asked.net.set,
            asked.x,
            asked.y,
            asked.sign,
            list,
        ),
        Case::Unit { net, budget } => strumelka_unit(
            net.o, net.k, words, net.set, list, budget, marks,
        ),
        Case::File => return Answer::from(read_contents(file)),
        Case::Ask => return Answer::of_text(match text {
            Some(text) => answer_file(file, text),
            // There is no room, and no text.
            None => 0,
        }),
    };
    Answer::from(reply)
}
