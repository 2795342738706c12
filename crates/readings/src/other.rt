// A case on the second engine.
use crate::answer::Answer;
use readings_cases::operations::{Case, Lists};

// What a case answers; what it writes stands in the lists.
pub fn run(case: Case, lists: &mut Lists) -> Answer {
    let Lists {
        words,
        pairs,
        answers,
        marks,
        list,
        dropped,
        yes,
        no,
        table,
        scratch,
        reason,
        file,
        text,
    } = lists;
    let reply = match case {
        Case::CheckNet { net } => second::check_net(net.o, net.k, words, net.set),
        Case::CheckWord { o, k, word } => second::check_word(o, k, word),
        Case::Scan { net, start, budget } => second::scan(
            net.o, net.k, words, net.set, start, budget, marks,
        ),
        Case::Question { net, x, y } => second::question(net.o, net.k, words, net.set, x, y, marks),
        Case::Questions { net } => second::questions(
            net.o, net.k, words, net.set, pairs, answers, marks,
        ),
        Case::Completion { net } => second::completion(net.o, net.k, words, net.set, marks, list),
        Case::CompletionByRows { net } => second::completion_by_rows(
            net.o, net.k, words, net.set, yes, no, list,
        ),
        Case::AnswerInRows { o, k, x, y } => second::answer_in_rows(o, k, yes, no, x, y),
        Case::Clash { net } => second::clash(net.o, net.k, words, net.set, marks),
        Case::Compact { o, k } => second::compact(o, k, list, marks),
        Case::Mend { o, k } => second::mend(o, k, words, list, dropped, marks),
        Case::Valuation { net } => second::valuation(net.o, net.k, words, net.set, table, marks),
        Case::Satisfies { o, k, x, y, sign } => second::satisfies(o, k, table, x, y, sign),
        Case::Reason { asked } => second::reason(
            asked.net.o,
            asked.net.k,
            words,
            asked.net.set,
            asked.x,
            asked.y,
            asked.sign,
            scratch,
            reason,
        ),
        Case::ReasonCheck { asked } => second::reason_check(
            asked.net.o,
            asked.net.k,
            words,
            asked.net.set,
            asked.x,
            asked.y,
            asked.sign,
            reason,
        ),
        Case::Proof { asked } => second::proof(
            asked.net.o,
            asked.net.k,
            words,
            asked.net.set,
            asked.x,
            asked.y,
            asked.sign,
            scratch,
            list,
        ),
        Case::ProofCheck { asked } => second::proof_check(
            asked.net.o,
            asked.net.k,
            words,
            asked.net.set,
            asked.x,
            asked.y,
            asked.sign,
            list,
        ),
        Case::Explain { asked } => second::explain(
            asked.net.o,
            asked.net.k,
            words,
            asked.net.set,
            asked.x,
            asked.y,
            asked.sign,
            scratch,
            reason,
            list,
        ),
        Case::DerivationCheck { asked } => second::derivation_check(
            asked.net.o,
            asked.net.k,
            words,
            asked.net.set,
            asked.x,
            asked.y,
            asked.sign,
            list,
        ),
        Case::Unit { net, budget } => second::unit(
            net.o, net.k, words, net.set, list, budget, marks,
        ),
        Case::File => second::read_file(file),
        Case::Ask => return Answer::of_text(match text {
            Some(text) => second::ask_text(file, text.as_mut_slice()),
            // There is no room, and no text.
            None => 0,
        }),
    };
    Answer::from(reply)
}
