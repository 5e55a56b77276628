// What an operation answers as numbers, for callers from C, by value: whoever is lent places writes them himself, since a loan passed on makes a proof longer.
#![tactic(auto)]

ghost use Rattle.std.specs.Prelude.{◌≡◌, MatchOption};
ghost use Rattle.field.specs.Answer.{element_of, powered_of, inverted_of};
ghost use Rattle.outcome.specs.Meaning.{answer_of, outcome_of, verdict_of};
ghost use Rattle.reader.specs.Words.{value_of as word_of};
ghost use Rattle.numbers.specs.Reasons.{reason_number};
ghost use Rattle.numbers.specs.Numbers.{number_of, place_in, refusal_of, value_of, word_number, word_after, element_number, element_after, power_number, power_after, turns_after, inverse_number, inverse_after};

use arithmetic::Powered;
use field::NoInverse;
use outcome::{Answer, Outcome, Verdict};

// Why nothing is written, where the documents have no refusal for it: apart from their numbers, and none of them 0.
pub const NO_FIELD: u32 = 100;

pub const NO_INVERSE: u32 = 101;

pub const NO_WORD: u32 = 102;

// An outcome: 0 for accepted, else the fault's number; and its place, 0 where accepted.
#[derive(Clone, Copy)]
pub struct Fault {
    pub number: u32,
    pub place: u64,
}

// A verdict: an outcome, and the count of reads.
#[derive(Clone, Copy)]
pub struct Judged {
    pub number: u32,
    pub place: u64,
    pub reads: u64,
}

// An answer to an order: 0 where done, else the refusal's number; and the count, or the refusal's place.
#[derive(Clone, Copy)]
pub struct Answered {
    pub number: u32,
    pub value: u64,
}

// A word that may be there: 0 and the word, or why it is not, and 0.
#[derive(Clone, Copy)]
pub struct Shown {
    pub number: u32,
    pub word: u32,
}

// A power and the turns that its loop made, with 0; or why there are none, and twice 0.
#[derive(Clone, Copy)]
pub struct Raised {
    pub number: u32,
    pub power: u32,
    pub turns: u32,
}

pub fn of_outcome(o: Outcome) -> Fault
    ensures number_value { result.number ≡ number_of (outcome_of o) }
    ensures place_value { result.place ≡ place_in (outcome_of o) }
{
    match o {
        Outcome::Accepted => Fault {
            number: 0,
            place: 0,
        },
        Outcome::Refused(number, at) => Fault {
            number: number,
            place: at as u64,
        },
    }
}

pub fn of_verdict(v: Verdict) -> Judged
    ensures number_value { result.number ≡ number_of (verdict_of v).outcome }
    ensures place_value { result.place ≡ place_in (verdict_of v).outcome }
    ensures reads_value { result.reads ≡ (verdict_of v).reads }
{
    let o = v.outcome;
    let f = of_outcome(o);
    Judged {
        number: f.number,
        place: f.place,
        reads: v.reads as u64,
    }
}

pub fn of_answer(answer: Answer) -> Answered
    ensures number_value { result.number ≡ refusal_of (answer_of answer) }
    ensures value_value { result.value ≡ value_of (answer_of answer) }
{
    match answer {
        Answer::Done(count) => Answered {
            number: 0,
            value: count as u64,
        },
        Answer::Refusal(number, place) => Answered {
            number: number,
            value: place as u64,
        },
    }
}

// Answers 0 where done, else the refusal's number.
pub fn refusal_number(answer: Answer) -> u32
    ensures { result ≡ refusal_of (answer_of answer) }
{
    match answer {
        Answer::Done(count) => 0,
        Answer::Refusal(number, place) => number,
    }
}

// A word that may be there: 0 and the word, or the reason and 0.
fn word_or(answer: Option<u32>, reason: u32) -> Shown
    ensures number_value { MatchOption answer (result.number ≡ reason) (λ x. result.number ≡ 0) }
    ensures word_value { MatchOption answer (result.word ≡ 0) (λ x. result.word ≡ x) }
{
    match answer {
        Some(x) => Shown { number: 0, word: x },
        None => Shown {
            number: reason,
            word: 0,
        },
    }
}

pub fn of_word(answer: Option<u32>) -> Shown
    ensures number_value { result.number ≡ word_number (word_of answer) }
    ensures word_value { result.word ≡ word_after (word_of answer) 0 }
{
    word_or(answer, NO_WORD)
}

pub fn of_element(answer: Option<u32>) -> Shown
    ensures number_value { result.number ≡ element_number (element_of answer) }
    ensures word_value { result.word ≡ element_after (element_of answer) 0 }
{
    word_or(answer, NO_FIELD)
}

pub fn of_power(answer: Option<Powered<u32>>) -> Raised
    ensures number_value { result.number ≡ power_number (powered_of answer) }
    ensures power_value { result.power ≡ power_after (powered_of answer) 0 }
    ensures turns_value { result.turns ≡ turns_after (powered_of answer) 0 }
{
    match answer {
        Some(p) => Raised {
            number: 0,
            power: p.value,
            turns: p.turns,
        },
        None => Raised {
            number: NO_FIELD,
            power: 0,
            turns: 0,
        },
    }
}

// The number of the reason why there is no inverse.
fn reason_number(reason: NoInverse) -> u32
    ensures { result ≡ reason_number reason }
{
    match reason {
        NoInverse::Zero => NO_INVERSE,
        NoInverse::NoField => NO_FIELD,
    }
}

pub fn of_inverse(answer: Result<u32, NoInverse>) -> Shown
    ensures number_value { result.number ≡ inverse_number (inverted_of answer) }
    ensures word_value { result.word ≡ inverse_after (inverted_of answer) 0 }
{
    match answer {
        Ok(u) => Shown { number: 0, word: u },
        Err(reason) => Shown {
            number: reason_number(reason),
            word: 0,
        },
    }
}
