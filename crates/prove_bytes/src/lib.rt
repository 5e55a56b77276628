// What the programs `prove` and `prove2` answer to the bytes that they read. No operation asks anything of its caller.
#![tactic(auto)]

ghost use Rattle.std.specs.Prelude.{◌≡◌, take};
ghost use Rattle.definition.specs.Sheet.{edition2};
ghost use Rattle.edition.specs.Meaning.{edition_of};
ghost use Rattle.outcome.specs.Meaning.{answer_of};
ghost use Rattle.word_input.specs.Input.{prove_words, prove_input_in, prove_input};

use edition::Edition;
use outcome::Answer;

// The answer to the order in the first `count` words, whose sheet is of the edition, and the whole output as it then is.
fn prove_words(e: Edition, words: &[u32; 4096], count: usize, output: &mut [u8]) -> Answer
    ensures result_value { answer_of result ≡ (prove_words (edition_of e) (take count words.now) output.old).answer }
    ensures output_after { output.new ≡ (prove_words (edition_of e) (take count words.now) output.old).output }
{
    let order = word_input::front(words, count);
    let given = word_input::sheet(e, order);
    let f = word_input::coefficients(e, order);
    let rest = word_input::coins(e, order);
    prove::prove_in(e, given, f, rest, output)
}

// The answer to the order that an input holds, with a sheet of the edition, and the whole output as it then is.
fn prove_input_in(e: Edition, bytes: &[u8], output: &mut [u8]) -> Answer
    ensures result_value { answer_of result ≡ (prove_input_in (edition_of e) bytes.now output.old).answer }
    ensures output_after { output.new ≡ (prove_input_in (edition_of e) bytes.now output.old).output }
{
    let mut room = [0u32; 4096];
    let read = word_input::words(bytes, &mut room);
    match read {
        Answer::Done(count) => prove_words(e, &room, count, output),
        Answer::Refusal(number, place) => Answer::Refusal(number, place),
    }
}

// The program `prove`: the answer to the order that an input holds, and the whole output as it then is.
pub fn prove_input(bytes: &[u8], output: &mut [u8]) -> Answer
    ensures result_value { answer_of result ≡ (prove_input bytes.now output.old).answer }
    ensures output_after { output.new ≡ (prove_input bytes.now output.old).output }
{
    prove_input_in(Edition::One, bytes, output)
}

// The program `prove2`: the same with a sheet of edition 2, under a name of its own, as the program has one.
pub fn prove_input_2(bytes: &[u8], output: &mut [u8]) -> Answer
    ensures result_value { answer_of result ≡ (prove_input_in edition2 bytes.now output.old).answer }
    ensures output_after { output.new ≡ (prove_input_in edition2 bytes.now output.old).output }
{
    prove_input_in(Edition::Two, bytes, output)
}
