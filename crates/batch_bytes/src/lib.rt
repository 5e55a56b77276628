// What the program `prove-batch` answers to the bytes that it reads. No public operation asks anything of its caller.
#![tactic(auto)]

ghost use Rattle.std.specs.Prelude.{◌≡◌, ◌≤◌, length, take};
ghost use Rattle.outcome.specs.Meaning.{answer_of};
ghost use Rattle.batch_bytes.specs.BatchInput.{table_count, bounds_part, coefficient_words, prove_batch_words, prove_batch_input};

use edition::Edition;
use outcome::Answer;

// The number of tables of an order: the word after the sheet; 0 where it is missing.
fn number(words: &[u32]) -> usize
    ensures { (result ≡ table_count words.now) × (result ≤ 4294967295) }
{
    if words.len() < 13 {
        return 0;
    }
    words[12] as usize
}

// The bounds of an order: the words after the number, as many as it says.
fn bounds(words: &[u32]) -> &[u32]
    ensures { result.now ≡ bounds_part words.now }
{
    word_input::front(word_input::after(words, 13), number(words))
}

// How many words the coefficients of an order have, by its sheet and bounds.
fn coefficient_words(words: &[u32]) -> usize
    requires { length words.now ≤ 8192 }
    ensures { result ≡ coefficient_words words.now }
{
    if words.len() < 1 {
        return 0;
    }
    let sum = batch_sheet::sum(bounds(words));
    widths::words(words[0], sum)
}

// The answer to the order in the first `count` words, and the whole output as it then is.
fn prove_words(words: &[u32; 8192], count: usize, output: &mut [u8]) -> Answer
    ensures result_value { answer_of result ≡ (prove_batch_words (take count words.now) output.old).answer }
    ensures output_after { output.new ≡ (prove_batch_words (take count words.now) output.old).output }
{
    let order = word_input::front(words, count);
    let sheet = word_input::sheet(Edition::One, order);
    let limits = bounds(order);
    let body = word_input::after(order, 13 + number(order));
    let due = coefficient_words(order);
    let f = word_input::front(body, due);
    let coins = word_input::after(body, due);
    batch_prove::prove_batch(sheet, limits, f, coins, output)
}

// The answer to the order that an input holds, and the whole output as it then is.
pub fn prove_input(bytes: &[u8], output: &mut [u8]) -> Answer
    ensures result_value { answer_of result ≡ (prove_batch_input bytes.now output.old).answer }
    ensures output_after { output.new ≡ (prove_batch_input bytes.now output.old).output }
{
    let mut room = [0u32; 8192];
    let read = word_input::batch_words(bytes, &mut room);
    match read {
        Answer::Done(count) => prove_words(&room, count, output),
        Answer::Refusal(number, place) => Answer::Refusal(number, place),
    }
}
