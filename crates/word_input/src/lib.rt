// Words from bytes, and what they are to the programs: sheet, coefficients and coins of an order. No public function asks anything of its caller.
#![tactic(auto)]

ghost use Rattle.std.specs.Prelude.{◌≡◌, ◌/◌, ◌≤◌, length, take, drop};
ghost use Rattle.definition.specs.Sheet.{sheet_length};
ghost use Rattle.edition.specs.Meaning.{edition_of};
ghost use Rattle.outcome.specs.Meaning.{answer_of};
ghost use Rattle.list_laws.specs.Overwriting.{overwrite};
ghost use Rattle.word_input.specs.Input.{words_of, place_words, take_words, sheet_part, coefficient_words, coefficients_part, coins_part};

use edition::Edition;
use outcome::Answer;

// So many bytes of an input count, and so many of an order for a batch.
const BYTES: usize = 16384;

const BATCH_BYTES: usize = 2 * BYTES;

// The first `count` elements, or all.
fn first<T>(xs: &[T], count: usize) -> &[T]
    ensures value { result.now ≡ take count xs.now }
    ensures bound { length result.now ≤ count }
{
    xs.get(..count).unwrap_or(xs)
}

// The words of the bytes, at the front of the output.
fn place(bytes: &[u8], output: &mut [u32])
    requires { length bytes.now / 4 ≤ length output.old }
    ensures { output.new ≡ overwrite output.old 0 (words_of bytes.now) }
{
    for i in 0..bytes.len() / 4 {
        output[i] = stream::word(bytes, 4 * i);
    }
}

// The words of bytes that all count, at the front of the output; done with their number. Refused where they are no whole number of words.
fn whole_words(counted: &[u8], output: &mut [u32]) -> Answer
    requires { length counted.now / 4 ≤ length output.old }
    ensures result_value { answer_of result ≡ (place_words counted.now output.old).answer }
    ensures output_after { output.new ≡ (place_words counted.now output.old).output }
{
    if counted.len() % 4 != 0 {
        return Answer::Refusal(10, 0);
    }
    place(counted, output);
    Answer::Done(counted.len() / 4)
}

// The words of an input of any length, of which 16,384 bytes count.
#[tactic(auto, unfolding(crate::specs::Input::taken))]
pub fn words(bytes: &[u8], output: &mut [u32; 4096]) -> Answer
    ensures result_value { answer_of result ≡ (take_words bytes.now output.old).answer }
    ensures output_after { output.new ≡ (take_words bytes.now output.old).output }
{
    whole_words(first(bytes, BYTES), output)
}

// The words of an input that is an order for a batch, of which twice as many bytes count.
pub fn batch_words(bytes: &[u8], output: &mut [u32; 8192]) -> Answer
    ensures result_value { answer_of result ≡ (place_words (take 32768 bytes.now) output.old).answer }
    ensures output_after { output.new ≡ (place_words (take 32768 bytes.now) output.old).output }
{
    whole_words(first(bytes, BATCH_BYTES), output)
}

// The first `count` words, or all.
pub fn front(words: &[u32], count: usize) -> &[u32]
    ensures { result.now ≡ take count words.now }
{
    first(words, count)
}

// The words after the first `count`, or none.
pub fn after(words: &[u32], count: usize) -> &[u32]
    ensures { result.now ≡ drop count words.now }
{
    words.get(count..).unwrap_or(&[])
}

// How many words the coefficients of an order have, by its sheet: those of d0 elements, which is word 2; none where it is missing.
fn coefficient_words(words: &[u32]) -> usize
    ensures { result ≡ coefficient_words words.now }
{
    match words {
        [number, _, count, ..] => widths::words(*number, *count as usize),
        _ => 0,
    }
}

// The sheet of an order, of the edition: its first words.
#[tactic(auto, unfolding(crate::specs::Input::sheet_part))]
pub fn sheet(e: Edition, words: &[u32]) -> &[u32]
    ensures { result.now ≡ sheet_part (edition_of e) words.now }
{
    front(words, edition::sheet_words(e))
}

// The words after the sheet.
fn body(e: Edition, words: &[u32]) -> &[u32]
    ensures { result.now ≡ drop (sheet_length (edition_of e)) words.now }
{
    after(words, edition::sheet_words(e))
}

// The coefficients of an order: the words after the sheet, as many as these.
#[tactic(auto, unfolding(crate::specs::Input::coefficients_part))]
pub fn coefficients(e: Edition, words: &[u32]) -> &[u32]
    ensures { result.now ≡ coefficients_part (edition_of e) words.now }
{
    front(body(e, words), coefficient_words(words))
}

// The coins of an order: the rest.
#[tactic(auto, unfolding(crate::specs::Input::coins_part))]
pub fn coins(e: Edition, words: &[u32]) -> &[u32]
    ensures { result.now ≡ coins_part (edition_of e) words.now }
{
    after(body(e, words), coefficient_words(words))
}
