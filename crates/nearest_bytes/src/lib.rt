// What the program `nearest` writes, as a function of the bytes that it reads. No public operation asks anything of its caller.
#![tactic(auto)]

ghost use Rattle.std.specs.Prelude.{◌≡◌, ◌+◌, ◌*◌, ◌≤◌, length, take};
ghost use mathlib.Core.List.{flat_map};
ghost use Rattle.definition.specs.Block.{bytes_of};
ghost use Rattle.line.specs.Text.{text_of};
ghost use Rattle.list_laws.specs.Overwriting.{overwrite};
ghost use Rattle.outcome.specs.Meaning.{answer_of};
ghost use Rattle.nearest_bytes.specs.NearestInput.{nearest_input, nearest_of_words, nearest_written};

use edition::Edition;
use outcome::Answer;
use program_output::Written;

// The answer to the order in the first `count` words, and the whole output as it then is. The table is all that stands after the sheet.
fn find_words(words: &[u32; 8192], count: usize, output: &mut [u32]) -> Answer
    ensures result_value { answer_of result ≡ (nearest_of_words (take count words.now) output.old).answer }
    ensures output_after { output.new ≡ (nearest_of_words (take count words.now) output.old).output }
{
    let order = word_input::front(words, count);
    let sheet = word_input::sheet(Edition::One, order);
    let table = word_input::after(order, 12);
    nearest::nearest(sheet, table, output)
}

// The answer to the order that an input holds, and the whole output as it then is.
fn find_input(bytes: &[u8], output: &mut [u32; 3073]) -> Answer
    ensures result_value { answer_of result ≡ (nearest_input bytes.now output.old).answer }
    ensures output_after { output.new ≡ (nearest_input bytes.now output.old).output }
{
    let mut room = [0u32; 8192];
    let read = word_input::batch_words(bytes, &mut room);
    match read {
        Answer::Done(count) => find_words(&room, count, output),
        Answer::Refusal(number, place) => Answer::Refusal(number, place),
    }
}

// Stores a word in the four bytes from number `at` on, the least significant first.
fn put_word(out: &mut [u8], at: usize, w: u32)
    requires { at + 4 ≤ length out.old }
    ensures { out.new ≡ overwrite out.old at (bytes_of w) }
{
    let bytes = w.to_le_bytes();
    out[at..at + 4].copy_from_slice(&bytes);
}

// The bytes of the words, at the front of the output; answers how many they are.
fn put_words(words: &[u32], output: &mut [u8]) -> usize
    requires { (length words.now ≤ 3073) × (4 * length words.now ≤ length output.old) }
    ensures output_after { take result output.new ≡ flat_map bytes_of words.now }
    ensures value { result ≡ 4 * length words.now }
{
    for (i, w) in words.iter().enumerate() {
        put_word(output, 4 * i, *w);
    }
    4 * words.len()
}

// What `nearest` writes: the words of the nearest polynomial on standard output, or a refusal's line on standard error.
pub fn find(bytes: &[u8], output: &mut [u8; 12292]) -> Written
    ensures output_after { take result.length output.new ≡ (nearest_written bytes.now).output }
    ensures error_value { text_of result.error ≡ (nearest_written bytes.now).error }
    ensures length_bound { (result.length ≤ 12292) × (result.error.length ≤ 64) }
{
    let mut room = [0u32; 3073];
    let answer = find_input(bytes, &mut room);
    match answer {
        Answer::Done(count) => Written {
            length: put_words(word_input::front(&room, count), output),
            error: line::empty(),
        },
        Answer::Refusal(number, place) => Written {
            length: 0,
            error: line::of_refusal(number, place),
        },
    }
}
