// The converter: a file of one edition, of any length and content, becomes a file of the other at the front of the output, or is refused with number and place and
// no byte is written. The words after the sheet stay where they were read, and the sheet is laid before them.
#![tactic(auto)]

ghost use Rattle.std.specs.Prelude.{◌≡◌, ◌++◌, ◌+◌, ◌*◌, ◌/◌, ◌≤◌, min, length, take, drop};
ghost use Rattle.definition.specs.Block.{block_count, file_of, stream_of};
ghost use Rattle.definition.specs.Convert.{backward as backward_of, folds_test, forward as forward_of, to_edition1, to_edition2};
ghost use Rattle.definition.specs.Prove.{done};
ghost use Rattle.definition.specs.Reading.{reading};
ghost use Rattle.definition.specs.Sheet.{edition1, edition2, sheet_of};
ghost use Rattle.definition.specs.Verdict.{◌then◌};
ghost use Rattle.outcome.specs.Gives.{Gives};
ghost use Rattle.outcome.specs.Meaning.{answer_of};
ghost use Rattle.convert.specs.Stages.{Sized, Tested, output_for};
ghost use Rattle.convert.specs.Ways.{converted};

use edition::Edition;
use outcome::{Answer, Outcome};

// Places for the words of the largest file that can be accepted, 67 blocks, and one block more, after six for a longer sheet.
const ANY_WORDS: usize = 8642;

// Places for the words of 8 blocks, after six.
const SMALL_WORDS: usize = 1022;

// Refusal 11, of the number of words to write and the number of bytes of the output; or that number of words.
fn output_test(count: usize, size: usize) -> Answer
    requires { count ≤ 8642 }
    ensures { Sized count size result }
{
    let blocks = (count + 126) / 127;
    if size < 512 * blocks {
        return Answer::Refusal(11, blocks);
    }
    Answer::Done(count)
}

// All tests of the way to edition 2; `size` is the number of bytes of the output. Where they pass, the answer is the number of words to write, and the words of the
// file stand at the front of the places lent.
fn forward_tests(file: &[u8], words: &mut [u32], size: usize) -> Answer
    requires { (127 * min (length file.now / 512) 68 ≤ length words.old) × (12 ≤ length words.old) }
    ensures { Tested (reading edition1 file.now then output_for (forward_of (stream_of file.now)) size) (forward_of (stream_of file.now)) file.now result words.new }
{
    let read = reading::read(Edition::One, file, words);
    if let Outcome::Refused(number, place) = read {
        return Answer::Refusal(number, place);
    }
    output_test(sizes::words_due(Edition::One, &words[..12]) + 6, size)
}

// All tests of the way to edition 1.
fn backward_tests(file: &[u8], words: &mut [u32], size: usize) -> Answer
    requires { (127 * min (length file.now / 512) 68 ≤ length words.old) × (18 ≤ length words.old) }
    ensures { Tested ((reading edition2 file.now then folds_test (sheet_of edition2 (stream_of file.now))) then output_for (backward_of (stream_of file.now)) size) (backward_of (stream_of file.now)) file.now result words.new }
{
    let read = reading::read(Edition::Two, file, words);
    if let Outcome::Refused(number, place) = read {
        return Answer::Refusal(number, place);
    }
    let head = &words[..18];
    let other = sheet_change::other_fold(head);
    if let Some(level) = other {
        return Answer::Refusal(13, level);
    }
    output_test(sizes::words_due(Edition::Two, head) - 6, size)
}

// Writes the file of the first `count` words at the front of the output. The answer is its number of blocks.
fn write(words: &[u32], count: usize, output: &mut [u8]) -> Answer
    requires { (count ≤ length words.now) × (512 * block_count count ≤ length output.old) }
    ensures result_value { answer_of result ≡ done (block_count count) }
    ensures output_after { output.new ≡ file_of (take count words.now) ++ drop (length (file_of (take count words.now))) output.old }
{
    stream::write_file(words, count, output);
    Answer::Done((count + 126) / 127)
}

// From edition 1 to edition 2, by way of the places lent: the file's words are read from place 6 on.
fn forward(file: &[u8], words: &mut [u32], output: &mut [u8]) -> Answer
    requires { (127 * min (length file.now / 512) 68 + 6 ≤ length words.old) × (18 ≤ length words.old) }
    ensures { (answer_of result ≡ (to_edition2 file.now output.old).answer) × (output.new ≡ (to_edition2 file.now output.old).output) }
{
    let tests = forward_tests(file, &mut words[6..], output.len());
    let Answer::Done(count) = tests else {
        return tests;
    };
    sheet_change::spread_sheet(words);
    write(words, count, output)
}

// From edition 2 to edition 1, by way of the places lent: the new file's words stand from place 6 on.
fn backward(file: &[u8], words: &mut [u32], output: &mut [u8]) -> Answer
    requires { (127 * min (length file.now / 512) 68 ≤ length words.old) × (18 ≤ length words.old) }
    ensures { (answer_of result ≡ (to_edition1 file.now output.old).answer) × (output.new ≡ (to_edition1 file.now output.old).output) }
{
    let tests = backward_tests(file, words, output.len());
    let Answer::Done(count) = tests else {
        return tests;
    };
    sheet_change::cut_sheet(words);
    write(&words[6..], count, output)
}

// A file as one of the edition named, from the other, by way of the places lent.
fn by_way(to: Edition, file: &[u8], words: &mut [u32], output: &mut [u8]) -> Answer
    requires { (127 * min (length file.now / 512) 68 + 6 ≤ length words.old) × (18 ≤ length words.old) }
    ensures { Gives (converted to file.now) output.old (answer_of result) output.new }
{
    match to {
        Edition::One => backward(file, words, output),
        Edition::Two => forward(file, words, output),
    }
}

// The same. A short file is spared the clearing of many places.
fn convert_to(to: Edition, file: &[u8], output: &mut [u8]) -> Answer
    ensures { Gives (converted to file.now) output.old (answer_of result) output.new }
{
    if file.len() <= 4096 {
        let mut few = [0u32; SMALL_WORDS];
        return by_way(to, file, &mut few, output);
    }
    let mut words = [0u32; ANY_WORDS];
    by_way(to, file, &mut words, output)
}

// A file of edition 1 as one of edition 2: the answer, and the whole output as it then is.
pub fn to_edition_2(file: &[u8], output: &mut [u8]) -> Answer
    ensures result_value { answer_of result ≡ (to_edition2 file.now output.old).answer }
    ensures output_after { output.new ≡ (to_edition2 file.now output.old).output }
{
    convert_to(Edition::Two, file, output)
}

// And back.
pub fn to_edition_1(file: &[u8], output: &mut [u8]) -> Answer
    ensures result_value { answer_of result ≡ (to_edition1 file.now output.old).answer }
    ensures output_after { output.new ≡ (to_edition1 file.now output.old).output }
{
    convert_to(Edition::One, file, output)
}
