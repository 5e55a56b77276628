// Prove: an order is refused with number and place and no byte is written, or the honest file stands at the front of the output.
#![tactic(auto)]

ghost use Rattle.std.specs.Prelude.{◌≡◌, ◌++◌, ◌*◌, ◌≤◌, length, drop};
ghost use Rattle.definition.specs.Block.{block_count, file_of};
ghost use Rattle.definition.specs.Layout.{words_due};
ghost use Rattle.definition.specs.Prove.{done, prove, prove_in};
ghost use Rattle.definition.specs.Prover.{honest_stream};
ghost use Rattle.definition.specs.Sheet.{edition2, sheet_of};
ghost use Rattle.completeness.specs.Numbered.{Allowed};
ghost use Rattle.edition.specs.Meaning.{edition_of};
ghost use Rattle.outcome.specs.Meaning.{answer_of};

use edition::Edition;
use outcome::{Answer, Outcome};

// Places for the words of the longest stream.
const ANY_WORDS: usize = 8509;

// Places for the words of 8 blocks.
const SMALL_WORDS: usize = 1016;

// Writes the honest file at the front of the output, by way of the places lent for the stream's words, of which it has `due`. The answer is its number of blocks.
fn write(
    e: Edition,
    sheet: &[u32],
    coefficients: &[u32],
    coins: &[u32],
    due: usize,
    words: &mut [u32],
    output: &mut [u8],
) -> Answer
    requires allowed { Allowed (edition_of e) sheet.now coefficients.now coins.now }
    requires due_value { (due ≡ words_due (edition_of e) (sheet_of (edition_of e) sheet.now)) × ((due ≤ length words.old) × (512 * block_count due ≤ length output.old)) }
    ensures result_value { answer_of result ≡ done (block_count due) }
    ensures output_after { output.new ≡ file_of (honest_stream (edition_of e) sheet.now coefficients.now coins.now) ++ drop (length (file_of (honest_stream (edition_of e) sheet.now coefficients.now coins.now))) output.old }
{
    honest::stream(e, sheet, coefficients, coins, &mut words[..due]);
    stream::write_file(words, due, output);
    Answer::Done((due + 126) / 127)
}

// The answer to an order with a sheet of the edition, and the whole output as it then is. No refusal is found after the first byte is written. A short file is
// spared the clearing of many places.
pub fn prove_in(
    e: Edition,
    sheet: &[u32],
    coefficients: &[u32],
    coins: &[u32],
    output: &mut [u8],
) -> Answer
    ensures result_value { answer_of result ≡ (prove_in (edition_of e) sheet.now coefficients.now coins.now output.old).answer }
    ensures output_after { output.new ≡ (prove_in (edition_of e) sheet.now coefficients.now coins.now output.old).output }
{
    let tests = input_tests::prove_tests(e, sheet, coefficients, coins, output.len());
    if let Outcome::Refused(number, place) = tests {
        return Answer::Refusal(number, place);
    }
    let due = sizes::words_due(e, sheet);
    if due <= SMALL_WORDS {
        let mut few = [0u32; SMALL_WORDS];
        return write(e, sheet, coefficients, coins, due, &mut few, output);
    }
    let mut words = [0u32; ANY_WORDS];
    write(e, sheet, coefficients, coins, due, &mut words, output)
}

// The answer to an order with a sheet of edition 1, and the whole output as it then is.
pub fn prove(sheet: &[u32], coefficients: &[u32], coins: &[u32], output: &mut [u8]) -> Answer
    ensures result_value { answer_of result ≡ (prove sheet.now coefficients.now coins.now output.old).answer }
    ensures output_after { output.new ≡ (prove sheet.now coefficients.now coins.now output.old).output }
{
    prove_in(Edition::One, sheet, coefficients, coins, output)
}

// The same of edition 2, under a name of its own, as the C function has one.
pub fn prove_2(sheet: &[u32], coefficients: &[u32], coins: &[u32], output: &mut [u8]) -> Answer
    ensures result_value { answer_of result ≡ (prove_in edition2 sheet.now coefficients.now coins.now output.old).answer }
    ensures output_after { output.new ≡ (prove_in edition2 sheet.now coefficients.now coins.now output.old).output }
{
    prove_in(Edition::Two, sheet, coefficients, coins, output)
}
