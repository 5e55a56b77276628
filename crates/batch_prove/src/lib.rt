// Prove, of a batch: an order is refused with number and place and no byte is written, or the honest batch's file stands at the front of the output.
#![tactic(auto)]

ghost use Rattle.std.specs.Prelude.{◌≡◌, ◌++◌, ◌*◌, ◌≤◌, length, drop, get_or};
ghost use Rattle.definition.specs.Block.{block_count, file_of};
ghost use Rattle.definition.specs.Field.{elements_in, number_in, words_of};
ghost use Rattle.definition.specs.Prove.{done};
ghost use Rattle.definition.specs.Sheet.{edition1, sheet_of};
ghost use Rattle.layouts.specs.Levels.{sheet_field, words_for};
ghost use Rattle.batch_definition.specs.Batch.{batch_words, combine_poly, cut_by, honest_batch, prove_batch};
ghost use Rattle.batches.specs.Batched.{AllowedBatch};
ghost use Rattle.outcome.specs.Meaning.{answer_of};

use edition::Edition;
use outcome::{Answer, Outcome};

// Places for the words of the longest stream.
const ANY_WORDS: usize = 12573;

// Places for the words of d0 coefficients.
const COEFFICIENTS: usize = 2048;

// The words of the combined polynomial.
fn combined(w: &[u32], bounds: &[u32], f: &[u32], coins: &[u32], out: &mut [u32])
    requires allowed_batch { AllowedBatch w.now bounds.now f.now coins.now }
    requires out_len { length out.old ≡ words_for (sheet_of edition1 w.now) (sheet_of edition1 w.now).degree }
    ensures { out.new ≡ words_of (sheet_of edition1 w.now).spelling (combine_poly (sheet_field (sheet_of edition1 w.now)) (sheet_of edition1 w.now).degree 0 (get_or (elements_in (sheet_of edition1 w.now).spelling coins.now) 0 (number_in (sheet_of edition1 w.now).spelling 0)) (cut_by bounds.now (elements_in (sheet_of edition1 w.now).spelling f.now))) }
{
    let mut scratch = [0u32; COEFFICIENTS];
    let field = w[0];
    let degree = w[2] as usize;
    let n = widths::words(field, degree);
    let r = elements::at(field, coins, 0);
    combination::polynomial(field, degree, r, bounds, f, &mut scratch[..n], out);
}

// The words of the honest stream: from fold coin 0 on those of a plain run, with the combined polynomial and the coins after r; before it the batch's own.
fn stream_words(w: &[u32], bounds: &[u32], f: &[u32], coins: &[u32], out: &mut [u32])
    requires allowed_batch { AllowedBatch w.now bounds.now f.now coins.now }
    requires out_len { length out.old ≡ batch_words (sheet_of edition1 w.now) (length bounds.now) }
    ensures { out.new ≡ honest_batch w.now bounds.now f.now coins.now }
{
    let mut g = [0u32; COEFFICIENTS];
    let n = widths::words(w[0], w[2] as usize);
    combined(w, bounds, f, coins, &mut g[..n]);
    let width = widths::words(w[0], 1);
    let shift = batch_sheet::shift(w, bounds.len());
    honest::stream(Edition::One, w, &g[..n], &coins[width..], &mut out[shift..]);
    let at = shift + 12 + widths::words(w[0], w[1] as usize);
    batch_front::front(w, bounds, f, coins, &mut out[..at]);
}

// Writes the honest file at the front of the output, by way of the places lent for the stream's words, of which it has `due`. The answer is its number of blocks.
fn write(
    w: &[u32],
    bounds: &[u32],
    f: &[u32],
    coins: &[u32],
    due: usize,
    words: &mut [u32],
    output: &mut [u8],
) -> Answer
    requires allowed_batch { AllowedBatch w.now bounds.now f.now coins.now }
    requires due_value { (due ≡ batch_words (sheet_of edition1 w.now) (length bounds.now)) × ((due ≤ length words.old) × (512 * block_count due ≤ length output.old)) }
    ensures result_value { answer_of result ≡ done (block_count due) }
    ensures output_after { output.new ≡ file_of (honest_batch w.now bounds.now f.now coins.now) ++ drop (length (file_of (honest_batch w.now bounds.now f.now coins.now))) output.old }
{
    stream_words(w, bounds, f, coins, &mut words[..due]);
    stream::write_file(words, due, output);
    Answer::Done((due + 126) / 127)
}

// The answer to an order to prove a batch with a sheet of edition 1, and the whole output as it then is. No refusal is found after the first byte is written.
pub fn prove_batch(
    sheet: &[u32],
    bounds: &[u32],
    coefficients: &[u32],
    coins: &[u32],
    output: &mut [u8],
) -> Answer
    ensures result_value { answer_of result ≡ (prove_batch sheet.now bounds.now coefficients.now coins.now output.old).answer }
    ensures output_after { output.new ≡ (prove_batch sheet.now bounds.now coefficients.now coins.now output.old).output }
{
    let tests = batch_inputs::prove_tests(sheet, bounds, coefficients, coins, output.len());
    if let Outcome::Refused(number, place) = tests {
        return Answer::Refusal(number, place);
    }
    let due = batch_inputs::words_due(sheet, bounds);
    let mut words = [0u32; ANY_WORDS];
    write(sheet, bounds, coefficients, coins, due, &mut words, output)
}
