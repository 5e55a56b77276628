// Demand 3 in code: an order is proved, and what was written is judged.
#![tactic(auto)]

ghost use Rattle.std.specs.Prelude.{◌≡◌, ℕ, ◌*◌, take};
ghost use Rattle.definition.specs.Prove.{done, prove, prove_in};
ghost use Rattle.definition.specs.Sheet.{edition1, edition2, sheet_of};
ghost use Rattle.definition.specs.Verdict.{accepted};
ghost use Rattle.definition.specs.Verify.{verify, verify_in};
ghost use Rattle.completeness.specs.Numbered.{reads_due};
ghost use Rattle.edition.specs.Meaning.{edition_of};
ghost use Rattle.outcome.specs.Meaning.{answer_of, verdict_of};
ghost use Rattle.selfcheck.specs.Written.{blocks_written};

use edition::Edition;
use outcome::{Answer, Verdict};

// The prover's answer, and the verdict on what it wrote.
#[derive(Clone, Copy)]
pub struct Checked {
    pub answer: Answer,
    pub verdict: Verdict,
}

// The number of blocks written.
fn blocks(answer: Answer) -> usize
    ensures { result ≡ blocks_written (answer_of answer) }
{
    match answer {
        Answer::Done(count) => count,
        Answer::Refusal(_, _) => 0,
    }
}

// Proves with a sheet of the edition, and then judges the blocks written; of a refused order that is the empty file. Wherever prove answers done, the verdict
// is accepted with the due reads.
fn prove_then_verify_in(
    e: Edition,
    sheet: &[u32],
    coefficients: &[u32],
    coins: &[u32],
    output: &mut [u8],
) -> Checked
    ensures answer_value { answer_of result.answer ≡ (prove_in (edition_of e) sheet.now coefficients.now coins.now output.old).answer }
    ensures output_after { output.new ≡ (prove_in (edition_of e) sheet.now coefficients.now coins.now output.old).output }
    ensures verdict_value { verdict_of result.verdict ≡ verify_in (edition_of e) (take (512 * blocks_written (answer_of result.answer)) output.new) }
    ensures by_index { (count : ℕ) → answer_of result.answer ≡ done count → verdict_of result.verdict ≡ record { outcome = accepted; reads = reads_due (sheet_of (edition_of e) sheet.now) coins.now } }
{
    let answer = prove::prove_in(e, sheet, coefficients, coins, output);
    let count = blocks(answer);
    let verdict = verify::verify_in(e, &output[..512 * count]);
    Checked {
        answer: answer,
        verdict: verdict,
    }
}

// The same of edition 1.
pub fn prove_then_verify(
    sheet: &[u32],
    coefficients: &[u32],
    coins: &[u32],
    output: &mut [u8],
) -> Checked
    ensures answer_value { answer_of result.answer ≡ (prove sheet.now coefficients.now coins.now output.old).answer }
    ensures output_after { output.new ≡ (prove sheet.now coefficients.now coins.now output.old).output }
    ensures verdict_value { verdict_of result.verdict ≡ verify (take (512 * blocks_written (answer_of result.answer)) output.new) }
    ensures by_index { (count : ℕ) → answer_of result.answer ≡ done count → verdict_of result.verdict ≡ record { outcome = accepted; reads = reads_due (sheet_of edition1 sheet.now) coins.now } }
{
    prove_then_verify_in(Edition::One, sheet, coefficients, coins, output)
}

// The same of edition 2, under a name of its own, as the C function has one.
pub fn prove_then_verify_2(
    sheet: &[u32],
    coefficients: &[u32],
    coins: &[u32],
    output: &mut [u8],
) -> Checked
    ensures answer_value { answer_of result.answer ≡ (prove_in edition2 sheet.now coefficients.now coins.now output.old).answer }
    ensures output_after { output.new ≡ (prove_in edition2 sheet.now coefficients.now coins.now output.old).output }
    ensures verdict_value { verdict_of result.verdict ≡ verify_in edition2 (take (512 * blocks_written (answer_of result.answer)) output.new) }
    ensures by_index { (count : ℕ) → answer_of result.answer ≡ done count → verdict_of result.verdict ≡ record { outcome = accepted; reads = reads_due (sheet_of edition2 sheet.now) coins.now } }
{
    prove_then_verify_in(Edition::Two, sheet, coefficients, coins, output)
}
