// What the programs for the shell write, as functions of the bytes that they read. No operation asks anything of its caller; the programs read, call one of these
// and write what it answers.
#![tactic(auto)]

ghost use Rattle.std.specs.Prelude.{◌≡◌, ℕ, ◌*◌, ◌≤◌, take};
ghost use Rattle.definition.specs.Prove.{done};
ghost use Rattle.edition.specs.Meaning.{edition_of};
ghost use Rattle.line.specs.Text.{text_of};
ghost use Rattle.outcome.specs.Meaning.{answer_of};
ghost use Rattle.program_output.specs.Leaves.{Leaves};
ghost use Rattle.program_output.specs.Output.{batch_written, check_batch_text, check_text, convert_written, prove_written, read_text};

use edition::Edition;
use line::Line;
use outcome::{Answer, Verdict};

// The bytes of a file that count: the first 65,536, or all.
fn taken(bytes: &[u8]) -> &[u8]
    ensures { result.now ≡ take 65536 bytes.now }
{
    if bytes.len() <= 65536 {
        return bytes;
    }
    &bytes[..65536]
}

// What `check` prints, and under edition 2 `check2`: the line of the verdict.
pub fn check(e: Edition, bytes: &[u8]) -> Line
    ensures result_value { text_of result ≡ check_text (edition_of e) bytes.now }
    ensures length_bound { result.length ≤ 64 }
{
    line::of_verdict(verify::verify_in(e, taken(bytes)))
}

// What `check-batch` prints: the line of the verdict on a batch.
pub fn check_batch(bytes: &[u8]) -> Line
    ensures result_value { text_of result ≡ check_batch_text bytes.now }
    ensures length_bound { result.length ≤ 64 }
{
    line::of_verdict(batch_verify::verify_batch(taken(bytes)))
}

// What `read` prints, and under edition 2 `read2`: the line of what reading says, with 0 reads.
pub fn read(e: Edition, bytes: &[u8]) -> Line
    ensures result_value { text_of result ≡ read_text (edition_of e) bytes.now }
    ensures length_bound { result.length ≤ 64 }
{
    let verdict = Verdict {
        outcome: verify::read_in(e, taken(bytes)),
        reads: 0,
    };
    line::of_verdict(verdict)
}

// What a program that writes a file leaves: so many bytes of the output lent to it go to standard output, and a line, or nothing, to standard error.
#[derive(Clone, Copy)]
pub struct Written {
    pub length: usize,
    pub error: Line,
}

// What is left by an answer.
fn after(answer: Answer) -> Written
    requires { (n : ℕ) → answer_of answer ≡ done n → 512 * n ≤ 65536 }
    ensures { Leaves (answer_of answer) result }
{
    match answer {
        Answer::Done(blocks) => Written {
            length: 512 * blocks,
            error: line::empty(),
        },
        Answer::Refusal(number, place) => Written {
            length: 0,
            error: line::of_refusal(number, place),
        },
    }
}

// What `prove` writes, and under edition 2 `prove2`.
pub fn prove(e: Edition, bytes: &[u8], output: &mut [u8; 34304]) -> Written
    ensures output_after { take result.length output.new ≡ (prove_written (edition_of e) bytes.now).output }
    ensures error_value { text_of result.error ≡ (prove_written (edition_of e) bytes.now).error }
    ensures length_bound { (result.length ≤ 34304) × (result.error.length ≤ 64) }
{
    match e {
        Edition::One => after(prove_bytes::prove_input(bytes, output)),
        Edition::Two => after(prove_bytes::prove_input_2(bytes, output)),
    }
}

// What `prove-batch` writes.
pub fn prove_batch(bytes: &[u8], output: &mut [u8; 50688]) -> Written
    ensures output_after { take result.length output.new ≡ (batch_written bytes.now).output }
    ensures error_value { text_of result.error ≡ (batch_written bytes.now).error }
    ensures length_bound { (result.length ≤ 50688) × (result.error.length ≤ 64) }
{
    after(batch_bytes::prove_input(bytes, output))
}

// What `convert` writes, by the edition that it converts to.
pub fn convert(to: Edition, bytes: &[u8], output: &mut [u8; 34304]) -> Written
    ensures output_after { take result.length output.new ≡ (convert_written (edition_of to) bytes.now).output }
    ensures error_value { text_of result.error ≡ (convert_written (edition_of to) bytes.now).error }
    ensures length_bound { (result.length ≤ 34304) × (result.error.length ≤ 64) }
{
    match to {
        Edition::One => after(convert::to_edition_1(taken(bytes), output)),
        Edition::Two => after(convert::to_edition_2(taken(bytes), output)),
    }
}
