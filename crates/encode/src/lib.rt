// Encode: an order is refused with number and place and no word is written, or table 0 stands at the front of the output.
#![tactic(auto)]

ghost use Rattle.std.specs.Prelude.{◌≡◌};
ghost use Rattle.definition.specs.Prove.{encode};
ghost use Rattle.outcome.specs.Meaning.{answer_of};

use outcome::{Answer, Outcome};

// The answer to an order, and the whole output as it then is. No refusal is found after the first word is written.
pub fn encode(sheet: &[u32], coefficients: &[u32], output: &mut [u32]) -> Answer
    ensures result_value { answer_of result ≡ (encode sheet.now coefficients.now output.old).answer }
    ensures output_after { output.new ≡ (encode sheet.now coefficients.now output.old).output }
{
    let tests = input_tests::encode_tests(sheet, coefficients, output.len());
    if let Outcome::Refused(number, place) = tests {
        return Answer::Refusal(number, place);
    }
    let size = widths::words(sheet[0], sheet[1] as usize);
    first_table::of_polynomial(sheet, coefficients, &mut output[..size]);
    Answer::Done(size)
}
