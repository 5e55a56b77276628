// The tests that the search for the nearest polynomial makes of an order before it searches: refusals 3, 5, 10 and 11, up to the first that fails. An order is a
// sheet w of edition 1, a table of its n0 entries, and an output, of which only its size counts here.
#![tactic(auto)]

ghost use Rattle.std.specs.Prelude.{◌≡◌, List, ℕ, ◌≤◌, length};
ghost use Rattle.definition.specs.Prove.{sheet_length_test};
ghost use Rattle.definition.specs.Reading.{sheet_test};
ghost use Rattle.definition.specs.Sheet.{edition1, sheet_length, sheet_of};
ghost use Rattle.definition.specs.Verdict.{accepted, ◌then◌};
ghost use Rattle.nearest_definition.specs.Nearest.{nearest_tests};
ghost use Rattle.outcome.specs.Meaning.{outcome_of};

use edition::Edition;
use outcome::Outcome;

// The tests after the sheet's: encode's, of the table's entries, and room for all that may be written.
fn after_sheet(w: &[u32], table: &[u32], room: usize) -> Outcome
    requires { (sheet_length edition1 ≤ length w.now) × (sheet_test edition1 w.now ≡ accepted) }
    ensures { (output : List ℕ) → length output ≡ room → outcome_of result ≡ nearest_tests (sheet_of edition1 w.now) table.now output }
{
    let field = w[0];
    let n = w[1] as usize;
    if table.len() != widths::words(field, n) {
        return Outcome::Refused(10, 1);
    }
    let range = ranges::coefficient_out_of_range(field, table);
    if let Some(place) = range {
        return Outcome::Refused(5, place);
    }
    let d = w[2] as usize;
    let most = widths::words(field, d) + 1 + (n - d) / 2;
    if room < most {
        return Outcome::Refused(11, most);
    }
    Outcome::Accepted
}

// The tests of an order to find the nearest polynomial but for 19; `room` is the number of words of the output.
pub fn nearest_tests(w: &[u32], table: &[u32], room: usize) -> Outcome
    ensures { (output : List ℕ) → length output ≡ room → outcome_of result ≡ (sheet_length_test edition1 w.now then sheet_test edition1 w.now then nearest_tests (sheet_of edition1 w.now) table.now output) }
{
    let sheet = input_tests::sheet_tests(Edition::One, w);
    if let Outcome::Refused(number, place) = sheet {
        return Outcome::Refused(number, place);
    }
    after_sheet(w, table, room)
}
