// The nearest polynomial to table 0 of a sheet: an order is refused with number and place and no word is written, or the coefficients, the count of the points
// where they differ from the table, and the numbers of these points stand at the front of the output.
#![tactic(auto)]

ghost use Rattle.std.specs.Prelude.{◌≡◌, ◌+◌, ◌-◌, ◌/◌, ◌≤◌, length, get_or};
ghost use Rattle.definition.specs.Reading.{sheet_test};
ghost use Rattle.definition.specs.Sheet.{edition1, sheet_of};
ghost use Rattle.definition.specs.Verdict.{accepted};
ghost use Rattle.nearest_definition.specs.Nearest.{nearest};
ghost use Rattle.outcome.specs.Meaning.{answer_of};
ghost use Rattle.spelling.specs.ByField.{words_at};
ghost use Rattle.candidate.specs.Tables.{Sized};
ghost use Rattle.tables.specs.Halving.{Halves};
ghost use Rattle.nearest.specs.Searched.{Searched, SearchedFor};

use outcome::{Answer, Outcome};

// The answer for a table over the points pw: the decoder's candidate goes to f, and is reported if it is near.
fn search(
    field: u32,
    pw: &[u32],
    table: &[u32],
    d: usize,
    f: &mut [u32],
    output: &mut [u32],
) -> Answer
    requires sized { (Sized (length pw.now) d) × (Halves d (length pw.now)) }
    requires table_len { (length table.now ≡ words_at field (length pw.now)) × ((length table.now ≤ 4096) × ((length f.old ≡ words_at field d) × (length f.old ≤ 2048))) }
    requires d_in_bounds { length f.old + 1 + (length pw.now - d) / 2 ≤ length output.old }
    ensures { Searched field pw.now table.now d output.old (answer_of result) output.new }
{
    let found = nearest_planes::candidate(field, pw, table, d, f);
    if !found {
        return Answer::Refusal(19, 0);
    }
    closest::conclude(field, pw, table, f, output)
}

// Places for the words of the coefficients: d0 is at most half of n0. Of at most 256 points they are four times 128.
const WORDS: usize = 2048;

const FEW_WORDS: usize = 512;

// The answer for a sheet w that passes, with n0 entries and room for all that may be written. A small sheet is spared the clearing of many places.
fn search_for(w: &[u32], table: &[u32], output: &mut [u32]) -> Answer
    requires in_bounds { (12 ≤ length w.now) × (sheet_test edition1 w.now ≡ accepted) }
    requires table_len { length table.now ≡ words_at (get_or w.now 0 0) (get_or w.now 1 0) }
    requires w_in_bounds { words_at (get_or w.now 0 0) (get_or w.now 2 0) + 1 + (get_or w.now 1 0 - get_or w.now 2 0) / 2 ≤ length output.old }
    ensures { SearchedFor (sheet_of edition1 w.now) table.now output.old (answer_of result) output.new }
{
    let field = w[0];
    let d = w[2] as usize;
    let long = widths::words(field, d);
    if w[1] <= 256 {
        let mut few = [0u32; domain::FEW_POINTS];
        let count = domain::of_sheet_within(w, &mut few);
        let mut g = [0u32; FEW_WORDS];
        return search(field, &few[..count], table, d, &mut g[..long], output);
    }
    let mut pw = [0u32; domain::POINTS];
    let size = domain::of_sheet(w, &mut pw);
    let mut f = [0u32; WORDS];
    search(field, &pw[..size], table, d, &mut f[..long], output)
}

// The answer to an order, and the whole output as it then is. No refusal is found after the first word is written.
pub fn nearest(sheet: &[u32], table: &[u32], output: &mut [u32]) -> Answer
    ensures result_value { answer_of result ≡ (nearest sheet.now table.now output.old).answer }
    ensures output_after { output.new ≡ (nearest sheet.now table.now output.old).output }
{
    let tests = nearest_inputs::nearest_tests(sheet, table, output.len());
    if let Outcome::Refused(number, place) = tests {
        return Answer::Refusal(number, place);
    }
    search_for(sheet, table, output)
}
