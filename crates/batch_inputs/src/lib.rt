// The tests that the prover of batches makes of an order before it writes anything: refusals 3, 5, 7, 10, 11, 14 and 15, up to the first that fails. An order is a
// sheet w of edition 1, bounds, the coefficients f of all tables, coins, of which r is the first, and an output, of which only its size counts here.
#![tactic(auto)]

ghost use Rattle.std.specs.Prelude.{◌≡◌, ℕ, ◌+◌, ◌≤◌, length, replicate};
ghost use mathlib.Core.List.{List, ◌++◌, zip_with};
ghost use Rattle.definition.specs.Layout.{coin_kinds, layout, message};
ghost use Rattle.definition.specs.Lists.{first_true};
ghost use Rattle.definition.specs.Prove.{sheet_length_test};
ghost use Rattle.definition.specs.Reading.{out_of_range, sheet_test};
ghost use Rattle.definition.specs.Sheet.{edition1, sheet_length, sheet_of};
ghost use Rattle.definition.specs.Verdict.{accepted, ◌then◌};
ghost use Rattle.layouts.specs.Levels.{words_for};
ghost use Rattle.batch_definition.specs.Batch.{batch_input_tests, batch_layout, batch_out_tests, batch_test, batch_words};
ghost use Rattle.outcome.specs.Meaning.{outcome_of, place_of};

use edition::Edition;
use outcome::Outcome;

// The number of words of a batch's stream.
pub fn words_due(w: &[u32], bounds: &[u32]) -> usize
    requires edition1_in_bounds { (sheet_length edition1 ≤ length w.now) × (sheet_test edition1 w.now ≡ accepted) }
    requires bounds_value { batch_test (sheet_of edition1 w.now) (length bounds.now) bounds.now ≡ accepted }
    ensures { (result ≡ batch_words (sheet_of edition1 w.now) (length bounds.now)) × (result ≤ 12573) }
{
    sizes::words_due(Edition::One, w) + batch_sheet::shift(w, bounds.len())
}

// The first coin word out of range: those of r, then those of the coins after it.
fn coin_out_of_range(w: &[u32], coins: &[u32]) -> Option<usize>
    requires edition1_in_bounds { (sheet_length edition1 ≤ length w.now) × (sheet_test edition1 w.now ≡ accepted) }
    requires coins_len { length coins.now ≡ length (coin_kinds (layout (sheet_of edition1 w.now))) + words_for (sheet_of edition1 w.now) 1 }
    ensures { (count : ℕ) → place_of result ≡ first_true 0 (zip_with (out_of_range (sheet_of edition1 w.now)) (coin_kinds (batch_layout (sheet_of edition1 w.now) count)) coins.now) }
{
    let width = widths::words(w[0], 1);
    let combination = ranges::coefficient_out_of_range(w[0], &coins[..width]);
    if let Some(place) = combination {
        return Some(place);
    }
    let coin = ranges::coin_out_of_range(Edition::One, w, &coins[width..]);
    if let Some(place) = coin {
        return Some(width + place);
    }
    None
}

// Refusal 5: the first word out of range, by its position in the coefficients followed by the coins.
fn input_out_of_range(w: &[u32], f: &[u32], coins: &[u32]) -> Option<usize>
    requires edition1_in_bounds { (sheet_length edition1 ≤ length w.now) × ((sheet_test edition1 w.now ≡ accepted) × (length f.now ≤ 4096)) }
    requires coins_len { length coins.now ≡ length (coin_kinds (layout (sheet_of edition1 w.now))) + words_for (sheet_of edition1 w.now) 1 }
    ensures { (count : ℕ) → place_of result ≡ first_true 0 (zip_with (out_of_range (sheet_of edition1 w.now)) (replicate (length f.now) message ++ coin_kinds (batch_layout (sheet_of edition1 w.now) count)) (f.now ++ coins.now)) }
{
    let coefficient = ranges::coefficient_out_of_range(w[0], f);
    if let Some(place) = coefficient {
        return Some(place);
    }
    let coin = coin_out_of_range(w, coins);
    if let Some(place) = coin {
        return Some(f.len() + place);
    }
    None
}

// Refusals 7 and 14: those of the coins after r, by their positions among all coins.
fn out_tests(w: &[u32], coins: &[u32]) -> Outcome
    requires edition1_in_bounds { (sheet_length edition1 ≤ length w.now) × (sheet_test edition1 w.now ≡ accepted) }
    requires coins_len { length coins.now ≡ length (coin_kinds (layout (sheet_of edition1 w.now))) + words_for (sheet_of edition1 w.now) 1 }
    ensures { (count : ℕ) → outcome_of result ≡ batch_out_tests (sheet_of edition1 w.now) (coin_kinds (batch_layout (sheet_of edition1 w.now) count)) coins.now }
{
    let first = widths::words(w[0], 1);
    let outs = input_tests::coin_tests(Edition::One, w, &coins[first..]);
    if let Outcome::Refused(number, place) = outs {
        return Outcome::Refused(number, place + first);
    }
    Outcome::Accepted
}

// The tests after the rules of refusal 15.
fn after_rules(w: &[u32], bounds: &[u32], f: &[u32], coins: &[u32], room: usize) -> Outcome
    requires edition1_in_bounds { (sheet_length edition1 ≤ length w.now) × (sheet_test edition1 w.now ≡ accepted) }
    requires bounds_value { batch_test (sheet_of edition1 w.now) (length bounds.now) bounds.now ≡ accepted }
    ensures { (output : List ℕ) → length output ≡ room → outcome_of result ≡ batch_input_tests (sheet_of edition1 w.now) bounds.now f.now coins.now output }
{
    if f.len() != batch_sheet::coefficients_due(w, bounds) {
        return Outcome::Refused(10, 1);
    }
    if coins.len() != sizes::coins_due(Edition::One, w) + widths::words(w[0], 1) {
        return Outcome::Refused(10, 2);
    }
    let range = input_out_of_range(w, f, coins);
    if let Some(place) = range {
        return Outcome::Refused(5, place);
    }
    let outs = out_tests(w, coins);
    if let Outcome::Refused(number, place) = outs {
        return Outcome::Refused(number, place);
    }
    let blocks = (words_due(w, bounds) + 126) / 127;
    if room < 512 * blocks {
        return Outcome::Refused(11, blocks);
    }
    Outcome::Accepted
}

// The tests after the sheet's: the number of bounds and each of them, then the others.
fn after_sheet(w: &[u32], bounds: &[u32], f: &[u32], coins: &[u32], room: usize) -> Outcome
    requires { (sheet_length edition1 ≤ length w.now) × (sheet_test edition1 w.now ≡ accepted) }
    ensures { (output : List ℕ) → length output ≡ room → outcome_of result ≡ batch_input_tests (sheet_of edition1 w.now) bounds.now f.now coins.now output }
{
    let broken = batch_sheet::broken(w, bounds.len(), bounds);
    if let Some(place) = broken {
        return Outcome::Refused(15, place);
    }
    after_rules(w, bounds, f, coins, room)
}

// The tests of an order to prove a batch; `room` is the number of bytes of the output.
pub fn prove_tests(w: &[u32], bounds: &[u32], f: &[u32], coins: &[u32], room: usize) -> Outcome
    ensures { (output : List ℕ) → length output ≡ room → outcome_of result ≡ (sheet_length_test edition1 w.now then sheet_test edition1 w.now then batch_input_tests (sheet_of edition1 w.now) bounds.now f.now coins.now output) }
{
    let sheet = input_tests::sheet_tests(Edition::One, w);
    if let Outcome::Refused(number, place) = sheet {
        return Outcome::Refused(number, place);
    }
    after_sheet(w, bounds, f, coins, room)
}
