// The tests that prove and encode make of an order before they write anything: refusals 3, 5, 7, 10, 11 and 14, up to the first that fails. An order is a sheet w,
// coefficients f, for prove coins, and an output, of which only its size counts here. Prove has either edition, encode edition 1.
#![tactic(auto)]

ghost use Rattle.std.specs.Prelude.{◌≡◌, List, ◌++◌, ℕ, ◌≤◌, length, get_or};
ghost use Rattle.definition.specs.Field.{spelling_of, word_count};
ghost use Rattle.definition.specs.Layout.{coin_kinds, layout};
ghost use Rattle.definition.specs.Prove.{coin_domain_test, coin_equal_test, encode_tests, input_range_test, prove_tests, sheet_length_test};
ghost use Rattle.definition.specs.Reading.{sheet_test};
ghost use Rattle.definition.specs.Sheet.{edition1, sheet_length, sheet_of};
ghost use Rattle.definition.specs.Verdict.{accepted, refuse_at, ◌then◌};
ghost use Rattle.edition.specs.Meaning.{edition_of};
ghost use Rattle.outcome.specs.Meaning.{outcome_of, place_of};

use edition::Edition;
use outcome::Outcome;

// Refusal 5 of prove: the first word out of range, by its position in the coefficients followed by the coins.
fn input_out_of_range(e: Edition, w: &[u32], f: &[u32], coins: &[u32]) -> Option<usize>
    requires e_in_bounds { (sheet_length (edition_of e) ≤ length w.now) × (sheet_test (edition_of e) w.now ≡ accepted) }
    requires f_len { length f.now ≡ word_count (spelling_of (get_or w.now 0 0)) (get_or w.now 2 0) }
    requires coins_len { length coins.now ≡ length (coin_kinds (layout (sheet_of (edition_of e) w.now))) }
    ensures { refuse_at 5 (place_of result) ≡ input_range_test (sheet_of (edition_of e) w.now) (coin_kinds (layout (sheet_of (edition_of e) w.now))) (f.now ++ coins.now) }
{
    let coefficient = ranges::coefficient_out_of_range(w[0], f);
    if let Some(place) = coefficient {
        return Some(place);
    }
    let coin = ranges::coin_out_of_range(e, w, coins);
    if let Some(place) = coin {
        return Some(f.len() + place);
    }
    None
}

// Refusals 7 and 14 of prove, with the table of points made for them. A small sheet is spared the clearing of many places.
pub fn coin_tests(e: Edition, w: &[u32], coins: &[u32]) -> Outcome
    requires e_in_bounds { (sheet_length (edition_of e) ≤ length w.now) × (sheet_test (edition_of e) w.now ≡ accepted) }
    requires coins_len { length coins.now ≡ length (coin_kinds (layout (sheet_of (edition_of e) w.now))) }
    ensures { outcome_of result ≡ (coin_domain_test (sheet_of (edition_of e) w.now) coins.now then coin_equal_test (sheet_of (edition_of e) w.now) coins.now) }
{
    if w[1] <= 256 {
        let mut few = [0u32; domain::FEW_POINTS];
        let count = domain::of_sheet_within(w, &mut few);
        return out_coins::coin_tests(e, w, &few[..count], coins);
    }
    let mut pw = [0u32; domain::POINTS];
    let size = domain::of_sheet(w, &mut pw);
    out_coins::coin_tests(e, w, &pw[..size], coins)
}

// What both begin with: the sheet is as long as its edition says (else 10), and none of its words breaks its rule (else 3).
pub fn sheet_tests(e: Edition, w: &[u32]) -> Outcome
    ensures { outcome_of result ≡ (sheet_length_test (edition_of e) w.now then sheet_test (edition_of e) w.now) }
{
    if w.len() != edition::sheet_words(e) {
        return Outcome::Refused(10, 0);
    }
    let broken = sheet::broken(e, w);
    if let Some(place) = broken {
        return Outcome::Refused(3, place);
    }
    Outcome::Accepted
}

// The tests of prove after the sheet's.
fn prove_after_sheet(e: Edition, w: &[u32], f: &[u32], coins: &[u32], room: usize) -> Outcome
    requires { (sheet_length (edition_of e) ≤ length w.now) × (sheet_test (edition_of e) w.now ≡ accepted) }
    ensures { (output : List ℕ) → length output ≡ room → outcome_of result ≡ prove_tests (edition_of e) (sheet_of (edition_of e) w.now) f.now coins.now output }
{
    if f.len() != widths::words(w[0], w[2] as usize) {
        return Outcome::Refused(10, 1);
    }
    if coins.len() != sizes::coins_due(e, w) {
        return Outcome::Refused(10, 2);
    }
    let range = input_out_of_range(e, w, f, coins);
    if let Some(place) = range {
        return Outcome::Refused(5, place);
    }
    let outs = coin_tests(e, w, coins);
    if let Outcome::Refused(number, place) = outs {
        return Outcome::Refused(number, place);
    }
    let blocks = sizes::blocks_due(e, w);
    if room < 512 * blocks {
        return Outcome::Refused(11, blocks);
    }
    Outcome::Accepted
}

// The tests of encode after the sheet's.
fn encode_after_sheet(w: &[u32], f: &[u32], room: usize) -> Outcome
    requires { (sheet_length edition1 ≤ length w.now) × (sheet_test edition1 w.now ≡ accepted) }
    ensures { (output : List ℕ) → length output ≡ room → outcome_of result ≡ encode_tests (sheet_of edition1 w.now) f.now output }
{
    let field = w[0];
    if f.len() != widths::words(field, w[2] as usize) {
        return Outcome::Refused(10, 1);
    }
    let range = ranges::coefficient_out_of_range(field, f);
    if let Some(place) = range {
        return Outcome::Refused(5, place);
    }
    let size = widths::words(field, w[1] as usize);
    if room < size {
        return Outcome::Refused(11, size);
    }
    Outcome::Accepted
}

// The tests of an order to prove; `room` is the number of bytes of the output.
pub fn prove_tests(e: Edition, w: &[u32], f: &[u32], coins: &[u32], room: usize) -> Outcome
    ensures { (output : List ℕ) → length output ≡ room → outcome_of result ≡ (sheet_length_test (edition_of e) w.now then sheet_test (edition_of e) w.now then prove_tests (edition_of e) (sheet_of (edition_of e) w.now) f.now coins.now output) }
{
    let sheet = sheet_tests(e, w);
    if let Outcome::Refused(number, place) = sheet {
        return Outcome::Refused(number, place);
    }
    prove_after_sheet(e, w, f, coins, room)
}

// The tests of an order to encode; `room` is the number of words of the output.
pub fn encode_tests(w: &[u32], f: &[u32], room: usize) -> Outcome
    ensures { (output : List ℕ) → length output ≡ room → outcome_of result ≡ (sheet_length_test edition1 w.now then sheet_test edition1 w.now then encode_tests (sheet_of edition1 w.now) f.now output) }
{
    let sheet = sheet_tests(Edition::One, w);
    if let Outcome::Refused(number, place) = sheet {
        return Outcome::Refused(number, place);
    }
    encode_after_sheet(w, f, room)
}
