// What a start tests of a file of edition 1: reading, and then the out coins, refusals 7 and 14. They are all that comes before the first shift or final coin.
#![tactic(auto)]

ghost use Rattle.std.specs.Prelude.{◌≡◌, ◌*◌, ◌/◌, ◌≤◌, min, length};
ghost use Rattle.definition.specs.Block.{stream_of};
ghost use Rattle.definition.specs.Deciding.{out_tests};
ghost use Rattle.device_definition.specs.Device.{start_tests};
ghost use Rattle.definition.specs.Layout.{layout, words_due};
ghost use Rattle.definition.specs.Reading.{reading, sheet_test};
ghost use Rattle.definition.specs.Sheet.{sheet_length, sheet_of};
ghost use Rattle.definition.specs.Verdict.{accepted, ◌then◌};
ghost use Rattle.edition.specs.Meaning.{edition_of};
ghost use Rattle.outcome.specs.Meaning.{outcome_of};

use edition::Edition;
use outcome::Outcome;

// Places for the words of the largest file that can be accepted, 67 blocks, and one block more.
const ANY_WORDS: usize = 8636;

// Places for the words of 8 blocks.
const SMALL_WORDS: usize = 1016;

// The tests of out coins, of the words of a stream that passes reading. A small sheet is spared the clearing of many places.
fn outs(e: Edition, w: &[u32]) -> Outcome
    requires w_value { sheet_test (edition_of e) w.now ≡ accepted }
    requires w_in_bounds { words_due (edition_of e) (sheet_of (edition_of e) w.now) ≤ length w.now }
    ensures { outcome_of result ≡ out_tests (sheet_of (edition_of e) w.now) (sheet_length (edition_of e)) (layout (sheet_of (edition_of e) w.now)) w.now }
{
    if w[1] <= 256 {
        let mut few = [0u32; domain::FEW_POINTS];
        let count = domain::of_sheet_within(w, &mut few);
        return out_coins::tests(e, w, &few[..count]);
    }
    let mut pw = [0u32; domain::POINTS];
    let size = domain::of_sheet(w, &mut pw);
    out_coins::tests(e, w, &pw[..size])
}

// The tests of a file, by way of the places lent.
fn tests_with(e: Edition, file: &[u8], words: &mut [u32]) -> Outcome
    requires { 127 * min (length file.now / 512) 68 ≤ length words.old }
    ensures { outcome_of result ≡ (reading (edition_of e) file.now then out_tests (sheet_of (edition_of e) (stream_of file.now)) (sheet_length (edition_of e)) (layout (sheet_of (edition_of e) (stream_of file.now))) (stream_of file.now)) }
{
    let read = reading::read(e, file, words);
    if let Outcome::Refused(number, place) = read {
        return Outcome::Refused(number, place);
    }
    outs(e, &words[..127 * (file.len() / 512)])
}

// The tests of a file of edition 1. A short one is spared the clearing of many places.
pub fn start_tests(file: &[u8]) -> Outcome
    ensures { outcome_of result ≡ start_tests file.now }
{
    if file.len() <= 4096 {
        let mut words = [0u32; SMALL_WORDS];
        return tests_with(Edition::One, file, &mut words);
    }
    let mut words = [0u32; ANY_WORDS];
    tests_with(Edition::One, file, &mut words)
}
