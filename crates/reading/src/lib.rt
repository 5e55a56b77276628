// Reading: refusals 1 to 6 of a file of either edition, and the words of its stream.
#![tactic(auto)]

ghost use Rattle.std.specs.Prelude.{◌≡◌, ℕ, ◌*◌, ◌/◌, ◌≤◌, min, length, List};
ghost use Rattle.definition.specs.Sheet.{sheet_length, sheet_of};
ghost use Rattle.definition.specs.Layout.{layout, words_due};
ghost use Rattle.definition.specs.Verdict.{accepted, ◌then◌};
ghost use Rattle.definition.specs.Reading.{sheet_test, range_test, fill_test, stream_tests};
ghost use Rattle.edition.specs.Meaning.{edition_of};
ghost use Rattle.outcome.specs.Meaning.{outcome_of};
ghost use Rattle.reading.specs.Stages.{Loads, Read};

use edition::Edition;
use outcome::Outcome;

// Refusals 5 and 6, of the words of a stream whose sheet passes and that has all words due, whose number is given.
pub fn body(e: Edition, w: &[u32], due: usize) -> Outcome
    requires w_value { sheet_test (edition_of e) w.now ≡ accepted }
    requires due_value { (due ≡ words_due (edition_of e) (sheet_of (edition_of e) w.now)) × (due ≤ length w.now) }
    ensures { outcome_of result ≡ (range_test (sheet_of (edition_of e) w.now) (sheet_length (edition_of e)) (layout (sheet_of (edition_of e) w.now)) w.now then fill_test (words_due (edition_of e) (sheet_of (edition_of e) w.now)) w.now) }
{
    let range = ranges::out_of_range(e, w);
    if let Some(place) = range {
        return Outcome::Refused(5, place);
    }
    let fill = ranges::fill_not_zero(w, due);
    if let Some(place) = fill {
        return Outcome::Refused(6, place);
    }
    Outcome::Accepted
}

// Refusals 3 to 6, of a file in so many blocks whose words are loaded. Only the words of the sheet are looked at before it passes.
fn after_checks(e: Edition, words: &[u32], blocks: usize) -> Outcome
    requires { (127 * min blocks 68 ≤ length words.now) × (1 ≤ blocks) }
    ensures { (w : List ℕ) → Loads 67 words.now blocks w → outcome_of result ≡ stream_tests (edition_of e) blocks w }
{
    let first = edition::sheet_words(e);
    let head = &words[..first];
    let broken = sheet::broken(e, head);
    if let Some(place) = broken {
        return Outcome::Refused(3, place);
    }
    let due = sizes::words_due(e, head);
    let needed = (due + 126) / 127;
    if blocks != needed {
        return Outcome::Refused(4, needed);
    }
    body(e, &words[..127 * blocks], due)
}

// Reads a file of any length and content. Where it is accepted, the words of its stream stand at the front of the places lent.
pub fn read(e: Edition, file: &[u8], words: &mut [u32]) -> Outcome
    requires { 127 * min (length file.now / 512) 68 ≤ length words.old }
    ensures { Read (edition_of e) file.now result words.new }
{
    if file.len() == 0 {
        return Outcome::Refused(1, 0);
    }
    if file.len() % 512 != 0 {
        return Outcome::Refused(1, 0);
    }
    let check = stream::load(file, 67, words);
    if let Some(place) = check {
        return Outcome::Refused(2, place);
    }
    after_checks(e, words, file.len() / 512)
}
