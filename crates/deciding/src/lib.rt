// Deciding, of the words w of a stream of edition e that passes reading: refusals 7, 14, 8 and 9, and the reads. pw is the table of the points of domain 0.
#![tactic(auto)]

ghost use Rattle.std.specs.Prelude.{◌≡◌, ◌≤◌, length, get_or, drop};
ghost use Rattle.definition.specs.Deciding.{counted, decide as decide_by, deciding as deciding_of, out_test};
ghost use Rattle.definition.specs.Layout.{layout, read_transcript, words_due};
ghost use Rattle.definition.specs.Reading.{range_test, sheet_test};
ghost use Rattle.definition.specs.Sheet.{first_level, root_of_unity, sheet_length, sheet_of};
ghost use Rattle.definition.specs.Verdict.{accepted};
ghost use Rattle.layouts.specs.Levels.{sheet_field, sheet_root, words_for};
ghost use Rattle.domain.specs.Powers.{Powers};
ghost use Rattle.edition.specs.Meaning.{edition_of};
ghost use Rattle.outcome.specs.Meaning.{verdict_of};
ghost use Rattle.level_words.specs.State.{after_fold};
ghost use Rattle.out_coins.specs.Kinds.{kinds_after_fold};

use domain::{FEW_POINTS, POINTS};
use edition::Edition;
use lists::{DOUBLE_PLACES, FOUR_DOUBLE, FOUR_PLACES, PLACES};
use outcome::{Outcome, Verdict};

// Places for the samples of a round, at most 48 + 2.
const SAMPLES: usize = 50;

// The same, of four words each.
const FOUR_SAMPLES: usize = 200;

// Places for the points of a sheet of field 3.
const FOUR_POINTS: usize = 1024;

// Deciding from table 0 on, by the table of points: refusals 8 and 9. Only the words after fold coin 0 need be in range. Past refusal 7 no out coin lies in its
// round's domain, and so nothing is divided by 0. The places for the samples and for the coefficients of a round are lent.
fn decide_past_out_tests(
    e: Edition,
    w: &[u32],
    pw: &[u32],
    px: &mut [u32],
    py: &mut [u32],
    ac: &mut [u32],
    vg: &mut [u32],
) -> Verdict
    requires w_value { (sheet_test (edition_of e) w.now ≡ accepted) × (range_test (sheet_of (edition_of e) w.now) (after_fold (sheet_length (edition_of e)) (sheet_of (edition_of e) w.now)) (kinds_after_fold (sheet_of (edition_of e) w.now)) w.now ≡ accepted) }
    requires w_in_bounds { words_due (edition_of e) (sheet_of (edition_of e) w.now) ≤ length w.now }
    requires powers { (Powers (get_or w.now 0 0) (root_of_unity (sheet_of (edition_of e) w.now)) pw.now) × (length pw.now ≡ get_or w.now 1 0) }
    requires w_value_2 { out_test (sheet_of (edition_of e) w.now) (sheet_length (edition_of e)) (layout (sheet_of (edition_of e) w.now)) w.now ≡ accepted }
    requires px_len { (length px.old ≡ words_for (sheet_of (edition_of e) w.now) 50) × ((length py.old ≡ words_for (sheet_of (edition_of e) w.now) 50) × ((length ac.old ≡ words_for (sheet_of (edition_of e) w.now) 66) × (length vg.old ≡ words_for (sheet_of (edition_of e) w.now) 132))) }
    ensures { verdict_of result ≡ counted (decide_by (sheet_field (sheet_of (edition_of e) w.now)) (sheet_root (sheet_of (edition_of e) w.now)) (first_level (sheet_of (edition_of e) w.now)) (read_transcript (sheet_of (edition_of e) w.now).spelling (sheet_of (edition_of e) w.now) (drop (sheet_length (edition_of e)) w.now))) }
{
    let at = edition::sheet_words(e) + widths::words(w[0], w[1] as usize);
    decide_rounds::decide_rest(
        e,
        w,
        pw,
        level_words::first_state(e, w),
        0,
        elements::at(w[0], w, at),
        level_words::first_oracle(e, w),
        px,
        py,
        ac,
        vg,
    )
}

// The tests of out coins, then refusals 8 and 9, by the table of points.
fn test_outs_then_decide(
    e: Edition,
    w: &[u32],
    pw: &[u32],
    px: &mut [u32],
    py: &mut [u32],
    ac: &mut [u32],
    vg: &mut [u32],
) -> Verdict
    requires w_value { (sheet_test (edition_of e) w.now ≡ accepted) × (range_test (sheet_of (edition_of e) w.now) (sheet_length (edition_of e)) (layout (sheet_of (edition_of e) w.now)) w.now ≡ accepted) }
    requires w_in_bounds { words_due (edition_of e) (sheet_of (edition_of e) w.now) ≤ length w.now }
    requires powers { (Powers (get_or w.now 0 0) (root_of_unity (sheet_of (edition_of e) w.now)) pw.now) × (length pw.now ≡ get_or w.now 1 0) }
    requires px_len { (length px.old ≡ words_for (sheet_of (edition_of e) w.now) 50) × ((length py.old ≡ words_for (sheet_of (edition_of e) w.now) 50) × ((length ac.old ≡ words_for (sheet_of (edition_of e) w.now) 66) × (length vg.old ≡ words_for (sheet_of (edition_of e) w.now) 132))) }
    ensures { verdict_of result ≡ deciding_of (edition_of e) w.now }
{
    let outs = out_coins::tests(e, w, pw);
    if let Outcome::Refused(number, place) = outs {
        return Verdict {
            outcome: Outcome::Refused(number, place),
            reads: 0,
        };
    }
    decide_past_out_tests(e, w, pw, px, py, ac, vg)
}

// Deciding with places of its own: for the points of domain 0, the samples of a round, and lists of coefficients of one length and of twice as many. Each choice
// of sizes is a function by itself, so that the stack holds the places that are used alone.
fn decide_with<const POINTS: usize, const SAMPLES: usize, const PLACES: usize, const DOUBLE: usize>(
    e: Edition,
    w: &[u32],
) -> Verdict
    requires w_value { (sheet_test (edition_of e) w.now ≡ accepted) × (range_test (sheet_of (edition_of e) w.now) (sheet_length (edition_of e)) (layout (sheet_of (edition_of e) w.now)) w.now ≡ accepted) }
    requires w_in_bounds { words_due (edition_of e) (sheet_of (edition_of e) w.now) ≤ length w.now }
    requires points { (get_or w.now 1 0 ≤ POINTS) × (POINTS ≤ 4096) }
    requires samples { (SAMPLES ≡ words_for (sheet_of (edition_of e) w.now) 50) × (SAMPLES ≤ 200) }
    requires places { (PLACES ≡ words_for (sheet_of (edition_of e) w.now) 66) × (PLACES ≤ 264) }
    requires double { (DOUBLE ≡ words_for (sheet_of (edition_of e) w.now) 132) × (DOUBLE ≤ 528) }
    ensures { verdict_of result ≡ deciding_of (edition_of e) w.now }
{
    let mut pw = [0u32; POINTS];
    let mut px = [0u32; SAMPLES];
    let mut py = [0u32; SAMPLES];
    let mut ac = [0u32; PLACES];
    let mut vg = [0u32; DOUBLE];
    let size = domain::of_sheet_within(w, &mut pw);
    test_outs_then_decide(e, w, &pw[..size], &mut px, &mut py, &mut ac, &mut vg)
}

// Deciding, of the words of a stream that passes reading. A small sheet is spared the clearing of many places.
pub fn deciding(e: Edition, w: &[u32]) -> Verdict
    requires w_value { (sheet_test (edition_of e) w.now ≡ accepted) × (range_test (sheet_of (edition_of e) w.now) (sheet_length (edition_of e)) (layout (sheet_of (edition_of e) w.now)) w.now ≡ accepted) }
    requires w_in_bounds { words_due (edition_of e) (sheet_of (edition_of e) w.now) ≤ length w.now }
    ensures { verdict_of result ≡ deciding_of (edition_of e) w.now }
{
    if w[0] == 3 {
        return decide_with::<FOUR_POINTS, FOUR_SAMPLES, FOUR_PLACES, FOUR_DOUBLE>(e, w);
    }
    if w[1] <= 256 {
        return decide_with::<FEW_POINTS, SAMPLES, PLACES, DOUBLE_PLACES>(e, w);
    }
    decide_with::<POINTS, SAMPLES, PLACES, DOUBLE_PLACES>(e, w)
}
