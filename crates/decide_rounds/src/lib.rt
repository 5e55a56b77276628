// Refusals 8 and 9 and the reads, from a level on: the rounds after it and the final comparison, by the words w of a stream of edition e. pw is the table of the
// points of domain 0.
#![tactic(auto)]

ghost use Rattle.std.specs.Prelude.{◌≡◌, ◌*◌, ◌≤◌, length};
ghost use Rattle.definition.specs.Sheet.{sheet_of};
ghost use Rattle.layouts.specs.Levels.{rounds_of, words_for};
ghost use Rattle.elements.specs.Meaning.{value_in};
ghost use Rattle.edition.specs.Meaning.{edition_of};
ghost use Rattle.outcome.specs.Meaning.{verdict_of};
ghost use Rattle.level_words.specs.Inside.{FinalInside, Written};
ghost use Rattle.decide_rounds.specs.Invariant.{Decided, Invariant, Represented};

use edition::Edition;
use fractions::Oracle;
use level_words::State;
use outcome::{Outcome, Verdict};
use quartic::Four;

// The final comparison. All final coins are treated, or those up to and with the failing one.
fn decide_final(
    e: Edition,
    w: &[u32],
    pw: &[u32],
    state: State,
    reads: usize,
    r: Four,
    oracle: Oracle,
    ac: &[u32],
    vg: &[u32],
) -> Verdict
    requires invariant { Invariant (sheet_of (edition_of e) w.now) w.now (length pw.now) (length ac.now) (length vg.now) state oracle }
    requires represented { Represented (sheet_of (edition_of e) w.now) w.now pw.now ac.now vg.now state oracle }
    requires level_value { (state.level ≡ rounds_of (sheet_of (edition_of e) w.now)) × (FinalInside (edition_of e) (sheet_of (edition_of e) w.now) w.now state) }
    requires reads_bound { reads ≤ 768 * state.level }
    ensures { Decided (sheet_of (edition_of e) w.now) w.now pw.now ac.now vg.now state reads (value_in (sheet_of (edition_of e) w.now).spelling r) oracle (verdict_of result) }
{
    let f = round_words::final_difference(e, w, pw, state, r, oracle, ac, vg);
    if let Some(i) = f {
        return Verdict {
            outcome: Outcome::Refused(9, i),
            reads: level_words::reads_after_finals(e, w, state, reads, i + 1),
        };
    }
    Verdict {
        outcome: Outcome::Accepted,
        reads: level_words::reads_after_finals(e, w, state, reads, w[6 + state.level] as usize),
    }
}

// The rounds after a place and the final comparison. The first round whose samples clash refuses. The places for samples and coefficients are lent, and each round
// puts its own there.
pub fn decide_rest(
    e: Edition,
    w: &[u32],
    pw: &[u32],
    state: State,
    reads: usize,
    r: Four,
    oracle: Oracle,
    px: &mut [u32],
    py: &mut [u32],
    ac: &mut [u32],
    vg: &mut [u32],
) -> Verdict
    requires written { Written (edition_of e) (sheet_of (edition_of e) w.now) w.now }
    requires invariant { Invariant (sheet_of (edition_of e) w.now) w.now (length pw.now) (length ac.old) (length vg.old) state oracle }
    requires represented { Represented (sheet_of (edition_of e) w.now) w.now pw.now ac.old vg.old state oracle }
    requires reads_bound { (reads ≤ 768 * state.level) × ((length px.old ≡ words_for (sheet_of (edition_of e) w.now) 50) × (length py.old ≡ words_for (sheet_of (edition_of e) w.now) 50)) }
    ensures { Decided (sheet_of (edition_of e) w.now) w.now pw.now ac.old vg.old state reads (value_in (sheet_of (edition_of e) w.now).spelling r) oracle (verdict_of result) }
{
    if state.level == w[4] as usize {
        return decide_final(e, w, pw, state, reads, r, oracle, ac, vg);
    }
    let next = level_words::next_state(e, w, state);
    let now = level_words::reads_after_round(e, w, state, reads);
    let g = round_words::next_samples(e, w, pw, state, r, oracle, ac, vg, px, py);
    let Some(j) = g else {
        return Verdict {
            outcome: Outcome::Refused(8, next.level),
            reads: now,
        };
    };
    let words = round_words::correction(e, w, state, px, py, j, ac, vg);
    decide_rest(
        e,
        w,
        pw,
        next,
        now,
        elements::at(w[0], w, level_words::next_coin(e, w, state)),
        level_words::next_oracle(e, w, state, oracle.scale, words),
        px,
        py,
        ac,
        vg,
    )
}
