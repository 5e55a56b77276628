// What the words w of a stream of edition e give at a level: G of the next round, what its table is corrected by, and the final difference. pw is the table of the
// points of domain 0.
#![tactic(auto)]

ghost use Rattle.std.specs.Prelude.{◌≡◌, ◌≤◌, length, get_or, drop};
ghost use Rattle.definition.specs.Field.{elements_in};
ghost use Rattle.definition.specs.Polynomial.{pair};
ghost use Rattle.definition.specs.Sheet.{sheet_of};
ghost use Rattle.algebra.specs.Different.{Apart};
ghost use Rattle.layouts.specs.Levels.{sheet_field, words_for};
ghost use Rattle.elements.specs.Meaning.{value_in};
ghost use Rattle.lists.specs.Correcting.{Columned};
ghost use Rattle.edition.specs.Meaning.{edition_of};
ghost use Rattle.outcome.specs.Meaning.{place_of};
ghost use Rattle.fractions.specs.Values.{Clear};
ghost use Rattle.samples.specs.Samples.{kept, Room};
ghost use Rattle.level_words.specs.State.{next_fold};
ghost use Rattle.level_words.specs.Inside.{FinalInside, RoundInside};
ghost use Rattle.round_words.specs.Handed.{Differing, NextCorrecting, NextSamples, TableInside};

use edition::Edition;
use fractions::Oracle;
use level_words::State;
use quartic::Four;

// What the next table is corrected by, from the round's samples, which stand from number `from` on. Answers how many coefficients are in use, which goes by the
// next level's folding number.
pub fn correction(
    e: Edition,
    w: &[u32],
    state: State,
    px: &[u32],
    py: &[u32],
    from: usize,
    ac: &mut [u32],
    vg: &mut [u32],
) -> usize
    requires round_inside { RoundInside (edition_of e) (sheet_of (edition_of e) w.now) w.now state }
    requires from_bound { (from ≤ 50) × ((length px.now ≡ words_for (sheet_of (edition_of e) w.now) 50) × (length py.now ≡ words_for (sheet_of (edition_of e) w.now) 50)) }
    requires ac_len { (length ac.old ≡ words_for (sheet_of (edition_of e) w.now) 66) × (length vg.old ≡ words_for (sheet_of (edition_of e) w.now) 132) }
    requires apart { Apart (sheet_field (sheet_of (edition_of e) w.now)) (drop from (elements_in (sheet_of (edition_of e) w.now).spelling px.now)) }
    ensures columned { Columned (next_fold (sheet_of (edition_of e) w.now) state) result }
    ensures next_correcting { NextCorrecting (sheet_of (edition_of e) w.now) w.now state (pair (drop from (elements_in (sheet_of (edition_of e) w.now).spelling px.now)) (drop from (elements_in (sheet_of (edition_of e) w.now).spelling py.now))) result ac.new vg.new }
{
    let k = edition::fold(e, w, state.level + 1);
    let s = w[5] as usize;
    let at = state.at + widths::words(w[0], state.size / 2 + s + s);
    lists::correction(w[0], k, elements::at(w[0], w, at), px, py, from, ac, vg)
}

// G of the next round, from the words, with the level's fold coin.
pub fn next_samples(
    e: Edition,
    w: &[u32],
    pw: &[u32],
    state: State,
    r: Four,
    oracle: Oracle,
    ac: &[u32],
    vg: &[u32],
    px: &mut [u32],
    py: &mut [u32],
) -> Option<usize>
    requires table_inside { TableInside (sheet_of (edition_of e) w.now) w.now (length pw.now) (length ac.now) (length vg.now) state oracle }
    requires round_inside { RoundInside (edition_of e) (sheet_of (edition_of e) w.now) w.now state }
    requires px_len { (length px.old ≡ words_for (sheet_of (edition_of e) w.now) 50) × (length py.old ≡ words_for (sheet_of (edition_of e) w.now) 50) }
    requires clear { Clear (get_or w.now 0 0) pw.now state.size vg.now oracle }
    ensures next_samples { NextSamples (sheet_of (edition_of e) w.now) w.now pw.now ac.now vg.now state (value_in (sheet_of (edition_of e) w.now).spelling r) oracle (kept result (elements_in (sheet_of (edition_of e) w.now).spelling px.new) (elements_in (sheet_of (edition_of e) w.now).spelling py.new)) }
    ensures room { Room 50 50 result }
{
    let field = w[0];
    let t = w[6 + state.level] as usize;
    let many = widths::words(field, w[5] as usize);
    let outs = state.at + widths::words(field, state.size / 2);
    let replies = outs + many;
    answers::gather_round(
        field,
        pw,
        lists::part(w, state.table, widths::words(field, state.size)),
        ac,
        vg,
        oracle,
        edition::fold(e, w, state.level),
        r,
        lists::part(w, replies + many + widths::words(field, 2), t),
        lists::part(w, outs, many),
        lists::part(w, replies, many),
        px,
        py,
    )
}

// The first final index at which the final polynomial differs, from the words.
pub fn final_difference(
    e: Edition,
    w: &[u32],
    pw: &[u32],
    state: State,
    r: Four,
    oracle: Oracle,
    ac: &[u32],
    vg: &[u32],
) -> Option<usize>
    requires table_inside { TableInside (sheet_of (edition_of e) w.now) w.now (length pw.now) (length ac.now) (length vg.now) state oracle }
    requires final_inside { FinalInside (edition_of e) (sheet_of (edition_of e) w.now) w.now state }
    requires clear { Clear (get_or w.now 0 0) pw.now state.size vg.now oracle }
    ensures { Differing (sheet_of (edition_of e) w.now) w.now pw.now ac.now vg.now state (value_in (sheet_of (edition_of e) w.now).spelling r) oracle (place_of result) }
{
    let k = edition::fold(e, w, state.level);
    let t = w[6 + state.level] as usize;
    let d = widths::words(w[0], state.degree / k);
    answers::compare_finals(
        w[0],
        pw,
        lists::part(w, state.table, widths::words(w[0], state.size)),
        ac,
        vg,
        oracle,
        k,
        r,
        lists::part(w, state.at, d),
        lists::part(w, state.at + d, t),
    )
}
