// G of a round, and the first final index at which the final polynomial differs, with places of their own for the fractions: numerators and denominators. There are
// three sizes, so that a small round is spared the clearing of many places.
#![tactic(auto)]

ghost use Rattle.std.specs.Prelude.{◌≡◌, ◌+◌, ◌*◌, ◌≤◌, length};
ghost use Rattle.spelling.specs.ByField.{elements_at, words_at};
ghost use Rattle.elements.specs.Meaning.{value_at};
ghost use Rattle.fractions.specs.Values.{Fits, Below, Clear};
ghost use Rattle.outcome.specs.Meaning.{place_of};
ghost use Rattle.rounds.specs.RoundLaws.{Answered, Compared};
ghost use Rattle.samples.specs.Samples.{kept, Room};

use fractions::Oracle;
use quartic::Four;

// Places for a small round.
const FEW: usize = 64;

// Places for at most 48 coins with 16 roots each, of one word.
const MANY: usize = 768;

// The same of four words.
const FOUR_MANY: usize = 3072;

// G of a round in the last places of px and py.
pub fn gather_round(
    field: u32,
    pw: &[u32],
    table: &[u32],
    ac: &[u32],
    vg: &[u32],
    oracle: Oracle,
    k: usize,
    r: Four,
    shifts: &[u32],
    outs: &[u32],
    replies: &[u32],
    px: &mut [u32],
    py: &mut [u32],
) -> Option<usize>
    requires ac_len { (length ac.now ≡ words_at field 66) × ((length vg.now ≡ words_at field 132) × (Clear field pw.now (length (elements_at field table.now)) vg.now oracle)) }
    requires fits { Fits (length pw.now) (length (elements_at field table.now)) oracle k }
    requires below { (Below oracle.step shifts.now) × (length shifts.now ≤ 48) }
    requires py_len { (length py.old ≡ length px.old) × ((length (elements_at field replies.now) ≡ length (elements_at field outs.now)) × (length (elements_at field outs.now) + length shifts.now ≤ length (elements_at field px.old))) }
    requires px_len_bound { length (elements_at field px.old) ≤ 50 }
    ensures answered { Answered field pw.now table.now ac.now vg.now oracle k (value_at field r) shifts.now outs.now replies.now (kept result (elements_at field px.new) (elements_at field py.new)) }
    ensures room { Room (length (elements_at field px.old)) (length (elements_at field outs.now) + length shifts.now) result }
{
    let places = elements::words(field, shifts.len() * k);
    if places <= FEW {
        let mut tops = [0u32; FEW];
        let mut bottoms = [0u32; FEW];
        return rounds::gather_samples(
            field,
            pw,
            table,
            ac,
            vg,
            oracle,
            k,
            r,
            shifts,
            outs,
            replies,
            &mut tops,
            &mut bottoms,
            px,
            py,
        );
    }
    if places <= MANY {
        let mut tops = [0u32; MANY];
        let mut bottoms = [0u32; MANY];
        return rounds::gather_samples(
            field,
            pw,
            table,
            ac,
            vg,
            oracle,
            k,
            r,
            shifts,
            outs,
            replies,
            &mut tops,
            &mut bottoms,
            px,
            py,
        );
    }
    let mut tops = [0u32; FOUR_MANY];
    let mut bottoms = [0u32; FOUR_MANY];
    rounds::gather_samples(
        field,
        pw,
        table,
        ac,
        vg,
        oracle,
        k,
        r,
        shifts,
        outs,
        replies,
        &mut tops,
        &mut bottoms,
        px,
        py,
    )
}

// The first final index at which the final polynomial differs.
pub fn compare_finals(
    field: u32,
    pw: &[u32],
    table: &[u32],
    ac: &[u32],
    vg: &[u32],
    oracle: Oracle,
    k: usize,
    r: Four,
    coefficients: &[u32],
    finals: &[u32],
) -> Option<usize>
    requires ac_len { (length ac.now ≡ words_at field 66) × ((length vg.now ≡ words_at field 132) × (Clear field pw.now (length (elements_at field table.now)) vg.now oracle)) }
    requires fits { Fits (length pw.now) (length (elements_at field table.now)) oracle k }
    requires below { (Below oracle.step finals.now) × (length finals.now ≤ 48) }
    ensures { Compared field pw.now table.now ac.now vg.now oracle k (value_at field r) coefficients.now finals.now (place_of result) }
{
    let places = elements::words(field, finals.len() * k);
    if places <= FEW {
        let mut tops = [0u32; FEW];
        let mut bottoms = [0u32; FEW];
        return comparison::first_difference(
            field,
            pw,
            table,
            ac,
            vg,
            oracle,
            k,
            r,
            coefficients,
            finals,
            &mut tops,
            &mut bottoms,
        );
    }
    if places <= MANY {
        let mut tops = [0u32; MANY];
        let mut bottoms = [0u32; MANY];
        return comparison::first_difference(
            field,
            pw,
            table,
            ac,
            vg,
            oracle,
            k,
            r,
            coefficients,
            finals,
            &mut tops,
            &mut bottoms,
        );
    }
    let mut tops = [0u32; FOUR_MANY];
    let mut bottoms = [0u32; FOUR_MANY];
    comparison::first_difference(
        field,
        pw,
        table,
        ac,
        vg,
        oracle,
        k,
        r,
        coefficients,
        finals,
        &mut tops,
        &mut bottoms,
    )
}
