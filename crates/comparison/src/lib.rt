// The final comparison: of the final polynomial with the folds at the shift points of the final indices.
//
// The caller lends the words, as for the samples of a round.
#![tactic(auto)]

ghost use Rattle.std.specs.Prelude.{◌≡◌, ◌+◌, ◌*◌, ◌≤◌, ◌<◌, length};
ghost use Rattle.definition.specs.Field.{Field, field_of};
ghost use Rattle.definition.specs.Lists.{first_true};
ghost use Rattle.definition.specs.Polynomial.{evaluate};
ghost use Rattle.spelling.specs.ByField.{field_at, elements_at, points_at, words_at};
ghost use Rattle.elements.specs.Meaning.{value_at};
ghost use Rattle.folds.specs.PointsIn.{PowerTable, shift_in};
ghost use Rattle.fractions.specs.Values.{Fits, Below, Clear};
ghost use Rattle.outcome.specs.Meaning.{place_of};
ghost use Rattle.rounds.specs.RoundLaws.{Compared, differs_in};
ghost use Rattle.rounds.specs.SamplesIn.{sample_by, numbered};

use field::Prime;
use fractions::Oracle;
use quartic::{Four, FourWords};

// The final polynomial at the shift point of index j: by the powers of the point, which stand in the table, where there is room for them and more than a few are
// needed; else by Horner's rule.
fn final_value_one(
    field: u32,
    pw: &[u32],
    scale: usize,
    j: usize,
    k: usize,
    coefficients: &[u32],
) -> u32
    requires j_in_bounds { (scale * j < length pw.now) × ((length pw.now ≤ 4096) × ((0 < k) × (k ≤ 16))) }
    requires power_table { PowerTable field pw.now }
    ensures { result ≡ evaluate (field_of field) coefficients.now (shift_in 0 pw.now scale k j) }
{
    let n = coefficients.len();
    if 8 < n {
        if n < 66 {
            let mut powers = [0u32; lists::PLACES];
            fractions::shift_powers(pw, scale, k, j, &mut powers[..n + 1]);
            return sums::sum(field, coefficients, &powers[..n + 1]);
        }
    }
    let x = folds::shift_point(pw, scale, j, k);
    arithmetic::value_at_number(Prime { field: field }, coefficients, x)
}

// The final polynomial at the shift point of index j.
pub fn final_value(
    field: u32,
    pw: &[u32],
    scale: usize,
    j: usize,
    k: usize,
    coefficients: &[u32],
) -> Four
    requires j_in_bounds { (scale * j < length pw.now) × ((length pw.now ≤ 4096) × ((0 < k) × (k ≤ 16))) }
    requires power_table { PowerTable field pw.now }
    ensures { value_at field result ≡ evaluate (field_at field) (elements_at field coefficients.now) (shift_in (field_at field).𝟘 (points_at field pw.now) scale k j) }
{
    if field == 3 {
        // no powers: of four words a product with the point, which is a number, is but four products
        let point = folds::shift_point(pw, scale, j, k);
        return arithmetic::value_at_number(FourWords, coefficients, point);
    }
    elements::number(final_value_one(field, pw, scale, j, k, coefficients))
}

// The first final index at whose shift point the final polynomial differs from the fold, by the values at the roots.
fn compare_by_roots(
    field: u32,
    pw: &[u32],
    roots: &[u32],
    oracle: Oracle,
    k: usize,
    r: Four,
    coefficients: &[u32],
    finals: &[u32],
    values: &mut [u32],
) -> Option<usize>
    requires k_in_bounds { length finals.now * k ≤ length (elements_at field roots.now) }
    requires fits { Fits (length pw.now) (k * oracle.step) oracle k }
    requires below { (Below oracle.step finals.now) × (length values.old ≡ words_at field k) }
    requires power_table { PowerTable field pw.now }
    ensures { place_of result ≡ first_true 0 (numbered (λ i j. differs_in (field_at field) (elements_at field coefficients.now) (sample_by (field_at field) (points_at field pw.now) (elements_at field roots.now) oracle k (value_at field r) i j)) 0 finals.now) }
{
    for i in 0..finals.len() {
        let j = folds::wide(finals[i]);
        let y = rounds::fold_at(field, pw, roots, oracle, i, j, r, values);
        let value = final_value(field, pw, oracle.scale, j, k, coefficients);
        if !elements::same(field, value, y) {
            return Some(i);
        }
    }
    None
}

// The first final index at whose shift point the final polynomial differs from the fold. Once the values at the roots are there, the places of k denominators are
// scratch for the folds.
pub fn first_difference(
    field: u32,
    pw: &[u32],
    table: &[u32],
    ac: &[u32],
    vg: &[u32],
    oracle: Oracle,
    k: usize,
    r: Four,
    coefficients: &[u32],
    finals: &[u32],
    tops: &mut [u32],
    bottoms: &mut [u32],
) -> Option<usize>
    requires ac_len { (length ac.now ≡ words_at field 66) × ((length vg.now ≡ words_at field 132) × (Clear field pw.now (length (elements_at field table.now)) vg.now oracle)) }
    requires fits { Fits (length pw.now) (length (elements_at field table.now)) oracle k }
    requires below { Below oracle.step finals.now }
    requires k_in_bounds { (length finals.now * k ≤ length (elements_at field tops.old)) × ((length finals.now * k ≤ length (elements_at field bottoms.old)) × (length finals.now ≤ 4096)) }
    requires k_in_bounds_2 { k ≤ length (elements_at field bottoms.old) }
    ensures { Compared field pw.now table.now ac.now vg.now oracle k (value_at field r) coefficients.now finals.now (place_of result) }
{
    root_values::prepare(field, pw, table, ac, vg, oracle, k, finals, tops, bottoms);
    let words = elements::words(field, k);
    compare_by_roots(
        field,
        pw,
        tops,
        oracle,
        k,
        r,
        coefficients,
        finals,
        &mut bottoms[..words],
    )
}
