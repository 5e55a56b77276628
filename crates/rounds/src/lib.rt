// The samples of a round: at the out coins and at the shift points, gathered without repeats.
//
// The caller lends the words: pw, the table of the powers of ω; the table sent; ac and vg, the coefficients by which it is corrected; and places for the values at
// the roots of all coins. `values` are places for k elements, scratch for a fold.
#![tactic(auto)]

ghost use Rattle.std.specs.Prelude.{◌≡◌, ◌++◌, ◌+◌, ◌*◌, ◌≤◌, ◌<◌, length, get_or};
ghost use Rattle.definition.specs.Polynomial.{pair};
ghost use Rattle.spelling.specs.ByField.{field_at, elements_at, points_at, words_at};
ghost use Rattle.elements.specs.Meaning.{value_at};
ghost use Rattle.fractions.specs.Values.{Fits, Below, Clear};
ghost use Rattle.samples.specs.Samples.{kept, distinct_or_clash, Room};
ghost use Rattle.rounds.specs.RoundLaws.{Answered};
ghost use Rattle.rounds.specs.SamplesIn.{fold_by, sample_by, numbered};

use fractions::Oracle;
use quartic::Four;

// The fold at shift index j, number i of a list, with coin r. The values at its roots stand in `roots`.
pub fn fold_at(
    field: u32,
    pw: &[u32],
    roots: &[u32],
    oracle: Oracle,
    i: usize,
    j: usize,
    r: Four,
    values: &mut [u32],
) -> Four
    requires values_in_bounds { i * length (elements_at field values.old) + length (elements_at field values.old) ≤ length (elements_at field roots.now) }
    requires fits { Fits (length pw.now) (length (elements_at field values.old) * oracle.step) oracle (length (elements_at field values.old)) }
    requires j_lt_step { j < oracle.step }
    ensures { value_at field result ≡ fold_by (field_at field) (points_at field pw.now) (elements_at field roots.now) oracle (length (elements_at field values.old)) (value_at field r) i j }
{
    let k = elements::count(field, values);
    fractions::gather(field, roots, 1, i * k, values);
    element_folds::fold_values(
        field,
        pw,
        1 + oracle.scale * j,
        oracle.scale * oracle.step,
        r,
        values,
    )
}

// A sample: a point, and the value there.
#[derive(Clone, Copy)]
struct Point {
    x: Four,
    y: Four,
}

// The sample at shift index number i: the shift point, and the fold there.
fn sample_at(
    field: u32,
    pw: &[u32],
    roots: &[u32],
    oracle: Oracle,
    k: usize,
    r: Four,
    shifts: &[u32],
    i: usize,
    values: &mut [u32],
) -> Point
    requires i_in_bounds { i < length shifts.now }
    requires k_in_bounds { length shifts.now * k ≤ length (elements_at field roots.now) }
    requires fits { Fits (length pw.now) (k * oracle.step) oracle k }
    requires below { (Below oracle.step shifts.now) × (length values.old ≡ words_at field k) }
    ensures { record { point = value_at field result.x; value = value_at field result.y } ≡ sample_by (field_at field) (points_at field pw.now) (elements_at field roots.now) oracle k (value_at field r) i (get_or shifts.now i 0) }
{
    let j = folds::wide(shifts[i]);
    let x = folds::shift_point(pw, oracle.scale, j, k);
    let y = fold_at(field, pw, roots, oracle, i, j, r, values);
    Point {
        x: elements::number(x),
        y: y,
    }
}

// G of a round by the values at the roots: the out coins with their replies, then the shift points with the folds there, put from the last to the first.
fn gather_by_roots(
    field: u32,
    pw: &[u32],
    roots: &[u32],
    oracle: Oracle,
    k: usize,
    r: Four,
    shifts: &[u32],
    outs: &[u32],
    replies: &[u32],
    values: &mut [u32],
    px: &mut [u32],
    py: &mut [u32],
) -> Option<usize>
    requires k_in_bounds { length shifts.now * k ≤ length (elements_at field roots.now) }
    requires fits { Fits (length pw.now) (k * oracle.step) oracle k }
    requires below { (Below oracle.step shifts.now) × (length values.old ≡ words_at field k) }
    requires py_len { (length py.old ≡ length px.old) × ((length (elements_at field replies.now) ≡ length (elements_at field outs.now)) × (length (elements_at field outs.now) + length shifts.now ≤ length (elements_at field px.old))) }
    ensures py_after { kept result (elements_at field px.new) (elements_at field py.new) ≡ distinct_or_clash (field_at field) (pair (elements_at field outs.now) (elements_at field replies.now) ++ numbered (sample_by (field_at field) (points_at field pw.now) (elements_at field roots.now) oracle k (value_at field r)) 0 shifts.now) }
    ensures room { Room (length (elements_at field px.old)) (length (elements_at field outs.now) + length shifts.now) result }
{
    let mut from = elements::count(field, px);
    for i in (0..shifts.len()).rev() {
        let s = sample_at(field, pw, roots, oracle, k, r, shifts, i, values);
        let Some(j) = samples::push(field, px, py, from, s.x, s.y) else {
            return None;
        };
        from = j;
    }
    samples::push_all(field, outs, replies, px, py, from)
}

// G of a round in the last places of px and py: the out coins with their replies, then the shift points with the folds there. The caller lends places for the
// fractions; once the values at the roots are there, those of k denominators are scratch for the folds.
pub fn gather_samples(
    field: u32,
    pw: &[u32],
    table: &[u32],
    ac: &[u32],
    vg: &[u32],
    oracle: Oracle,
    k: usize,
    r: Four,
    shifts: &[u32],
    outs: &[u32],
    replies: &[u32],
    tops: &mut [u32],
    bottoms: &mut [u32],
    px: &mut [u32],
    py: &mut [u32],
) -> Option<usize>
    requires ac_len { (length ac.now ≡ words_at field 66) × ((length vg.now ≡ words_at field 132) × (Clear field pw.now (length (elements_at field table.now)) vg.now oracle)) }
    requires fits { Fits (length pw.now) (length (elements_at field table.now)) oracle k }
    requires below { Below oracle.step shifts.now }
    requires py_len { (length py.old ≡ length px.old) × ((length (elements_at field replies.now) ≡ length (elements_at field outs.now)) × (length (elements_at field outs.now) + length shifts.now ≤ length (elements_at field px.old))) }
    requires k_in_bounds { (length shifts.now * k ≤ length (elements_at field tops.old)) × ((length shifts.now * k ≤ length (elements_at field bottoms.old)) × (length shifts.now ≤ 4096)) }
    requires k_in_bounds_2 { k ≤ length (elements_at field bottoms.old) }
    ensures answered { Answered field pw.now table.now ac.now vg.now oracle k (value_at field r) shifts.now outs.now replies.now (kept result (elements_at field px.new) (elements_at field py.new)) }
    ensures room { Room (length (elements_at field px.old)) (length (elements_at field outs.now) + length shifts.now) result }
{
    root_values::prepare(field, pw, table, ac, vg, oracle, k, shifts, tops, bottoms);
    let words = elements::words(field, k);
    gather_by_roots(
        field,
        pw,
        tops,
        oracle,
        k,
        r,
        shifts,
        outs,
        replies,
        &mut bottoms[..words],
        px,
        py,
    )
}
