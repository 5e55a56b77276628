// The values of a level's function at the k roots of a coin, as fractions.
//
// The caller lends the words. pw is the table of the powers of ω. A level's function is worked out from the table sent and from the samples of its round: ac has the
// coefficients of A; vg those of V, and from place 66 on those of the geometric sum.
#![tactic(auto)]

ghost use Rattle.std.specs.Prelude.{◌≡◌, ℕ, ◌+◌, ◌*◌, ◌≤◌, ◌<◌, length, get_or};
ghost use Rattle.definition.specs.Field.{Field};
ghost use Rattle.list_laws.specs.Filled.{FilledOver};
ghost use Rattle.spelling.specs.ByField.{field_at, elements_at, points_at, words_at};
ghost use Rattle.fractions.specs.Fraction.{Fraction};
ghost use Rattle.fractions.specs.Values.{Fits, Clear, ShiftPowers, root_in};

use arithmetic::Arithmetic;
use field::Prime;
use quartic::FourWords;

// How the function of a level is worked out: its point m stands at scale·m in pw, the roots of a shift point have numbers that are `step` apart, and the first
// `words` of the coefficients are in use. Before the first round there are no samples, no words, and the table's own values are the function's.
#[derive(Clone, Copy)]
pub struct Oracle {
    pub scale: usize,
    pub step: usize,
    pub words: usize,
}

// Places for the powers of a shift point, at most 66 / 2.
const POWERS: usize = 33;

// Every step-th element from number j on: of a table its values at the roots of shift point j.
fn gather_over<A: Arithmetic>(a: A, table: &[u32], step: usize, j: usize, values: &mut [u32])
    requires { (m : ℕ) → m < length (A.elements values.old) → j + step * m < length (A.elements table.now) }
    ensures { FilledOver (A.over a).𝟘 (λ m. get_or (A.elements table.now) (j + step * m) (A.over a).𝟘) (A.elements values.old) (A.elements values.new) (length (A.elements values.old)) }
{
    for m in 0..a.count(values) {
        a.put(values, m, a.get(table, j + step * m));
    }
}

// The same in either spelling.
pub fn gather(field: u32, table: &[u32], step: usize, j: usize, values: &mut [u32])
    requires { (m : ℕ) → m < length (elements_at field values.old) → j + step * m < length (elements_at field table.now) }
    ensures { FilledOver (field_at field).𝟘 (λ m. get_or (elements_at field table.now) (j + step * m) (field_at field).𝟘) (elements_at field values.old) (elements_at field values.new) (length (elements_at field values.old)) }
{
    if field == 3 {
        gather_over(FourWords, table, step, j, values);
    } else {
        gather_over(Prime { field: field }, table, step, j, values);
    }
}

// The powers of the shift point of index j, from 1 on: they stand in the table too.
pub fn shift_powers(pw: &[u32], scale: usize, k: usize, j: usize, powers: &mut [u32])
    requires { (scale * j < length pw.now) × ((length pw.now ≤ 4096) × ((k ≤ 16) × (0 < length powers.old))) }
    ensures { ShiftPowers pw.now scale k j powers.new }
{
    sums::powers_in(pw, (k + k * (scale * j)) % pw.len(), powers);
}

// The function's values at the k roots of shift point j as fractions, where there are samples.
pub fn fractions(
    field: u32,
    pw: &[u32],
    table: &[u32],
    ac: &[u32],
    vg: &[u32],
    oracle: Oracle,
    j: usize,
    tops: &mut [u32],
    bottoms: &mut [u32],
)
    requires ac_len { (length ac.now ≡ words_at field 66) × ((length vg.now ≡ words_at field 132) × (Clear field pw.now (length (elements_at field table.now)) vg.now oracle)) }
    requires fits { Fits (length pw.now) (length (elements_at field table.now)) oracle (length (elements_at field tops.old)) }
    requires j_lt_step { (j < oracle.step) × ((0 < oracle.words) × (length (elements_at field bottoms.old) ≡ length (elements_at field tops.old))) }
    ensures { (m : ℕ) → m < length (elements_at field tops.old) → Fraction field (root_in (field_at field) (points_at field pw.now) (elements_at field table.now) (elements_at field ac.now) (elements_at field vg.now) oracle j m) (get_or (elements_at field tops.new) m (field_at field).𝟘) (get_or (elements_at field bottoms.new) m (field_at field).𝟘) }
{
    let k = elements::count(field, tops);
    gather(field, table, oracle.step, j, tops);
    let count = oracle.words / k;
    let mut powers = [0u32; POWERS];
    shift_powers(pw, oracle.scale, k, j, &mut powers[..count]);
    root_quotients::quotients(
        field,
        pw,
        ac,
        vg,
        oracle.scale * j,
        oracle.scale * oracle.step,
        &powers[..count],
        tops,
        bottoms,
    );
}
