// The values of a level's function at the k roots of each coin of a round, one coin after the other, with one inversion for all that they are divided by.
//
// The caller lends the words: pw, the table of the powers of ω; the table sent; ac and vg, the coefficients by which it is corrected; and k places a coin for
// the numerators, which become the values, and for the denominators.
#![tactic(auto)]

ghost use Rattle.std.specs.Prelude.{◌≡◌, ℕ, ◌+◌, ◌*◌, ◌≤◌, ◌<◌, length, get_or};
ghost use Rattle.std.proofs.Math.Option.{some};
ghost use Rattle.definition.specs.Field.{Field};
ghost use Rattle.list_laws.specs.Filled.{FilledOver};
ghost use Rattle.spelling.specs.ByField.{field_at, elements_at, points_at, words_at};
ghost use Rattle.fractions.specs.Fraction.{Fraction};
ghost use Rattle.fractions.specs.Values.{Fits, Below, Clear, root_in};
ghost use Rattle.root_values.specs.Dividing.{DividedOver, Divisible, SharedOver, product_before};
ghost use Rattle.root_values.specs.Places.{PlacedOver, PreparedOver};

use arithmetic::{Arithmetic, Inversion};
use field::Prime;
use fractions::Oracle;
use quartic::FourWords;

// The table's values at the roots of one coin after the other.
fn all_tables(field: u32, table: &[u32], step: usize, k: usize, js: &[u32], out: &mut [u32])
    requires by_index { (i m : ℕ) → i < length js.now → m < k → get_or js.now i 0 + step * m < length (elements_at field table.now) }
    requires k_in_bounds { (length js.now * k ≤ length (elements_at field out.old)) × (k ≤ 16) }
    ensures { PlacedOver (field_at field).𝟘 (λ j m v w. v ≡ get_or (elements_at field table.now) (j + step * m) (field_at field).𝟘) k js.now (elements_at field out.new) (elements_at field out.new) (length js.now) }
{
    let words = elements::words(field, k);
    for (coin, j) in js.iter().enumerate() {
        let from = coin * words;
        fractions::gather(
            field,
            table,
            step,
            folds::wide(*j),
            &mut out[from..from + words],
        );
    }
}

// The fractions of one coin after the other.
fn all_fractions(
    field: u32,
    pw: &[u32],
    table: &[u32],
    ac: &[u32],
    vg: &[u32],
    oracle: Oracle,
    k: usize,
    js: &[u32],
    tops: &mut [u32],
    bottoms: &mut [u32],
)
    requires ac_len { (length ac.now ≡ words_at field 66) × ((length vg.now ≡ words_at field 132) × (Clear field pw.now (length (elements_at field table.now)) vg.now oracle)) }
    requires fits { Fits (length pw.now) (length (elements_at field table.now)) oracle k }
    requires below { (Below oracle.step js.now) × ((0 < oracle.words) × ((length js.now * k ≤ length (elements_at field tops.old)) × (length js.now * k ≤ length (elements_at field bottoms.old)))) }
    ensures { PlacedOver (field_at field).𝟘 (λ j m v w. Fraction field (root_in (field_at field) (points_at field pw.now) (elements_at field table.now) (elements_at field ac.now) (elements_at field vg.now) oracle j m) v w) k js.now (elements_at field tops.new) (elements_at field bottoms.new) (length js.now) }
{
    let words = elements::words(field, k);
    for (coin, j) in js.iter().enumerate() {
        let at = coin * words;
        fractions::fractions(
            field,
            pw,
            table,
            ac,
            vg,
            oracle,
            folds::wide(*j),
            &mut tops[at..at + words],
            &mut bottoms[at..at + words],
        );
    }
}

// Each numerator is multiplied by all denominators before its own. Answers the product of all.
fn times_before<A: Arithmetic>(a: A, bottoms: &[u32], tops: &mut [u32]) -> A::Element
    requires { length (A.elements tops.old) ≤ length (A.elements bottoms.now) }
    ensures filled { FilledOver (A.over a).𝟘 (λ m. (A.over a).◌⊗◌ (get_or (A.elements tops.old) m (A.over a).𝟘) (product_before (A.over a) (A.elements bottoms.now) m)) (A.elements tops.old) (A.elements tops.new) (length (A.elements tops.old)) }
    ensures value { A.value result ≡ product_before (A.over a) (A.elements bottoms.now) (length (A.elements tops.old)) }
{
    let mut all = a.one();
    for m in 0..a.count(tops) {
        a.put(tops, m, a.mul(a.get(tops, m), all));
        all = a.mul(a.get(bottoms, m), all);
    }
    all
}

// Such a product, times u, the inverse of all denominators, and times those behind its own, is the numerator times the inverse of its own.
fn share<A: Arithmetic>(a: A, u: A::Element, bottoms: &[u32], tops: &mut [u32])
    requires tops_in_bounds { length (A.elements tops.old) ≤ length (A.elements bottoms.now) }
    requires tops_value { (A.over a).inverse (product_before (A.over a) (A.elements bottoms.now) (length (A.elements tops.old))) ≡ some (A.value u) }
    ensures { SharedOver (A.over a) (A.elements bottoms.now) (A.elements tops.old) (A.elements tops.new) }
{
    let mut left = u;
    for m in (0..a.count(tops)).rev() {
        a.put(tops, m, a.mul(a.get(tops, m), left));
        left = a.mul(a.get(bottoms, m), left);
    }
}

// Each numerator is divided by its denominator, with one inversion for all of them, of which none is 0.
fn divide_over<A: Inversion>(a: A, bottoms: &[u32], tops: &mut [u32])
    requires tops_in_bounds { length (A.elements tops.old) ≤ length (A.elements bottoms.now) }
    requires divisible { Divisible (A.over a) (A.elements bottoms.now) (length (A.elements tops.old)) }
    ensures { DividedOver (A.over a) (A.elements bottoms.now) (A.elements tops.old) (A.elements tops.new) }
{
    let all = times_before(a, bottoms, tops);
    let Some(u) = a.inv(all) else {
        // never: no denominator is 0
        return;
    };
    share(a, u, bottoms, tops);
}

// The same in either spelling.
fn divide(field: u32, bottoms: &[u32], tops: &mut [u32])
    requires tops_in_bounds { length (elements_at field tops.old) ≤ length (elements_at field bottoms.now) }
    requires divisible { Divisible (field_at field) (elements_at field bottoms.now) (length (elements_at field tops.old)) }
    ensures { DividedOver (field_at field) (elements_at field bottoms.now) (elements_at field tops.old) (elements_at field tops.new) }
{
    if field == 3 {
        divide_over(FourWords, bottoms, tops);
    } else {
        divide_over(Prime { field: field }, bottoms, tops);
    }
}

// The values at the roots of all coins, in the places for the numerators: the table's where there are no samples, else those of the fractions.
pub fn prepare(
    field: u32,
    pw: &[u32],
    table: &[u32],
    ac: &[u32],
    vg: &[u32],
    oracle: Oracle,
    k: usize,
    js: &[u32],
    tops: &mut [u32],
    bottoms: &mut [u32],
)
    requires ac_len { (length ac.now ≡ words_at field 66) × ((length vg.now ≡ words_at field 132) × (Clear field pw.now (length (elements_at field table.now)) vg.now oracle)) }
    requires fits { Fits (length pw.now) (length (elements_at field table.now)) oracle k }
    requires below { Below oracle.step js.now }
    requires k_in_bounds { (length js.now * k ≤ length (elements_at field tops.old)) × ((length js.now * k ≤ length (elements_at field bottoms.old)) × (length js.now ≤ 4096)) }
    ensures { PreparedOver (field_at field).𝟘 k (root_in (field_at field) (points_at field pw.now) (elements_at field table.now) (elements_at field ac.now) (elements_at field vg.now) oracle) js.now (elements_at field tops.new) }
{
    if oracle.words == 0 {
        all_tables(field, table, oracle.step, k, js, tops);
        return;
    }
    all_fractions(field, pw, table, ac, vg, oracle, k, js, tops, bottoms);
    let n = elements::words(field, js.len() * k);
    divide(field, &bottoms[..n], &mut tops[..n]);
}
