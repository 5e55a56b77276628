// Numerators and denominators of the corrected values at the k roots of a point whose powers are given, in either spelling.
//
// The caller lends the words. pw is the table of the powers of ω. ac has the coefficients of A; vg those of V, and from place 66 on those of the geometric sum.
// At the k roots of a point, of which the powers are one list, k sums of products make of each list a polynomial with k coefficients and the same values there.
#![tactic(auto)]

ghost use Rattle.std.specs.Prelude.{◌≡◌, ℕ, ◌+◌, ◌*◌, ◌≤◌, ◌<◌, length, get_or, take};
ghost use Rattle.definition.specs.Field.{Field, field_of, spelling_of, number_in};
ghost use Rattle.definition.specs.Polynomial.{evaluate};
ghost use Rattle.list_laws.specs.Filled.{FilledOver};
ghost use Rattle.spelling.specs.ByField.{field_at, elements_at, words_at};
ghost use Rattle.root_quotients.specs.Rooted.{Rooted, vanishing_in, numerator_in};

use arithmetic::Arithmetic;
use field::Prime;
use quartic::FourWords;

// Places for the values at the roots of a shift point, at most 16.
pub const ROOTS: usize = 16;

// The same for values of four words.
pub const FOUR_ROOTS: usize = 64;

// A spelling's way to the values at the k roots of a point. The two are no twins: of one word the table comes by halves, of four words plane by plane.
trait ValuesAtRoots: Arithmetic {
    // the number of the prime field that points are of
    ghost below: { Self → ℕ };

    // The values of a polynomial at the k roots of a point, whose powers are given, into the first k places of out. Its coefficients are the first elements of
    // f, k for each power. The roots stand in pw from place `at` on, step places apart.
    fn at_roots(
        self,
        f: &[u32],
        powers: &[u32],
        pw: &[u32],
        at: usize,
        step: usize,
        k: usize,
        out: &mut [u32],
    )
        requires rooted { Rooted (field_of (below self)) pw.now at step k powers.now }
        requires powers_in_bounds { (k * length powers.now ≤ length (Self.elements f.now)) × (k ≤ length (Self.elements out.old)) }
        ensures { (m : ℕ) → m < k → get_or (Self.elements out.new) m (Self.over self).𝟘 ≡ evaluate (Self.over self) (take (k * length powers.now) (Self.elements f.now)) (Self.numbered (get_or pw.now (at + step * m) 0)) };
}

impl ValuesAtRoots for Prime {
    ghost below = { λ s. s.field };

    // k sums of products give a polynomial of k coefficients that has the values at the roots, and its table comes by halves.
    fn at_roots(
        self,
        f: &[u32],
        powers: &[u32],
        pw: &[u32],
        at: usize,
        step: usize,
        k: usize,
        out: &mut [u32],
    ) {
        let mut sums = [0u32; ROOTS];
        sums::residues(self.field, f, powers, &mut sums[..k]);
        tables::on_roots(self.field, &sums[..k], pw, at, step, &mut out[..k]);
    }
}

impl ValuesAtRoots for FourWords {
    ghost below = { λ s. 2 };

    // By planes: the residues are residues of words, four times as many, and the table comes plane by plane.
    fn at_roots(
        self,
        f: &[u32],
        powers: &[u32],
        pw: &[u32],
        at: usize,
        step: usize,
        k: usize,
        out: &mut [u32],
    ) {
        let n = 4 * k;
        let mut sums = [0u32; FOUR_ROOTS];
        let mut plane = [0u32; ROOTS];
        sums::residues(2, f, powers, &mut sums[..n]);
        plane_tables::by_planes(&sums[..n], pw, at, step, &mut plane[..k], &mut out[..n]);
    }
}

// Each value y, where A has a and the geometric sum g, becomes (y - a)·g.
fn numerators<A: Arithmetic>(a: A, low: &[u32], g: &[u32], values: &mut [u32])
    requires { (length (A.elements values.old) ≤ length (A.elements low.now)) × (length (A.elements values.old) ≤ length (A.elements g.now)) }
    ensures { FilledOver (A.over a).𝟘 (λ m. (A.over a).◌⊗◌ ((A.over a).◌⊖◌ (get_or (A.elements values.old) m (A.over a).𝟘) (get_or (A.elements low.now) m (A.over a).𝟘)) (get_or (A.elements g.now) m (A.over a).𝟘)) (A.elements values.old) (A.elements values.new) (length (A.elements values.old)) }
{
    for m in 0..a.count(values) {
        let difference = a.sub(a.get(values, m), a.get(low, m));
        a.put(values, m, a.mul(difference, a.get(g, m)));
    }
}

// Numerators and denominators of the corrected values at the k roots, where `tops` has the table's values and `powers` are those of the shift point.
// N words are places for the values at the roots.
fn quotients_over<A: ValuesAtRoots, const N: usize>(
    a: A,
    pw: &[u32],
    ac: &[u32],
    vg: &[u32],
    at: usize,
    step: usize,
    powers: &[u32],
    tops: &mut [u32],
    bottoms: &mut [u32],
)
    requires room { N ≡ A.width * 16 }
    requires ac_len { (length ac.now ≡ A.width * 66) × ((length vg.now ≡ A.width * 132) × (length (A.elements bottoms.old) ≡ length (A.elements tops.old))) }
    requires rooted { Rooted (field_of (A.below a)) pw.now at step (length (A.elements tops.old)) powers.now }
    requires powers_len_bound { length (A.elements tops.old) * length powers.now ≤ 66 }
    ensures by_index { (m : ℕ) → m < length (A.elements tops.old) → get_or (A.elements tops.new) m (A.over a).𝟘 ≡ numerator_in (A.over a) (length (A.elements tops.old) * length powers.now) (A.elements ac.now) (A.elements vg.now) (A.numbered (get_or pw.now (at + step * m) 0)) (get_or (A.elements tops.old) m (A.over a).𝟘) }
    ensures by_index_2 { (m : ℕ) → m < length (A.elements tops.old) → get_or (A.elements bottoms.new) m (A.over a).𝟘 ≡ evaluate (A.over a) (vanishing_in (length (A.elements tops.old) * length powers.now) (A.elements vg.now)) (A.numbered (get_or pw.now (at + step * m) 0)) }
{
    let k = a.count(tops);
    let mut low = [0u32; N];
    let mut g = [0u32; N];
    a.at_roots(ac, powers, pw, at, step, k, &mut low);
    a.at_roots(vg, powers, pw, at, step, k, bottoms);
    a.at_roots(&vg[vg.len() / 2..], powers, pw, at, step, k, &mut g);
    numerators(a, &low, &g, tops);
}

// Numerators and denominators of the corrected values at the k roots, where `tops` has the table's values and `powers` are those of the shift point.
pub fn quotients(
    field: u32,
    pw: &[u32],
    ac: &[u32],
    vg: &[u32],
    at: usize,
    step: usize,
    powers: &[u32],
    tops: &mut [u32],
    bottoms: &mut [u32],
)
    requires ac_len { (length ac.now ≡ words_at field 66) × ((length vg.now ≡ words_at field 132) × (length (elements_at field bottoms.old) ≡ length (elements_at field tops.old))) }
    requires rooted { Rooted (field_of field) pw.now at step (length (elements_at field tops.old)) powers.now }
    requires powers_len_bound { length (elements_at field tops.old) * length powers.now ≤ 66 }
    ensures by_index { (m : ℕ) → m < length (elements_at field tops.old) → get_or (elements_at field tops.new) m (field_at field).𝟘 ≡ numerator_in (field_at field) (length (elements_at field tops.old) * length powers.now) (elements_at field ac.now) (elements_at field vg.now) (number_in (spelling_of field) (get_or pw.now (at + step * m) 0)) (get_or (elements_at field tops.old) m (field_at field).𝟘) }
    ensures by_index_2 { (m : ℕ) → m < length (elements_at field tops.old) → get_or (elements_at field bottoms.new) m (field_at field).𝟘 ≡ evaluate (field_at field) (vanishing_in (length (elements_at field tops.old) * length powers.now) (elements_at field vg.now)) (number_in (spelling_of field) (get_or pw.now (at + step * m) 0)) }
{
    if field == 3 {
        quotients_over::<FourWords, FOUR_ROOTS>(
            FourWords, pw, ac, vg, at, step, powers, tops, bottoms,
        );
    } else {
        let prime = Prime { field: field };
        quotients_over::<Prime, ROOTS>(prime, pw, ac, vg, at, step, powers, tops, bottoms);
    }
}
