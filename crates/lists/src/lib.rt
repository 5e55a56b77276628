// The polynomials A and V of a round's samples and the geometric sum as coefficient lists, by one inversion.
#![tactic(auto)]

ghost use Rattle.std.specs.Prelude.{◌≡◌, ℕ, suc, ◌+◌, ◌-◌, ◌*◌, ◌/◌, ◌≤◌, ◌<◌, [], length, get_or, take, drop};
ghost use Rattle.definition.specs.Field.{Field, reciprocal};
ghost use Rattle.definition.specs.Polynomial.{pair, evaluate, geometric};
ghost use Rattle.algebra.specs.Different.{Apart};
ghost use Rattle.polynomial.specs.Vanishing.{vanish_at};
ghost use Rattle.sums.specs.ZeroPadding.{ZeroFrom};
ghost use Rattle.spelling.specs.ByField.{field_at, elements_at, words_at};
ghost use Rattle.elements.specs.Meaning.{value_at};
ghost use Rattle.lists.specs.Correcting.{Columned, CorrectingOver};
ghost use Rattle.newton_step.specs.Steps.{Through};

use arithmetic::Arithmetic;
use element_sums::Sums;
use field::Prime;
use quartic::{Four, FourWords};

// So many of the words, from a number on.
pub fn part(w: &[u32], at: usize, count: usize) -> &[u32]
    requires { at + count ≤ length w.now }
    ensures { result.now ≡ take count (drop at w.now) }
{
    &w[at..at + count]
}

// Places for the coefficients of a round, at most 50 + 16.
pub const PLACES: usize = 66;

// Places for two such lists.
pub const DOUBLE_PLACES: usize = 132;

// A and V of no samples: 0 and 1.
fn start<A: Arithmetic>(a: A, q: &mut [u32], v: &mut [u32])
    requires { 0 < length (A.elements v.old) }
    ensures { Through (A.over a) [] [] (A.elements q.new) (A.elements v.new) }
{
    differences::fill_elements(a, a.zero(), q);
    differences::fill_elements(a, a.zero(), v);
    a.put(v, 0, a.one());
}

// A and V by one step for each sample, from the last to the first.
fn steps<A: Sums>(
    a: A,
    xs: &[u32],
    ys: &[u32],
    us: &[u32],
    room: &mut [u32],
    q: &mut [u32],
    v: &mut [u32],
)
    requires ys_len { (length (A.elements ys.now) ≡ length (A.elements xs.now)) × (length (A.elements us.now) ≡ length (A.elements xs.now)) }
    requires xs_in_bounds { (length (A.elements xs.now) < length (A.elements q.old)) × ((length (A.elements q.old) ≤ 66) × ((length (A.elements v.old) ≡ length (A.elements q.old)) × (length (A.elements xs.now) < length (A.elements room.old)))) }
    requires by_index { (i : ℕ) → i < length (A.elements xs.now) → get_or (A.elements us.now) i (A.over a).𝟘 ≡ reciprocal (A.over a) (vanish_at (A.over a) (drop (suc i) (A.elements xs.now)) (get_or (A.elements xs.now) i (A.over a).𝟘)) }
    ensures { Through (A.over a) (A.elements xs.now) (A.elements ys.now) (A.elements q.new) (A.elements v.new) }
{
    start(a, q, v);
    for i in (0..a.count(xs)).rev() {
        newton_step::step(a, xs, ys, us, i + 1, room, q, v);
    }
}

// A and V of the samples with points xs, which differ, and values ys: by one inversion, in N places for the divisors and as many for powers.
fn interpolated<A: Sums, const N: usize>(a: A, xs: &[u32], ys: &[u32], q: &mut [u32], v: &mut [u32])
    requires ys_len { (length (A.elements ys.now) ≡ length (A.elements xs.now)) × ((length (A.elements xs.now) < length (A.elements q.old)) × ((length (A.elements q.old) ≡ 66) × (length (A.elements v.old) ≡ 66))) }
    requires xs_in_bounds { (length xs.now ≤ N) × ((length (A.elements xs.now) < N / A.width) × (N ≤ 264)) }
    requires apart { Apart (A.over a) (A.elements xs.now) }
    ensures { Through (A.over a) (A.elements xs.now) (A.elements ys.now) (A.elements q.new) (A.elements v.new) }
{
    let n = xs.len();
    let mut us = [0u32; N];
    let mut room = [0u32; N];
    differences::divisors(a, xs, &mut us[..n], &mut room);
    steps(a, xs, ys, &us[..n], &mut room, q, v);
}

// 1 + cX + .. + (cX)^e.
fn growth<A: Sums>(a: A, c: A::Element, e: usize, out: &mut [u32])
    requires { (e < length (A.elements out.old)) × (e ≤ 50) }
    ensures by_index { (x : A.Carrier) → evaluate (A.over a) (A.elements out.new) x ≡ evaluate (A.over a) (geometric (A.over a) (A.value c) e) x }
    ensures zero_from { ZeroFrom (A.over a) (A.elements out.new) (suc e) }
{
    differences::fill_elements(a, a.zero(), out);
    let n = a.words(e + 1);
    a.powers(c, &mut out[..n]);
}

// How many words of each list are in use for e samples: e + 1 and more, so that k divides them.
fn words_for(k: usize, e: usize) -> usize
    requires { (0 < k) × ((k ≤ 16) × (e ≤ 50)) }
    ensures { (Columned k result) × (e < result) }
{
    k * ((e + k) / k)
}

// Places for the coefficients of a round, of four words each, and for two such lists.
pub const FOUR_PLACES: usize = 264;

pub const FOUR_DOUBLE: usize = 528;

// Places for so few samples that it pays to clear no more.
const FEW: usize = 16;

// What the next table is corrected by, at most N words of samples: A and V of the samples from number `from` on, and the geometric sum of the combination coin c.
// Answers how many elements of each list are in use.
fn correct<A: Sums, const N: usize>(
    a: A,
    k: usize,
    c: A::Element,
    xs: &[u32],
    ys: &[u32],
    from: usize,
    ac: &mut [u32],
    vg: &mut [u32],
) -> usize
    requires from_in_bounds { (from ≤ length (A.elements xs.now)) × ((length (A.elements xs.now) ≤ 50) × (length (A.elements ys.now) ≡ length (A.elements xs.now))) }
    requires k_nonzero { (0 < k) × ((k ≤ 16) × ((length (A.elements xs.now) - from < N / A.width) × (N ≤ 264))) }
    requires ac_len { (length ac.old ≡ A.width * 66) × (length vg.old ≡ A.width * 132) }
    requires apart { Apart (A.over a) (drop from (A.elements xs.now)) }
    ensures columned { Columned k result }
    ensures correcting_over { CorrectingOver (A.over a) (pair (drop from (A.elements xs.now)) (drop from (A.elements ys.now))) (A.value c) result (A.elements ac.new) (A.elements vg.new) }
{
    let e = a.count(xs) - from;
    let n = words_for(k, e);
    let at = a.words(from);
    let size = a.words(e);
    let half = a.words(PLACES);
    interpolated::<A, N>(
        a,
        part(xs, at, size),
        part(ys, at, size),
        ac,
        &mut vg[..half],
    );
    growth(a, c, e, &mut vg[half..]);
    n
}

// What the next table is corrected by: A and V of the samples from number `from` on, and the geometric sum of the combination coin c. Answers how many elements of
// each list are in use.
pub fn correction(
    field: u32,
    k: usize,
    c: Four,
    xs: &[u32],
    ys: &[u32],
    from: usize,
    ac: &mut [u32],
    vg: &mut [u32],
) -> usize
    requires from_in_bounds { (from ≤ length (elements_at field xs.now)) × ((length (elements_at field xs.now) ≤ 50) × (length (elements_at field ys.now) ≡ length (elements_at field xs.now))) }
    requires k_nonzero { (0 < k) × (k ≤ 16) }
    requires ac_len { (length ac.old ≡ words_at field 66) × (length vg.old ≡ words_at field 132) }
    requires apart { Apart (field_at field) (drop from (elements_at field xs.now)) }
    ensures columned { Columned k result }
    ensures correcting_over { CorrectingOver (field_at field) (pair (drop from (elements_at field xs.now)) (drop from (elements_at field ys.now))) (value_at field c) result (elements_at field ac.new) (elements_at field vg.new) }
{
    if field == 3 {
        return correct::<FourWords, FOUR_PLACES>(FourWords, k, c, xs, ys, from, ac, vg);
    }
    let a = Prime { field: field };
    if xs.len() - from < FEW {
        return correct::<Prime, FEW>(a, k, c.a, xs, ys, from, ac, vg);
    }
    correct::<Prime, PLACES>(a, k, c.a, xs, ys, from, ac, vg)
}
