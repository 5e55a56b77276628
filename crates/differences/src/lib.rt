// For each of a list of points the product of its differences to those behind it, and the inverses of these products, by one inversion: what interpolation
// divides by.
#![tactic(auto)]

ghost use Rattle.std.specs.Prelude.{◌≡◌, ℕ, suc, ◌≤◌, ◌<◌, length, get_or, drop};
ghost use Rattle.definition.specs.Field.{Field, reciprocal};
ghost use Rattle.algebra.specs.Different.{Apart};
ghost use Rattle.algebra.specs.Laws.{FieldLaws};
ghost use Rattle.list_laws.specs.Filled.{Filled, FilledOver};
ghost use Rattle.polynomial.specs.Vanishing.{vanish_at};

use arithmetic::Arithmetic;
use element_sums::Sums;

// Each element before number j becomes its point less point j, that element times; they are in range.
fn times_difference<A: Sums>(a: A, xs: &[u32], j: usize, out: &mut [u32])
    requires j_in_bounds { (j < length (A.elements xs.now)) × (length (A.elements out.old) ≡ length (A.elements xs.now)) }
    requires by_index { (i : ℕ) → i < j → (A.laws a).reduce (get_or (A.elements out.old) i (A.over a).𝟘) ≡ get_or (A.elements out.old) i (A.over a).𝟘 }
    ensures { FilledOver (A.over a).𝟘 (λ i. (A.over a).◌⊗◌ ((A.over a).◌⊖◌ (get_or (A.elements xs.now) i (A.over a).𝟘) (get_or (A.elements xs.now) j (A.over a).𝟘)) (get_or (A.elements out.old) i (A.over a).𝟘)) (A.elements out.old) (A.elements out.new) j }
{
    let d = a.sub(a.zero(), a.get(xs, j));
    for i in 0..j {
        let x = a.get(xs, i);
        let y = a.get(out, i);
        a.put(out, i, a.sum_times(x, d, y));
    }
}

// Every word becomes c.
pub fn fill(c: u32, out: &mut [u32])
    ensures { Filled (λ _. c) out.old out.new (length out.old) }
{
    for x in out.iter_mut() {
        *x = c;
    }
}

// Every element becomes c.
pub fn fill_elements<A: Arithmetic>(a: A, c: A::Element, out: &mut [u32])
    ensures { FilledOver (A.over a).𝟘 (λ _. A.value c) (A.elements out.old) (A.elements out.new) (length (A.elements out.old)) }
{
    for i in 0..a.count(out) {
        a.put(out, i, c);
    }
}

// For each point the product of its differences to those behind it, by one point after the other for all in front of it, so that no product waits for another.
fn differences<A: Sums>(a: A, xs: &[u32], out: &mut [u32])
    requires { length (A.elements out.old) ≡ length (A.elements xs.now) }
    ensures { (i : ℕ) → i < length (A.elements xs.now) → get_or (A.elements out.new) i (A.over a).𝟘 ≡ vanish_at (A.over a) (drop (suc i) (A.elements xs.now)) (get_or (A.elements xs.now) i (A.over a).𝟘) }
{
    fill_elements(a, a.one(), out);
    for j in (0..a.count(xs)).rev() {
        times_difference(a, xs, j, out);
    }
}

// The inverses of these products: what the Newton step of each point divides by. The points differ, and so no product is 0.
// The caller lends `behind`, as many words of scratch.
pub fn divisors<A: Sums>(a: A, xs: &[u32], out: &mut [u32], behind: &mut [u32])
    requires out_len { (length (A.elements out.old) ≡ length (A.elements xs.now)) × (length (A.elements xs.now) ≤ length (A.elements behind.old)) }
    requires apart { Apart (A.over a) (A.elements xs.now) }
    ensures { (i : ℕ) → i < length (A.elements xs.now) → get_or (A.elements out.new) i (A.over a).𝟘 ≡ reciprocal (A.over a) (vanish_at (A.over a) (drop (suc i) (A.elements xs.now)) (get_or (A.elements xs.now) i (A.over a).𝟘)) }
{
    differences(a, xs, out);
    let Some(()) = inversions::invert(a, out, behind) else {
        return;
    };
}
