// The inverses of many elements by one inversion.
#![tactic(auto)]

ghost use Rattle.std.specs.Prelude.{◌≡◌, ℕ, suc, ◌≤◌, ◌<◌, length, get_or, drop};
ghost use Rattle.std.proofs.Math.Option.{some};
ghost use Rattle.definition.specs.Field.{Field};
ghost use Rattle.inversions.specs.OneInversion.{product, InvertedOver};

use arithmetic::{Arithmetic, Inversion};

// The product of all values; behind each number, in `behind`, that of the values after it.
fn products_behind<A: Arithmetic>(a: A, values: &[u32], behind: &mut [u32]) -> A::Element
    requires { length (A.elements values.now) ≤ length (A.elements behind.old) }
    ensures result_value { A.value result ≡ product (A.over a) (A.elements values.now) }
    ensures by_index { (m : ℕ) → m < length (A.elements values.now) → get_or (A.elements behind.new) m (A.over a).𝟘 ≡ product (A.over a) (drop (suc m) (A.elements values.now)) }
{
    let mut p = a.one();
    for i in (0..a.count(values)).rev() {
        a.put(behind, i, p);
        p = a.mul(a.get(values, i), p);
    }
    p
}

// The inverse of each value, from u, that of their product: times the product behind a value it is the value's own, times the value that of the product behind.
fn share<A: Inversion>(a: A, u: A::Element, values: &mut [u32], behind: &[u32])
    requires values_in_bounds { (length (A.elements values.old) ≤ length (A.elements behind.now)) × ((A.over a).inverse (product (A.over a) (A.elements values.old)) ≡ some (A.value u)) }
    requires by_index { (m : ℕ) → m < length (A.elements values.old) → get_or (A.elements behind.now) m (A.over a).𝟘 ≡ product (A.over a) (drop (suc m) (A.elements values.old)) }
    ensures { (m : ℕ) → m < length (A.elements values.old) → (A.over a).inverse (get_or (A.elements values.old) m (A.over a).𝟘) ≡ some (get_or (A.elements values.new) m (A.over a).𝟘) }
{
    let mut left = u;
    for i in 0..a.count(values) {
        let x = a.get(values, i);
        let b = a.get(behind, i);
        a.put(values, i, a.mul(left, b));
        left = a.mul(left, x);
    }
}

// The inverses of all values in their places, by one inversion; none where one of them is 0 and has none. The caller lends `behind`, as many words of scratch.
pub fn invert<A: Inversion>(a: A, values: &mut [u32], behind: &mut [u32]) -> Option<()>
    requires { length (A.elements values.old) ≤ length (A.elements behind.old) }
    ensures { InvertedOver (A.over a) (A.laws a) (A.elements values.old) result (A.elements values.new) }
{
    let all = products_behind(a, values, behind);
    let Some(u) = a.inv(all) else {
        return None;
    };
    share(a, u, values, behind);
    Some(())
}
