// The geometric sum over a field, at a point.
#![tactic(auto)]

ghost use Rattle.std.specs.Prelude.{◌≡◌};
ghost use Rattle.definition.specs.Polynomial.{evaluate, geometric};

use arithmetic::Arithmetic;

// 1 + cx + .. + (cx)^e, which has e + 1 terms, by doubling. What is left to add is b·(1 + q + .. + q^(n-1)): of an odd number of terms the first goes
// to s, and an even number is half as many at the square of q, 1 + q times.
pub fn geometric_at<A: Arithmetic>(a: A, c: A::Element, e: usize, x: A::Element) -> A::Element
    ensures { A.value result ≡ evaluate (A.over a) (geometric (A.over a) (A.value c) e) (A.value x) }
{
    let mut q = a.mul(x, c);
    let mut s = a.one();
    let mut b = q;
    let mut n = e;
    while 0 < n {
        if n % 2 == 1 {
            s = a.add(s, b);
            b = a.mul(b, q);
        }
        b = a.add_product(b, b, q);
        q = a.mul(q, q);
        n = n / 2;
    }
    s
}
