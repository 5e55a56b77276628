// The prover's round polynomial: fold, quotient, degree correction. Polynomials are slices of coefficients, lowest first. What is written here for any field's
// arithmetic serves elements of one word and of four; `fold`, `multiplied` and `corrected` take the field by its number and any words, and choose by it.
#![tactic(auto)]

ghost use Rattle.std.specs.Prelude.{◌≡◌, [], ◌∷◌, ◌++◌, ◌+◌, ◌-◌, ◌*◌, ◌≤◌, ◌<◌, length, take, drop, get_or, replicate};
ghost use Rattle.definition.specs.Field.{Field, field_of, power};
ghost use Rattle.definition.specs.Polynomial.{mul_poly, divide, quotient, geometric, fold_poly};
ghost use Rattle.spelling.specs.ByField.{field_at, elements_at};
ghost use Rattle.elements.specs.Meaning.{value_at};
ghost use Rattle.correction.specs.Corrected.{Corrected};

use arithmetic::Arithmetic;
use field::Prime;
use quartic::{Four, FourWords};

// The quotient by X - x of the polynomial in the first `count` coefficients, in place, by Horner's scheme from the top down: `above` is the
// value at x of the coefficients passed. The quotient has one coefficient less, and a zero takes the last place.
fn divide<A: Arithmetic>(a: A, x: A::Element, f: &mut [u32], count: usize)
    requires { count ≤ length (A.elements f.old) }
    ensures { take (count - 1) (A.elements f.new) ≡ divide (A.over a) (take count (A.elements f.old)) (A.value x) }
{
    let mut above = a.zero();
    for i in (0..count).rev() {
        let coefficient = a.get(f, i);
        a.put(f, i, above);
        above = a.add_product(coefficient, x, above);
    }
}

// The quotient of the polynomial in the first `count` coefficients by the product of X - x over the points from number `from` on, in place, by one
// point after the other.
fn divide_each<A: Arithmetic>(a: A, xs: &[u32], from: usize, f: &mut [u32], count: usize)
    requires { (from ≤ length (A.elements xs.now)) × ((length (A.elements xs.now) - from ≤ count) × (count ≤ length (A.elements f.old))) }
    ensures { take (count - (length (A.elements xs.now) - from)) (A.elements f.new) ≡ quotient (A.over a) (take count (A.elements f.old)) (drop from (A.elements xs.now)) }
{
    for i in from..a.count(xs) {
        divide(a, a.get(xs, i), f, count - (i - from));
    }
}

// The quotient by X - a, X - b, X - c and X - d, in one pass. Only the last is stored: each coefficient of a quotient goes to the next scheme as it leaves
// its own. The four schemes do not wait for one another, and so take less time than two passes would.
fn divide_four(field: u32, a: u32, b: u32, c: u32, d: u32, f: &mut [u32], count: usize)
    requires { count ≤ length f.old }
    ensures { take (count - 4) f.new ≡ quotient (field_of field) (take count f.old) (a ∷ b ∷ c ∷ d ∷ []) }
{
    let mut first: u32 = 0;
    let mut second: u32 = 0;
    let mut third: u32 = 0;
    let mut fourth: u32 = 0;
    for i in (0..count).rev() {
        let coefficient = f[i];
        f[i] = fourth;
        fourth = field::add_product(field, third, d, fourth);
        third = field::add_product(field, second, c, third);
        second = field::add_product(field, first, b, second);
        first = field::add_product(field, coefficient, a, first);
    }
}

// The quotient by the points from number `from` on, by four points at a time, and what is left of them one by one.
fn by_schemes(field: u32, xs: &[u32], from: usize, f: &mut [u32], count: usize)
    requires { (from ≤ length xs.now) × ((length xs.now - from ≤ count) × (count ≤ length f.old)) }
    ensures { take (count - (length xs.now - from)) f.new ≡ quotient (field_of field) (take count f.old) (drop from xs.now) }
{
    let fours = (xs.len() - from) / 4;
    for t in 0..fours {
        let i = from + 4 * t;
        divide_four(
            field,
            xs[i],
            xs[i + 1],
            xs[i + 2],
            xs[i + 3],
            f,
            count - 4 * t,
        );
    }
    divide_each(
        Prime { field: field },
        xs,
        from + 4 * fours,
        f,
        count - 4 * fours,
    );
}

// What the correction needs of a spelling beside its arithmetic. Its quotients are no twins: of one word they come by four points at a time, or by sums.
trait PolynomialDivision: Arithmetic {
    // The number of words of an element.
    fn words(self) -> usize
        ensures { result ≡ Self.width };

    // The quotient of the polynomial in the first `count` coefficients by the product of X - x over the points from number `from` on, in place.
    fn quotient(self, xs: &[u32], from: usize, f: &mut [u32], count: usize)
        requires { (from ≤ length (Self.elements xs.now)) × ((length (Self.elements xs.now) - from ≤ count) × (count ≤ length (Self.elements f.old))) }
        ensures { take (count - (length (Self.elements xs.now) - from)) (Self.elements f.new) ≡ quotient (Self.over self) (take count (Self.elements f.old)) (drop from (Self.elements xs.now)) };
}

impl PolynomialDivision for Prime {
    fn words(self) -> usize {
        1
    }

    // By sums of products where there are many points, which is then quicker, else by schemes.
    fn quotient(self, xs: &[u32], from: usize, f: &mut [u32], count: usize) {
        let e = xs.len() - from;
        if 23 < e && e < 66 {
            division::divide_all(self.field, xs, from, f, count);
        } else {
            by_schemes(self.field, xs, from, f, count);
        }
    }
}

impl PolynomialDivision for FourWords {
    fn words(self) -> usize {
        4
    }

    // By one point after the other.
    fn quotient(self, xs: &[u32], from: usize, f: &mut [u32], count: usize) {
        divide_each(self, xs, from, f, count);
    }
}

// The fold of f at r: coefficient j is the value at r of f's coefficients from number j·k on, k of them.
fn fold_in<A: PolynomialDivision>(a: A, k: usize, r: A::Element, f: &[u32], out: &mut [u32])
    requires { (0 < k) × (length (A.elements f.now) ≡ k * length (A.elements out.old)) }
    ensures { A.elements out.new ≡ fold_poly (A.over a) k (A.value r) (A.elements f.now) }
{
    let width = a.words();
    for j in (0..a.count(out)).rev() {
        let from = width * (j * k);
        let value = arithmetic::value_at(a, &f[from..from + width * k], r);
        a.put(out, j, value);
    }
}

// Coefficient i of X^n·q.
fn shifted<A: Arithmetic>(a: A, q: &[u32], n: usize, i: usize) -> A::Element
    ensures { A.value result ≡ get_or (replicate n (A.over a).𝟘 ++ A.elements q.now) i (A.over a).𝟘 }
{
    if i < n {
        return a.zero();
    }
    let j = i - n;
    if a.count(q) <= j {
        return a.zero();
    }
    a.get(q, j)
}

// -c^(e+1), from (1 - c)·(1 + c + .. + c^e) = 1 - c^(e+1): the sum is at hand by doubling, for an exponent of any size.
fn minus_power<A: Arithmetic>(a: A, c: A::Element, e: usize) -> A::Element
    ensures { A.value result ≡ (A.over a).◌⊖◌ (A.over a).𝟘 (power (A.over a) (A.value c) (e + 1)) }
{
    let one = a.one();
    let sum = polynomial::geometric_at(a, c, e, one);
    a.sub(a.mul(a.sub(one, c), sum), one)
}

// The product of q and g = 1 + cX + .. + (cX)^e, from the lowest coefficient up. (1 - cX)·g is 1 - (cX)^(e+1), so that each coefficient is the sum of
// c times the one before it and of `fresh`, the coefficient of q·(1 - (cX)^(e+1)) in its place.
fn correct<A: Arithmetic>(a: A, c: A::Element, e: usize, q: &[u32], out: &mut [u32])
    requires { (0 < length (A.elements q.now)) × (length (A.elements out.old) ≡ length (A.elements q.now) + e) }
    ensures { A.elements out.new ≡ mul_poly (A.over a) (A.elements q.now) (geometric (A.over a) (A.value c) e) }
{
    let t = minus_power(a, c, e);
    let mut last = a.zero();
    for i in 0..a.count(out) {
        let fresh = a.add_product(shifted(a, q, 0, i), t, shifted(a, q, e + 1, i));
        last = a.add_product(fresh, c, last);
        a.put(out, i, last);
    }
}

// The corrected polynomial of the first `count` coefficients of f, where the samples are at the points from number `from` on. What f holds
// afterwards is of no use.
fn corrected_in<A: PolynomialDivision>(
    a: A,
    xs: &[u32],
    from: usize,
    c: A::Element,
    f: &mut [u32],
    count: usize,
    out: &mut [u32],
)
    requires from_in_bounds { (from ≤ length (A.elements xs.now)) × (length (A.elements xs.now) - from < count) }
    requires count_in_bounds { (count ≤ length (A.elements f.old)) × ((length (A.elements out.old) ≡ count) × (length xs.now ≤ 4096)) }
    ensures { Corrected (A.over a) (drop from (A.elements xs.now)) (A.value c) (take count (A.elements f.old)) (A.elements out.new) }
{
    let e = a.count(xs) - from;
    let n = count - e;
    a.quotient(xs, from, f, count);
    correct(a, c, e, &f[..a.words() * n], out);
}

// ---- either spelling

// The fold of f at r.
pub fn fold(field: u32, k: usize, r: Four, f: &[u32], out: &mut [u32])
    requires { (0 < k) × (length (elements_at field f.now) ≡ k * length (elements_at field out.old)) }
    ensures { elements_at field out.new ≡ fold_poly (field_at field) k (value_at field r) (elements_at field f.now) }
{
    if field == 3 {
        fold_in(FourWords, k, r, f, out);
    } else {
        fold_in(Prime { field: field }, k, r.a, f, out);
    }
}

// The product of q and 1 + cX + .. + (cX)^e.
pub fn multiplied(field: u32, c: Four, e: usize, q: &[u32], out: &mut [u32])
    requires { (0 < length (elements_at field q.now)) × ((length (elements_at field out.old) ≡ length (elements_at field q.now) + e) × (e < 65536)) }
    ensures { elements_at field out.new ≡ mul_poly (field_at field) (elements_at field q.now) (geometric (field_at field) (value_at field c) e) }
{
    if field == 3 {
        correct(FourWords, c, e, q, out);
    } else {
        correct(Prime { field: field }, c.a, e, q, out);
    }
}

// The corrected polynomial of the first `count` coefficients of f, where the samples are at the points from number `from` on. What f holds
// afterwards is of no use.
pub fn corrected(
    field: u32,
    xs: &[u32],
    from: usize,
    c: Four,
    f: &mut [u32],
    count: usize,
    out: &mut [u32],
)
    requires from_in_bounds { (from ≤ length (elements_at field xs.now)) × (length (elements_at field xs.now) - from < count) }
    requires count_in_bounds { (count ≤ length (elements_at field f.old)) × ((length (elements_at field out.old) ≡ count) × (length xs.now ≤ 4096)) }
    ensures { Corrected (field_at field) (drop from (elements_at field xs.now)) (value_at field c) (take count (elements_at field f.old)) (elements_at field out.new) }
{
    if field == 3 {
        corrected_in(FourWords, xs, from, c, f, count, out);
    } else {
        corrected_in(Prime { field: field }, xs, from, c.a, f, count, out);
    }
}
