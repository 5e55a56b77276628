// The fold of the k values at the roots of a shift point, by halving, however elements are spelt: points are words of the prime field.
//
// pw is the table of the powers of ω, from the first power on to the n0-th, which is 1: point m of domain i is pw[2^i·m], a shift point is an entry, and so is the
// inverse of a power. The k roots of a shift point are x·ζ^m, where ζ^(k/2) is -1, so root m and root m + k/2 are opposite. From the values v at x and w at -x the
// polynomial E + r·O, made of the even and the odd half of the one through all k values, has (v + w + r·(v - w)/x)/2 at x², and at r² what that one has at r. So k
// values halve to k/2, until one is left.
#![tactic(auto)]

ghost use Rattle.std.specs.Prelude.{◌≡◌, ℕ, ◌+◌, ◌*◌, ◌^◌, ◌≤◌, ◌<◌, length, get_or};
ghost use Rattle.definition.specs.Field.{Field, field_of};
ghost use Rattle.field.specs.Answer.{inversion_of};
ghost use Rattle.folds.specs.Halving.{joined, halving, exponent_of};
ghost use Rattle.folds.specs.OneHalf.{two, half_of};
ghost use Rattle.folds.specs.PointsIn.{inverse_power_in, inverse_as, shift_in, ShiftPoint};

use arithmetic::Arithmetic;
use field::Prime;

// A word as an index.
pub fn wide(x: u32) -> usize
    ensures { result ≡ x }
{
    x as usize
}

// The shift point of index j, the k-th power of point j: its exponent is k times as large, and the table goes round.
pub fn shift_point(pw: &[u32], scale: usize, j: usize, k: usize) -> u32
    requires { (scale * j < length pw.now) × ((length pw.now ≤ 4096) × ((0 < k) × (k ≤ 16))) }
    ensures value { result ≡ shift_in 0 pw.now scale k j }
    ensures shift_point { ShiftPoint pw.now scale k j result }
{
    pw[(k - 1 + k * (scale * j)) % pw.len()]
}

// The inverse of ω^e, which is a power of ω too.
pub fn inverse_power(pw: &[u32], e: usize) -> u32
    requires { 0 < length pw.now }
    ensures { result ≡ inverse_power_in 0 pw.now e }
{
    let n = pw.len();
    pw[n - 1 - e % n]
}

// What the inversion of 2 answers: (p + 1)/2 is found, since p is odd, and no power is taken.
pub fn invert_two(field: u32) -> Option<u32>
    ensures { inversion_of result ≡ (field_of field).inverse (two (field_of field)) }
{
    Some(field::modulus(field) / 2 + 1)
}

// The values v at x and w at -x, joined; y is 1/x, and half is 1/2, both words of the prime field.
fn join<A: Arithmetic>(
    a: A,
    half: u32,
    r: A::Element,
    y: u32,
    v: A::Element,
    w: A::Element,
) -> A::Element
    ensures { A.value result ≡ joined (A.over a) (A.numbered half) (A.value r) (A.numbered y) (A.value v) (A.value w) }
{
    let sum = a.add(v, w);
    let difference = a.sub(v, w);
    let factor = a.scale(y, r);
    a.scale(half, a.add_product(sum, factor, difference))
}

// One turn: the first 2h values, at the powers e, e + d, .. of ω, become h values at the squares.
fn turn<A: Arithmetic>(
    a: A,
    pw: &[u32],
    half: u32,
    e: usize,
    d: usize,
    r: A::Element,
    h: usize,
    values: &mut [u32],
)
    requires pw_nonzero { (0 < length pw.now) × ((h + h ≤ length (A.elements values.old)) × (length (A.elements values.old) ≤ 16)) }
    requires e_bound { (e ≤ 65536) × (d ≤ 65536) }
    ensures by_index { (m : ℕ) → m < h → get_or (A.elements values.new) m (A.over a).𝟘 ≡ joined (A.over a) (A.numbered half) (A.value r) (inverse_as A.numbered pw.now (e + m * d)) (get_or (A.elements values.old) m (A.over a).𝟘) (get_or (A.elements values.old) (h + m) (A.over a).𝟘) }
    ensures values_len_unchanged { length (A.elements values.new) ≡ length (A.elements values.old) }
{
    for m in 0..h {
        let y = inverse_power(pw, e + m * d);
        let v = a.get(values, m);
        let w = a.get(values, h + m);
        a.put(values, m, join(a, half, r, y, v, w));
    }
}

// The values at the powers e, e + d, .. of ω, folded with r; half is 1/2. Each turn doubles the exponents and squares the coin.
pub fn fold_by_half<A: Arithmetic>(
    a: A,
    half: u32,
    pw: &[u32],
    e: usize,
    d: usize,
    r: A::Element,
    values: &mut [u32],
) -> A::Element
    requires pw_nonzero { (0 < length pw.now) × ((e ≤ 4096) × (d ≤ 4096)) }
    requires values_len { (length (A.elements values.old) ≡ 2 ^ exponent_of (length (A.elements values.old))) × (length (A.elements values.old) ≤ 16) }
    ensures { A.value result ≡ halving (A.over a) (A.numbered half) (inverse_as A.numbered pw.now) (exponent_of (length (A.elements values.old))) e d (A.value r) (λ m. get_or (A.elements values.old) m (A.over a).𝟘) }
{
    let mut count = a.count(values);
    let mut first = e;
    let mut step = d;
    let mut coin = r;
    while 1 < count {
        count = count / 2;
        turn(a, pw, half, first, step, coin, count, values);
        first = 2 * first;
        step = 2 * step;
        coin = a.mul(coin, coin);
    }
    a.get(values, 0)
}

// The values of one word at the powers e, e + d, .. of ω, folded with r.
pub fn fold_values(field: u32, pw: &[u32], e: usize, d: usize, r: u32, values: &mut [u32]) -> u32
    requires pw_nonzero { (0 < length pw.now) × ((e ≤ 4096) × (d ≤ 4096)) }
    requires values_len { (length values.old ≡ 2 ^ exponent_of (length values.old)) × (length values.old ≤ 16) }
    ensures { result ≡ halving (field_of field) (half_of (field_of field)) (inverse_power_in 0 pw.now) (exponent_of (length values.old)) e d r (λ m. get_or values.old m 0) }
{
    let Some(half) = invert_two(field) else {
        // never: 2 differs from 0 in each field
        return 0;
    };
    fold_by_half(Prime { field: field }, half, pw, e, d, r, values)
}
