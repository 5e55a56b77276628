// One sample more in the polynomials A and V, as coefficient lists: the definition's Newton step.
#![tactic(auto)]

ghost use Rattle.std.specs.Prelude.{◌≡◌, ◌-◌, ◌≤◌, ◌<◌, length, get_or, drop};
ghost use Rattle.definition.specs.Field.{Field, reciprocal};
ghost use Rattle.definition.specs.Polynomial.{evaluate};
ghost use Rattle.polynomial.specs.Vanishing.{vanish_at};
ghost use Rattle.sums.specs.ZeroPadding.{ZeroFrom};
ghost use Rattle.newton_step.specs.Steps.{Through};
ghost use Rattle.newton_step.specs.Walked.{Added, Raised};

use arithmetic::Arithmetic;
use element_sums::Sums;

// The value at x of a polynomial with no more coefficients than `room`, lent for the powers of x, has places.
fn value_by<A: Sums>(a: A, f: &[u32], x: A::Element, room: &mut [u32]) -> A::Element
    requires room_nonzero { (0 < length (A.elements room.old)) × ((length (A.elements room.old) ≤ length (A.elements f.now)) × (length (A.elements room.old) ≤ 65536)) }
    requires zero_from { ZeroFrom (A.over a) (A.elements f.now) (length (A.elements room.old)) }
    ensures { A.value result ≡ evaluate (A.over a) (A.elements f.now) (A.value x) }
{
    a.powers(x, room);
    a.sum(room, f)
}

// In one walk over the first `count` coefficients: v, s times, is added to q, and v becomes X + d, v times.
fn add_and_raise<A: Arithmetic>(
    a: A,
    s: A::Element,
    d: A::Element,
    count: usize,
    q: &mut [u32],
    v: &mut [u32],
)
    requires { (count ≤ length (A.elements q.old)) × (length (A.elements v.old) ≡ length (A.elements q.old)) }
    ensures added { Added (A.over a) (A.value s) (A.elements q.old) (A.elements v.old) (A.elements q.new) count }
    ensures raised { Raised (A.over a) (A.value d) (A.elements v.old) (A.elements v.new) count }
{
    let mut below = a.zero();
    for i in 0..count {
        let c = a.get(v, i);
        a.put(q, i, a.add_product(a.get(q, i), s, c));
        a.put(v, i, a.add_product(below, d, c));
        below = c;
    }
}

// A and V of one sample more in front of those from number i on, where us has the inverse of what the step divides by. The caller lends room for the powers
// of the point.
pub fn step<A: Sums>(
    a: A,
    xs: &[u32],
    ys: &[u32],
    us: &[u32],
    i: usize,
    room: &mut [u32],
    q: &mut [u32],
    v: &mut [u32],
)
    requires i_nonzero { (0 < i) × ((i ≤ length (A.elements xs.now)) × ((length (A.elements ys.now) ≡ length (A.elements xs.now)) × (length (A.elements us.now) ≡ length (A.elements xs.now)))) }
    requires xs_in_bounds { (length (A.elements xs.now) < length (A.elements q.old)) × ((length (A.elements q.old) ≤ 66) × ((length (A.elements v.old) ≡ length (A.elements q.old)) × (length (A.elements xs.now) < length (A.elements room.old)))) }
    requires i_value { get_or (A.elements us.now) (i - 1) (A.over a).𝟘 ≡ reciprocal (A.over a) (vanish_at (A.over a) (drop i (A.elements xs.now)) (get_or (A.elements xs.now) (i - 1) (A.over a).𝟘)) }
    requires through { Through (A.over a) (drop i (A.elements xs.now)) (drop i (A.elements ys.now)) (A.elements q.old) (A.elements v.old) }
    ensures { Through (A.over a) (drop (i - 1) (A.elements xs.now)) (drop (i - 1) (A.elements ys.now)) (A.elements q.new) (A.elements v.new) }
{
    let count = a.count(xs) - i;
    let x = a.get(xs, i - 1);
    let n = a.words(count + 1);
    let value = value_by(a, q, x, &mut room[..n]);
    let difference = a.sub(a.get(ys, i - 1), value);
    let s = a.mul(difference, a.get(us, i - 1));
    add_and_raise(a, s, a.sub(a.zero(), x), count + 2, q, v);
}
