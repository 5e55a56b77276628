// Samples without repeats, in the last places of two slices, one of points and one of values: those from a number on are in use.
// A sample is put in front of those that are there, unless its point is among them; a point that is there with another value is a clash.
#![tactic(auto)]

ghost use Rattle.std.specs.Prelude.{◌≡◌, ℕ, ◌≤◌, ◌<◌, List, ◌++◌, length, drop};
ghost use Rattle.std.proofs.Math.Option.{some};
ghost use Rattle.arithmetic.specs.Found.{found_as};
ghost use Rattle.definition.specs.Field.{Field};
ghost use Rattle.definition.specs.Polynomial.{Sample, pair};
ghost use Rattle.spelling.specs.ByField.{ElementOf, field_at, elements_at};
ghost use Rattle.elements.specs.Meaning.{value_at};
ghost use Rattle.samples.specs.Samples.{lookup, put, kept, distinct_or_clash, Room};

use arithmetic::Arithmetic;
use field::Prime;
use quartic::{Four, FourWords};

// The value at x among the samples from number k on.
fn find<A: Arithmetic>(a: A, xs: &[u32], ys: &[u32], k: usize, x: A::Element) -> Option<A::Element>
    requires { (k ≤ length (A.elements xs.now)) × (length (A.elements ys.now) ≡ length (A.elements xs.now)) }
    ensures { found_as A.value result ≡ lookup (A.over a).equal (A.value x) (pair (drop k (A.elements xs.now)) (drop k (A.elements ys.now))) }
{
    for i in k..a.count(xs) {
        if a.same(x, a.get(xs, i)) {
            return Some(a.get(ys, i));
        }
    }
    None
}

// Puts a sample in front of those from number k on, unless its point is there.
fn put_front<A: Arithmetic>(
    a: A,
    xs: &mut [u32],
    ys: &mut [u32],
    k: usize,
    x: A::Element,
    y: A::Element,
) -> Option<usize>
    requires { (0 < k) × ((k ≤ length (A.elements xs.old)) × (length (A.elements ys.old) ≡ length (A.elements xs.old))) }
    ensures ys_after { kept result (A.elements xs.new) (A.elements ys.new) ≡ put (A.over a).equal (record { point = A.value x; value = A.value y }) (pair (drop k (A.elements xs.old)) (drop k (A.elements ys.old))) }
    ensures room { Room k 1 result }
{
    if let Some(v) = find(a, xs, ys, k, x) {
        if a.same(y, v) {
            return Some(k);
        }
        return None;
    }
    let at = k - 1;
    a.put(xs, at, x);
    a.put(ys, at, y);
    Some(at)
}

// Puts a sample in front of those from number k on, unless its point is there: the number of the first then, or none where two equal points have different
// values.
pub fn push(field: u32, xs: &mut [u32], ys: &mut [u32], k: usize, x: Four, y: Four) -> Option<usize>
    requires { (0 < k) × ((k ≤ length (elements_at field xs.old)) × (length (elements_at field ys.old) ≡ length (elements_at field xs.old))) }
    ensures ys_after { kept result (elements_at field xs.new) (elements_at field ys.new) ≡ put (field_at field).equal (record { point = value_at field x; value = value_at field y }) (pair (drop k (elements_at field xs.old)) (drop k (elements_at field ys.old))) }
    ensures room { Room k 1 result }
{
    if field == 3 {
        return put_front(FourWords, xs, ys, k, x, y);
    }
    put_front(Prime { field: field }, xs, ys, k, x.a, y.a)
}

// Puts the samples of xs and ys in front of those from number `from` on in px and py, the last first.
pub fn push_all(
    field: u32,
    xs: &[u32],
    ys: &[u32],
    px: &mut [u32],
    py: &mut [u32],
    from: usize,
) -> Option<usize>
    requires ys_len { (length (elements_at field ys.now) ≡ length (elements_at field xs.now)) × (length (elements_at field py.old) ≡ length (elements_at field px.old)) }
    requires from_in_bounds { (from ≤ length (elements_at field px.old)) × (length (elements_at field xs.now) ≤ from) }
    ensures py_after { (samples : List (Sample (ElementOf field))) → some (pair (drop from (elements_at field px.old)) (drop from (elements_at field py.old))) ≡ distinct_or_clash (field_at field) samples → kept result (elements_at field px.new) (elements_at field py.new) ≡ distinct_or_clash (field_at field) (pair (elements_at field xs.now) (elements_at field ys.now) ++ samples) }
    ensures room { Room from (length (elements_at field xs.now)) result }
{
    let mut k = from;
    for i in (0..elements::count(field, xs)).rev() {
        let x = elements::get(field, xs, i);
        let y = elements::get(field, ys, i);
        let Some(j) = push(field, px, py, k, x, y) else {
            return None;
        };
        k = j;
    }
    Some(k)
}
