// The points of a round's samples, of equal ones the last: found, and put in front of those that are kept. Out coins are elements in either spelling,
// shift points are numbers; numbers of points count elements.
#![tactic(auto)]

ghost use Rattle.std.specs.Prelude.{◌≡◌, [], ◌++◌, map, ◌+◌, ◌≤◌, ◌<◌, length, drop};
ghost use Rattle.definition.specs.Field.{Field};
ghost use Rattle.definition.specs.Lists.{different, member};
ghost use Rattle.spelling.specs.ByField.{field_at, elements_at};
ghost use Rattle.elements.specs.Meaning.{value_at};
ghost use Rattle.distinct.specs.Points.{InTable, keep_point, keep_points, shift_at};

use arithmetic::Arithmetic;
use field::Prime;
use quartic::{Four, FourWords};

// Is an element among those from number `from` on?
fn found<A: Arithmetic>(a: A, xs: &[u32], from: usize, x: A::Element) -> bool
    requires { from ≤ length (A.elements xs.now) }
    ensures { result ≡ member (A.over a).equal (A.value x) (drop from (A.elements xs.now)) }
{
    for i in from..a.count(xs) {
        if a.same(x, a.get(xs, i)) {
            return true;
        }
    }
    false
}

// Puts a point in front of those from number `from` on, unless it is there. The answer is the number of the first point.
fn keep_in<A: Arithmetic>(a: A, xs: &mut [u32], from: usize, x: A::Element) -> usize
    requires { (0 < from) × (from ≤ length (A.elements xs.old)) }
    ensures xs_after { drop result (A.elements xs.new) ≡ keep_point (A.over a).equal (A.value x) (drop from (A.elements xs.old)) }
    ensures upper_bound { (result ≤ from) × (from ≤ result + 1) }
{
    if found(a, xs, from, x) {
        return from;
    }
    let at = from - 1;
    a.put(xs, at, x);
    at
}

// The same in either spelling.
fn keep(field: u32, xs: &mut [u32], from: usize, x: Four) -> usize
    requires { (0 < from) × (from ≤ length (elements_at field xs.old)) }
    ensures xs_after { drop result (elements_at field xs.new) ≡ keep_point (field_at field).equal (value_at field x) (drop from (elements_at field xs.old)) }
    ensures upper_bound { (result ≤ from) × (from ≤ result + 1) }
{
    if field == 3 {
        return keep_in(FourWords, xs, from, x);
    }
    keep_in(Prime { field: field }, xs, from, x.a)
}

// The different shift points of a level in the last places of xs. The level's point j stands at scale·j in the table of points.
fn keep_shifts(
    field: u32,
    pw: &[u32],
    scale: usize,
    k: usize,
    shifts: &[u32],
    xs: &mut [u32],
) -> usize
    requires k_nonzero { (0 < k) × ((k ≤ 16) × (length pw.now ≤ 4096)) }
    requires in_table { (InTable (length pw.now) scale shifts.now) × (length shifts.now ≤ length (elements_at field xs.old)) }
    ensures xs_after { drop result (elements_at field xs.new) ≡ keep_points (field_at field).equal (map (shift_at field pw.now scale k) shifts.now) [] }
    ensures upper_bound { (result ≤ length (elements_at field xs.old)) × (length (elements_at field xs.old) ≤ result + length shifts.now) }
{
    let mut at = elements::count(field, xs);
    for i in (0..shifts.len()).rev() {
        let x = folds::shift_point(pw, scale, folds::wide(shifts[i]), k);
        at = keep(field, xs, at, elements::number(x));
    }
    at
}

// Puts points in front of those from number `from` on, the last first.
fn keep_all(field: u32, points: &[u32], xs: &mut [u32], from: usize) -> usize
    requires { (from ≤ length (elements_at field xs.old)) × (length (elements_at field points.now) ≤ from) }
    ensures xs_after { drop result (elements_at field xs.new) ≡ keep_points (field_at field).equal (elements_at field points.now) (drop from (elements_at field xs.old)) }
    ensures upper_bound { (result ≤ from) × (from ≤ result + length (elements_at field points.now)) }
{
    let mut at = from;
    for i in (0..elements::count(field, points)).rev() {
        let x = elements::get(field, points, i);
        at = keep(field, xs, at, x);
    }
    at
}

// The points of G, without repeats, in the last places of xs: the out coins, then the shift points.
pub fn points(
    field: u32,
    pw: &[u32],
    scale: usize,
    k: usize,
    outs: &[u32],
    shifts: &[u32],
    xs: &mut [u32],
) -> usize
    requires k_nonzero { (0 < k) × ((k ≤ 16) × (length pw.now ≤ 4096)) }
    requires in_table { (InTable (length pw.now) scale shifts.now) × (length (elements_at field outs.now) + length shifts.now ≤ length (elements_at field xs.old)) }
    ensures xs_after { drop result (elements_at field xs.new) ≡ different (field_at field).equal (elements_at field outs.now ++ map (shift_at field pw.now scale k) shifts.now) }
    ensures upper_bound { (result ≤ length (elements_at field xs.old)) × (length (elements_at field xs.old) ≤ result + (length (elements_at field outs.now) + length shifts.now)) }
{
    let at = keep_shifts(field, pw, scale, k, shifts, xs);
    keep_all(field, outs, xs, at)
}
