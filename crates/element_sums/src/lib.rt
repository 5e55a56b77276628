// Sums of products and powers of elements, in either spelling, chosen once a call.
#![tactic(auto)]

ghost use Rattle.std.specs.Prelude.{◌≡◌, ◌-◌, ◌*◌, ◌≤◌, ◌<◌, length};
ghost use Rattle.definition.specs.Field.{Field, field_of, quads};
ghost use Rattle.definition.specs.Polynomial.{geometric};
ghost use Rattle.algebra.specs.Laws.{FieldLaws};
ghost use Rattle.spelling.specs.Field3.{field3};
ghost use Rattle.spelling.specs.ByField.{field_at, elements_at};
ghost use Rattle.quartic.specs.Meaning.{quad_of};
ghost use Rattle.elements.specs.Meaning.{value_at};
ghost use Rattle.sums.specs.Sums.{products};

use arithmetic::{Arithmetic, Inversion};
use field::Prime;
use quartic::{Four, FourWords};

// What one word and four words do in ways of their own: the remainders of one word wait for the end of a sum, and its powers come from two of about half their
// exponent; four words go on by one product a turn.
pub trait Sums: Inversion {
    // The number of words of n elements.
    fn words(self, n: usize) -> usize
        requires { n ≤ 65536 }
        ensures { result ≡ Self.width * n };

    // The sum of the products of a and b, as far as a goes.
    fn sum(self, a: &[u32], b: &[u32]) -> Self::Element
        requires { (length (Self.elements a.now) ≤ length (Self.elements b.now)) × (length (Self.elements a.now) ≤ 65536) }
        ensures { Self.value result ≡ products (Self.over self) (Self.elements a.now) (Self.elements b.now) };

    // The powers of x, from 1 on.
    fn powers(self, x: Self::Element, out: &mut [u32])
        requires { 0 < length (Self.elements out.old) }
        ensures { Self.elements out.new ≡ geometric (Self.over self) (Self.value x) (length (Self.elements out.old) - 1) };

    // The sum of x and d, y times, where d and y are in range.
    fn sum_times(self, x: Self::Element, d: Self::Element, y: Self::Element) -> Self::Element
        requires { ((Self.laws self).reduce (Self.value d) ≡ Self.value d) × ((Self.laws self).reduce (Self.value y) ≡ Self.value y) }
        ensures { Self.value result ≡ (Self.over self).◌⊗◌ ((Self.over self).◌⊕◌ (Self.value x) (Self.value d)) (Self.value y) };
}

impl Sums for Prime {
    fn words(self, n: usize) -> usize {
        n
    }

    fn sum(self, a: &[u32], b: &[u32]) -> u32 {
        sums::sum(self.field, a, b)
    }

    fn powers(self, x: u32, out: &mut [u32]) {
        sums::powers(self.field, x, out);
    }

    // With one remainder for both: y is below p, and so the product fits.
    fn sum_times(self, x: u32, d: u32, y: u32) -> u32 {
        field::reduce(self.field, (x as u64 + d as u64) * y as u64)
    }
}

impl Sums for FourWords {
    fn words(self, n: usize) -> usize {
        4 * n
    }

    fn sum(self, a: &[u32], b: &[u32]) -> Four {
        sum_four(a, b)
    }

    fn powers(self, x: Four, out: &mut [u32]) {
        powers_four(x, out);
    }

    fn sum_times(self, x: Four, d: Four, y: Four) -> Four {
        quartic::mul(quartic::add(x, d), y)
    }
}

// The sum of the products of a and b, as far as a goes, of four words each.
pub fn sum_four(a: &[u32], b: &[u32]) -> Four
    requires { length (quads a.now) ≤ length (quads b.now) }
    ensures { quad_of result ≡ products field3 (quads a.now) (quads b.now) }
{
    let mut s = FourWords.zero();
    for i in (0..quartic::count(a)).rev() {
        s = quartic::add_product(s, quartic::get(a, i), quartic::get(b, i));
    }
    s
}

// The sum of the products of a and b, as far as a goes.
pub fn sum(field: u32, a: &[u32], b: &[u32]) -> Four
    requires { (length (elements_at field a.now) ≤ length (elements_at field b.now)) × (length (elements_at field a.now) ≤ 65536) }
    ensures { value_at field result ≡ products (field_at field) (elements_at field a.now) (elements_at field b.now) }
{
    if field == 3 {
        return sum_four(a, b);
    }
    elements::number(sums::sum(field, a, b))
}

// The powers of x, from 1 on, of four words each.
pub fn powers_four(x: Four, out: &mut [u32])
    requires { 0 < length (quads out.old) }
    ensures { quads out.new ≡ geometric field3 (quad_of x) (length (quads out.old) - 1) }
{
    quartic::put(out, 0, elements::number(1));
    for i in 1..quartic::count(out) {
        let before = quartic::get(out, i - 1);
        quartic::put(out, i, quartic::mul(before, x));
    }
}

// The powers of x, from 1 on.
pub fn powers(field: u32, x: Four, out: &mut [u32])
    requires { 0 < length (elements_at field out.old) }
    ensures { elements_at field out.new ≡ geometric (field_at field) (value_at field x) (length (elements_at field out.old) - 1) }
{
    if field == 3 {
        powers_four(x, out);
    } else {
        sums::powers(field, x.a, out);
    }
}
