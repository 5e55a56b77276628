// Elements of field 3: a + bX + cX² + dX³ over p = 2013265921 with X⁴ = 11, four words each, a first. No function of the arithmetic asks anything of its
// caller. A slice of words holds elements one after the other.
#![tactic(auto)]

ghost use Rattle.std.specs.Prelude.{◌≡◌, ℕ, ◌*◌, ◌%◌, ◌≤◌, ◌<◌, length, get_or, set};
ghost use Rattle.definition.specs.Field.{Field, Quad, field_of, embed, norm_first, norm_second, norm, quads};
ghost use Rattle.spelling.specs.Field3.{field3, base};
ghost use Rattle.spelling.specs.Words.{quads_length, quads_take, quads_drop};
ghost use Rattle.quartic.specs.Meaning.{quad_of, inverse_four};
ghost use Rattle.quartic.specs.FourWords.{laws_of_four, wide_four, reduced_by_four};

use arithmetic::{Arithmetic, Inversion};

// An element by its four words.
#[derive(Clone, Copy, PartialEq, Eq)]
pub struct Four {
    pub a: u32,
    pub b: u32,
    pub c: u32,
    pub d: u32,
}

// The sum.
pub fn add(x: Four, y: Four) -> Four
    ensures { quad_of result ≡ field3.◌⊕◌ (quad_of x) (quad_of y) }
{
    Four {
        a: field::add(2, x.a, y.a),
        b: field::add(2, x.b, y.b),
        c: field::add(2, x.c, y.c),
        d: field::add(2, x.d, y.d),
    }
}

// The difference.
pub fn sub(x: Four, y: Four) -> Four
    ensures { quad_of result ≡ field3.◌⊖◌ (quad_of x) (quad_of y) }
{
    Four {
        a: field::sub(2, x.a, y.a),
        b: field::sub(2, x.b, y.b),
        c: field::sub(2, x.c, y.c),
        d: field::sub(2, x.d, y.d),
    }
}

// The product of two words below p: four of these fit in 64 bits together.
fn times(x: u32, a: u32) -> u64
    requires { (x < 2013265921) × (a < 2013265921) }
    ensures { (result ≡ x * a) × (result ≤ 4053239664633446400) }
{
    x as u64 * a as u64
}

// One word of a product, of words below p, and a word: four products and a word fit in 64 bits, so that one remainder serves all.
fn word_of(s: u32, x: Four, a: u32, b: u32, c: u32, d: u32) -> u32
    requires a_bound { (x.a < 2013265921) × ((x.b < 2013265921) × ((x.c < 2013265921) × (x.d < 2013265921))) }
    requires a_bound_2 { (a < 2013265921) × ((b < 2013265921) × ((c < 2013265921) × (d < 2013265921))) }
    ensures { result ≡ base.◌⊕◌ s (base.◌⊕◌ (base.◌⊕◌ (base.◌⊕◌ (base.◌⊗◌ x.a a) (base.◌⊗◌ x.b b)) (base.◌⊗◌ x.c c)) (base.◌⊗◌ x.d d)) }
{
    field::reduce(
        2,
        times(x.a, a) + times(x.b, b) + times(x.c, c) + times(x.d, d) + s as u64,
    )
}

// A word below p. Words of elements are such, so that there is mostly nothing to divide; but none is asked for.
fn below(x: u32) -> u32
    ensures { (result ≡ x % 2013265921) × (result < 2013265921) }
{
    if x < 2013265921 {
        return x;
    }
    field::reduce(2, x as u64)
}

// The element by words below p.
fn reduced(x: Four) -> Four
    ensures a_value { (result.a ≡ x.a % 2013265921) × ((result.b ≡ x.b % 2013265921) × ((result.c ≡ x.c % 2013265921) × (result.d ≡ x.d % 2013265921))) }
    ensures a_bound { (result.a < 2013265921) × ((result.b < 2013265921) × ((result.c < 2013265921) × (result.d < 2013265921))) }
{
    Four {
        a: below(x.a),
        b: below(x.b),
        c: below(x.c),
        d: below(x.d),
    }
}

// Eleven times a word.
fn eleven_times(x: u32) -> u32
    ensures { (result ≡ base.◌⊗◌ 11 x) × (result < 2013265921) }
{
    field::reduce(2, 11 * x as u64)
}

// The sum of s and the product of x and y: the step of Horner's rule. Three words of x are taken eleven times, so x is best the factor that stays the same
// from turn to turn.
pub fn add_product(s: Four, x: Four, y: Four) -> Four
    ensures { quad_of result ≡ field3.◌⊕◌ (quad_of s) (field3.◌⊗◌ (quad_of x) (quad_of y)) }
{
    let u = reduced(x);
    let v = reduced(y);
    let b11 = eleven_times(u.b);
    let c11 = eleven_times(u.c);
    let d11 = eleven_times(u.d);
    Four {
        a: word_of(s.a, v, u.a, d11, c11, b11),
        b: word_of(s.b, v, u.b, u.a, d11, c11),
        c: word_of(s.c, v, u.c, u.b, u.a, d11),
        d: word_of(s.d, v, u.d, u.c, u.b, u.a),
    }
}

// The product; y is best the factor that stays the same, or that is at hand first.
pub fn mul(x: Four, y: Four) -> Four
    ensures { quad_of result ≡ field3.◌⊗◌ (quad_of x) (quad_of y) }
{
    let zero = Four {
        a: 0,
        b: 0,
        c: 0,
        d: 0,
    };
    add_product(zero, y, x)
}

// The product with an element of the prime field, as points of domains are: four products in place of sixteen.
pub fn scale(k: u32, y: Four) -> Four
    ensures { quad_of result ≡ field3.◌⊗◌ (embed base k) (quad_of y) }
{
    Four {
        a: field::mul(2, k, y.a),
        b: field::mul(2, k, y.b),
        c: field::mul(2, k, y.c),
        d: field::mul(2, k, y.d),
    }
}

// The sum of s and the product with an element of the prime field.
pub fn add_scaled(s: Four, k: u32, y: Four) -> Four
    ensures { quad_of result ≡ field3.◌⊕◌ (quad_of s) (field3.◌⊗◌ (embed base k) (quad_of y)) }
{
    Four {
        a: field::add_product(2, s.a, k, y.a),
        b: field::add_product(2, s.b, k, y.b),
        c: field::add_product(2, s.c, k, y.c),
        d: field::add_product(2, s.d, k, y.d),
    }
}

// x·(a - bX + cX² - dX³) is n + mX²: n, and m.
fn norm_first(x: Four) -> u32
    ensures { result ≡ norm_first base 11 (quad_of x) }
{
    let s = field::add(
        2,
        field::mul(2, x.a, x.a),
        field::mul(2, 11, field::mul(2, x.c, x.c)),
    );
    let t = field::add(2, field::mul(2, x.b, x.d), field::mul(2, x.d, x.b));
    field::sub(2, s, field::mul(2, 11, t))
}

fn norm_second(x: Four) -> u32
    ensures { result ≡ norm_second base 11 (quad_of x) }
{
    let s = field::add(2, field::mul(2, x.a, x.c), field::mul(2, x.c, x.a));
    let t = field::add(
        2,
        field::mul(2, x.b, x.b),
        field::mul(2, 11, field::mul(2, x.d, x.d)),
    );
    field::sub(2, s, t)
}

// The inverse: with i that of n² - 11m², it is (a - bX + cX² - dX³)·(n - mX²)·i.
pub fn inv(x: Four) -> Option<Four>
    ensures { inverse_four result ≡ field3.inverse (quad_of x) }
{
    let n = norm_first(x);
    let m = norm_second(x);
    let norm = field::sub(
        2,
        field::mul(2, n, n),
        field::mul(2, 11, field::mul(2, m, m)),
    );
    let Some(i) = field::inv(2, norm) else {
        return None;
    };
    let y = Four {
        a: x.a,
        b: field::sub(2, 0, x.b),
        c: x.c,
        d: field::sub(2, 0, x.d),
    };
    let z = Four {
        a: field::mul(2, n, i),
        b: 0,
        c: field::mul(2, field::sub(2, 0, m), i),
        d: 0,
    };
    Some(mul(y, z))
}

// Are two elements the same four words?
pub fn same(x: Four, y: Four) -> bool
    ensures { result ≡ field3.equal (quad_of x) (quad_of y) }
{
    x == y
}

// Element i of the words.
pub fn get(w: &[u32], i: usize) -> Four
    requires { i < length (quads w.now) }
    ensures { quad_of result ≡ get_or (quads w.now) i field3.𝟘 }
{
    let at = 4 * i;
    Four {
        a: w[at],
        b: w[at + 1],
        c: w[at + 2],
        d: w[at + 3],
    }
}

// Puts an element in place i of the words.
pub fn put(w: &mut [u32], i: usize, x: Four)
    requires { i < length (quads w.old) }
    ensures { quads w.new ≡ set (quads w.old) i (quad_of x) }
{
    let at = 4 * i;
    w[at] = x.a;
    w[at + 1] = x.b;
    w[at + 2] = x.c;
    w[at + 3] = x.d;
}

// The number of elements that the words hold.
pub fn count(w: &[u32]) -> usize
    ensures { result ≡ length (quads w.now) }
{
    w.len() / 4
}

// Field 3 itself: an element is four words.
#[derive(Clone, Copy)]
pub struct FourWords;

impl Arithmetic for FourWords {
    type Element = Four;

    ghost Carrier = { Quad ℕ };

    ghost over = { λ s. field3 };

    ghost laws = { λ s. laws_of_four };

    ghost numbered = { embed base };

    ghost value = { quad_of };

    ghost width = { 4 };

    ghost elements = { quads };

    fn zero(self) -> Four {
        self.number(0)
    }

    fn one(self) -> Four {
        self.number(1)
    }

    fn number(self, x: u32) -> Four {
        Four {
            a: x,
            b: 0,
            c: 0,
            d: 0,
        }
    }

    fn add(self, x: Four, y: Four) -> Four {
        add(x, y)
    }

    fn sub(self, x: Four, y: Four) -> Four {
        sub(x, y)
    }

    fn mul(self, x: Four, y: Four) -> Four {
        mul(x, y)
    }

    fn add_product(self, s: Four, x: Four, y: Four) -> Four {
        add_product(s, x, y)
    }

    fn scale(self, k: u32, y: Four) -> Four {
        scale(k, y)
    }

    fn add_scaled(self, s: Four, k: u32, y: Four) -> Four {
        add_scaled(s, k, y)
    }

    fn same(self, x: Four, y: Four) -> bool {
        same(x, y)
    }

    fn count(self, w: &[u32]) -> usize {
        count(w)
    }

    fn get(self, w: &[u32], i: usize) -> Four {
        get(w, i)
    }

    fn put(self, w: &mut [u32], i: usize, x: Four) {
        put(w, i, x);
    }

    ghost wide = { wide_four };

    ghost counted = { quads_length };

    ghost first = { quads_take };

    ghost behind = { quads_drop };
}

impl Inversion for FourWords {
    fn inv(self, x: Four) -> Option<Four> {
        inv(x)
    }

    ghost reduced = { λ s x. reduced_by_four x };
}
