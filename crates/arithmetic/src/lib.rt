// The arithmetic of a field, however its elements are spelt in words: by one each, or by four. What is written over the trait is written and proved once.
#![tactic(auto)]

ghost use Rattle.std.specs.Prelude.{◌≡◌, ℕ, List, ◌*◌, ◌/◌, ◌<◌, length, get_or, set, take, drop};
ghost use Rattle.definition.specs.Field.{Field, reciprocal, power, binary_digits};
ghost use Rattle.definition.specs.Polynomial.{evaluate};
ghost use Rattle.algebra.specs.Laws.{FieldLaws};
ghost use Rattle.arithmetic.specs.Found.{found_as};

// A field's operations on any words: none asks anything of its caller but that an element is inside its slice. A slice of words holds elements one after
// the other.
pub trait Arithmetic: Copy {
    type Element: Copy;

    // what the field is over
    ghost Carrier: { Type 0 };

    // the field, and its laws
    ghost over: { Self → Field Carrier };

    ghost laws: { (s : Self) → FieldLaws (over s) };

    // a number of the prime field, as points of domains are
    ghost numbered: { ℕ → Carrier };

    // what an element stands for
    ghost value: { Self.Element → Carrier };

    // the words of an element, and the elements that words spell
    ghost width: { ℕ };

    ghost elements: { List ℕ → List Carrier };

    fn zero(self) -> Self::Element
        ensures { value result ≡ (over self).𝟘 };

    fn one(self) -> Self::Element
        ensures { value result ≡ (over self).𝟙 };

    // A number of the prime field.
    fn number(self, x: u32) -> Self::Element
        ensures { value result ≡ numbered x };

    fn add(self, x: Self::Element, y: Self::Element) -> Self::Element
        ensures { value result ≡ (over self).◌⊕◌ (value x) (value y) };

    fn sub(self, x: Self::Element, y: Self::Element) -> Self::Element
        ensures { value result ≡ (over self).◌⊖◌ (value x) (value y) };

    // The product; y is best the factor that stays the same, or that is at hand first.
    fn mul(self, x: Self::Element, y: Self::Element) -> Self::Element
        ensures { value result ≡ (over self).◌⊗◌ (value x) (value y) };

    // The sum of s and the product of x and y: the step of Horner's rule. x is best the factor that stays the same from turn to turn.
    fn add_product(self, s: Self::Element, x: Self::Element, y: Self::Element) -> Self::Element
        ensures { value result ≡ (over self).◌⊕◌ (value s) ((over self).◌⊗◌ (value x) (value y)) };

    // The product with a number of the prime field.
    fn scale(self, k: u32, y: Self::Element) -> Self::Element
        ensures { value result ≡ (over self).◌⊗◌ (numbered k) (value y) };

    // The sum of s and the product with a number of the prime field.
    fn add_scaled(self, s: Self::Element, k: u32, y: Self::Element) -> Self::Element
        ensures { value result ≡ (over self).◌⊕◌ (value s) ((over self).◌⊗◌ (numbered k) (value y)) };

    // Are two elements spelt by the same words?
    fn same(self, x: Self::Element, y: Self::Element) -> bool
        ensures { result ≡ (over self).equal (value x) (value y) };

    // The number of elements that words hold.
    fn count(self, w: &[u32]) -> usize
        ensures { result ≡ length (elements w.now) };

    // Element i of the words.
    fn get(self, w: &[u32], i: usize) -> Self::Element
        requires { i < length (elements w.now) }
        ensures { value result ≡ get_or (elements w.now) i (over self).𝟘 };

    // Puts an element in place i of the words.
    fn put(self, w: &mut [u32], i: usize, x: Self::Element)
        requires { i < length (elements w.old) }
        ensures { elements w.new ≡ set (elements w.old) i (value x) };

    // words of one length hold as many elements, and the words of a part hold the part of the elements
    ghost wide: { 0 < width };

    ghost counted: { (w : List ℕ) → length w / width ≡ length (elements w) };

    ghost first: { (n : ℕ) (w : List ℕ) → elements (take (width * n) w) ≡ take n (elements w) };

    ghost behind: { (n : ℕ) (w : List ℕ) → elements (drop (width * n) w) ≡ drop n (elements w) };
}

// Inversion. It is apart, since the inverse of one word may be taken by a power, which is written over the trait above.
pub trait Inversion: Arithmetic {
    // The inverse, which 0 alone has not.
    fn inv(self, x: Self::Element) -> Option<Self::Element>
        ensures { found_as Self.value result ≡ (Self.over self).inverse (Self.value x) };

    // an inverse is in range
    ghost reduced: { (s : Self) (x : Self.Carrier) → (Self.laws s).reduce (reciprocal (Self.over s) x) ≡ reciprocal (Self.over s) x };
}

// A power, and the turns that its loop made.
#[derive(Clone, Copy)]
pub struct Powered<T> {
    pub value: T,
    pub turns: u32,
}

// The power x^e by squaring, and the turns of its loop, which ends when no one bit of the exponent is left; 0^0 is 1.
pub fn pow_turns<A: Arithmetic>(a: A, x: A::Element, e: u32) -> Powered<A::Element>
    ensures value_value { A.value result.value ≡ power (A.over a) (A.value x) e }
    ensures turns_value { result.turns ≡ binary_digits e }
{
    let mut r = a.one();
    let mut b = x;
    let mut n = e;
    let mut turns: u32 = 0;
    while 0 < n {
        if n % 2 == 1 {
            r = a.mul(r, b);
        }
        b = a.mul(b, b);
        n = n / 2;
        turns += 1;
    }
    Powered {
        value: r,
        turns: turns,
    }
}

// The value at x of the polynomial with these coefficients, by Horner's rule.
pub fn value_at<A: Arithmetic>(a: A, coefficients: &[u32], x: A::Element) -> A::Element
    ensures { A.value result ≡ evaluate (A.over a) (A.elements coefficients.now) (A.value x) }
{
    let mut value = a.zero();
    for i in (0..a.count(coefficients)).rev() {
        value = a.add_product(a.get(coefficients, i), x, value);
    }
    value
}

// The value of a polynomial, by its coefficients, at a number of the prime field, as points of domains are; by the same rule.
pub fn value_at_number<A: Arithmetic>(a: A, polynomial: &[u32], x: u32) -> A::Element
    ensures { A.value result ≡ evaluate (A.over a) (A.elements polynomial.now) (A.numbered x) }
{
    let mut value = a.zero();
    for i in (0..a.count(polynomial)).rev() {
        value = a.add_scaled(a.get(polynomial, i), x, value);
    }
    value
}
