// The operations of the three prime fields, by the field's number, on any words. No function asks anything of its caller.
// Each remainder is by a constant, which the compiler turns into multiplications; a number above 2 counts as field 2 until the last step of a
// public operation answers that it names no field.
//
// A field is a number and no enum: it is the sheet's first word, of which every contract speaks (`field_of field`), its operations are defined for any number, and
// an enum would be turned back into it in each clause. `Prime` is the type where one is wanted.
#![tactic(auto)]

ghost use Rattle.std.specs.Prelude.{◌≡◌, ℕ, ◌-◌, ◌%◌};
ghost use Rattle.definition.specs.Field.{Field, prime_of, field_of, power, binary_digits, in_field, sum, difference, product, power_of, power_turns_of, inverse_of};
ghost use Rattle.field.specs.Answer.{element_of, powered_of, inversion_of, inverted_of};
ghost use Rattle.field.specs.OneWord.{laws_of, reduced_by_one, counted_by_one, first_by_one, behind_by_one, wide_one};

use arithmetic::{Arithmetic, Inversion, Powered};

// A multiple of all three primes that is above every word: added before a word is taken away, it keeps a difference from going below zero.
const ABOVE: u64 = 17 * 65537 * 2013265921;

// The field's prime.
pub fn modulus(field: u32) -> u32
    ensures { result ≡ prime_of field }
{
    match field {
        0 => 17,
        1 => 65537,
        _ => 2013265921,
    }
}

// The remainder of x modulo the field's prime.
pub fn reduce(field: u32, x: u64) -> u32
    ensures { result ≡ x % prime_of field }
{
    match field {
        0 => (x % 17) as u32,
        1 => (x % 65537) as u32,
        _ => (x % 2013265921) as u32,
    }
}

// The sum.
pub fn add(field: u32, a: u32, b: u32) -> u32
    ensures { result ≡ (field_of field).◌⊕◌ a b }
{
    reduce(field, a as u64 + b as u64)
}

// The difference.
pub fn sub(field: u32, a: u32, b: u32) -> u32
    ensures { result ≡ (field_of field).◌⊖◌ a b }
{
    reduce(field, a as u64 + ABOVE - b as u64)
}

// The product.
pub fn mul(field: u32, a: u32, b: u32) -> u32
    ensures { result ≡ (field_of field).◌⊗◌ a b }
{
    reduce(field, a as u64 * b as u64)
}

// The sum of a and the product of b and c, with one remainder for both: the step of Horner's rule.
pub fn add_product(field: u32, a: u32, b: u32, c: u32) -> u32
    ensures { result ≡ (field_of field).◌⊕◌ a ((field_of field).◌⊗◌ b c) }
{
    reduce(field, a as u64 + b as u64 * c as u64)
}

// A prime field, by its number: an element is one word.
#[derive(Clone, Copy)]
pub struct Prime {
    pub field: u32,
}

impl Arithmetic for Prime {
    type Element = u32;

    ghost Carrier = { ℕ };

    ghost over = { λ s. field_of s.field };

    ghost laws = { λ s. laws_of s.field };

    ghost numbered = { λ x. x };

    ghost value = { λ x. x };

    ghost width = { 1 };

    ghost elements = { λ w. w };

    fn zero(self) -> u32 {
        0
    }

    fn one(self) -> u32 {
        1
    }

    fn number(self, x: u32) -> u32 {
        x
    }

    fn add(self, x: u32, y: u32) -> u32 {
        add(self.field, x, y)
    }

    fn sub(self, x: u32, y: u32) -> u32 {
        sub(self.field, x, y)
    }

    fn mul(self, x: u32, y: u32) -> u32 {
        mul(self.field, x, y)
    }

    fn add_product(self, s: u32, x: u32, y: u32) -> u32 {
        add_product(self.field, s, x, y)
    }

    fn scale(self, k: u32, y: u32) -> u32 {
        mul(self.field, k, y)
    }

    fn add_scaled(self, s: u32, k: u32, y: u32) -> u32 {
        add_product(self.field, s, k, y)
    }

    fn same(self, x: u32, y: u32) -> bool {
        x == y
    }

    fn count(self, w: &[u32]) -> usize {
        w.len()
    }

    fn get(self, w: &[u32], i: usize) -> u32 {
        w[i]
    }

    fn put(self, w: &mut [u32], i: usize, x: u32) {
        w[i] = x;
    }

    ghost wide = { wide_one };

    ghost counted = { counted_by_one };

    ghost first = { first_by_one };

    ghost behind = { behind_by_one };
}

// The power a^e by squaring, and the turns of its loop; 0^0 is 1.
pub fn pow_turns(field: u32, a: u32, e: u32) -> Powered<u32>
    ensures value_value { result.value ≡ power (field_of field) a e }
    ensures turns_value { result.turns ≡ binary_digits e }
{
    arithmetic::pow_turns(Prime { field: field }, a, e)
}

// The power a^e; 0^0 is 1.
pub fn pow(field: u32, a: u32, e: u32) -> u32
    ensures { result ≡ power (field_of field) a e }
{
    let p = pow_turns(field, a, e);
    p.value
}

// The power a^(p - 2), which is the inverse where a is not 0, by Euclid's division: p is divided by a, and then each divisor by the remainder.
// Modulo p, `before` is s times a and `rest` is t times a. For field 2 that takes little more than half the time of the power. The last
// remainder is 1 unless p divides a; the power stands behind it, so that this need not be shown.
fn by_euclid(field: u32, a: u32) -> u32
    ensures { result ≡ power (field_of field) a (prime_of field - 2) }
{
    let p = modulus(field);
    let mut before = p;
    let mut rest = a;
    let mut s: u32 = 0;
    let mut t: u32 = 1;
    while 1 < rest {
        let q = before / rest;
        let next = before % rest;
        let u = add_product(field, s, q, p - t);
        before = rest;
        rest = next;
        s = t;
        t = u;
    }
    if rest == 1 {
        return t;
    }
    pow(field, a, p - 2)
}

// The inverse, by Euclid's division; 0 alone has none.
pub fn inv(field: u32, a: u32) -> Option<u32>
    ensures { inversion_of result ≡ (field_of field).inverse a }
{
    let x = reduce(field, a as u64);
    if x == 0 {
        return None;
    }
    Some(by_euclid(field, a))
}

impl Inversion for Prime {
    fn inv(self, x: u32) -> Option<u32> {
        inv(self.field, x)
    }

    ghost reduced = { λ s x. reduced_by_one s.field x };
}

// The element x, or none where the number names no field.
fn answer(field: u32, x: u32) -> Option<u32>
    ensures { element_of result ≡ in_field field x }
{
    if field < 3 { Some(x) } else { None }
}

// The sum of two words, each taken modulo the prime.
pub fn sum(field: u32, a: u32, b: u32) -> Option<u32>
    ensures { element_of result ≡ sum field a b }
{
    answer(field, add(field, a, b))
}

// The difference of two words, each taken modulo the prime.
pub fn difference(field: u32, a: u32, b: u32) -> Option<u32>
    ensures { element_of result ≡ difference field a b }
{
    answer(field, sub(field, a, b))
}

// The product of two words, each taken modulo the prime.
pub fn product(field: u32, a: u32, b: u32) -> Option<u32>
    ensures { element_of result ≡ product field a b }
{
    answer(field, mul(field, a, b))
}

// The power of a word taken modulo the prime; the exponent is any word as it is.
pub fn power(field: u32, a: u32, exponent: u32) -> Option<u32>
    ensures { element_of result ≡ power_of field a exponent }
{
    answer(field, pow(field, a, exponent))
}

// The power of a word taken modulo the prime, and the turns that it took, as many as the exponent has binary digits; none where the number names no field.
pub fn power_turns(field: u32, a: u32, exponent: u32) -> Option<Powered<u32>>
    ensures { powered_of result ≡ power_turns_of field a exponent }
{
    if 2 < field {
        None
    } else {
        let powered = pow_turns(field, a, exponent);
        Some(powered)
    }
}

// Why there is no inverse: the word is 0 modulo the prime, or the number names no field.
#[derive(Clone, Copy, PartialEq, Eq)]
pub enum NoInverse {
    Zero,
    NoField,
}

// The inverse of a word taken modulo the prime.
pub fn inverse(field: u32, a: u32) -> Result<u32, NoInverse>
    ensures { inverted_of result ≡ inverse_of field a }
{
    if 3 <= field {
        return Err(NoInverse::NoField);
    }
    inv(field, a).ok_or(NoInverse::Zero)
}
