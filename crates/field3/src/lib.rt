// The public operations of field 3, whose elements are four words each, a first: of any words, each taken modulo p; an exponent is one word as it is. No function
// asks anything of its caller.
#![tactic(auto)]

ghost use Rattle.std.specs.Prelude.{◌≡◌};
ghost use Rattle.definition.specs.Field.{sum3, difference3, product3, power3, power_turns3, inverse3, reduced};
ghost use Rattle.quartic.specs.Meaning.{quad_of, inverse_four};
ghost use Rattle.field3.specs.Words.{quad_at, spelt};

use arithmetic::Powered;
use quartic::{Four, FourWords};

// The element of four words, and the words of an element.
fn element(w: [u32; 4]) -> Four
    ensures { quad_of result ≡ quad_at w }
{
    Four {
        a: w[0],
        b: w[1],
        c: w[2],
        d: w[3],
    }
}

fn words(x: Four) -> [u32; 4]
    ensures { result ≡ spelt (quad_of x) }
{
    [x.a, x.b, x.c, x.d]
}

// The sum. That each word is first taken modulo p need not be done: a sum's words are taken modulo p.
pub fn sum(x: [u32; 4], y: [u32; 4]) -> [u32; 4]
    ensures { result ≡ spelt (sum3 (quad_at x) (quad_at y)) }
{
    words(quartic::add(element(x), element(y)))
}

// The difference.
pub fn difference(x: [u32; 4], y: [u32; 4]) -> [u32; 4]
    ensures { result ≡ spelt (difference3 (quad_at x) (quad_at y)) }
{
    words(quartic::sub(element(x), element(y)))
}

// The product.
pub fn product(x: [u32; 4], y: [u32; 4]) -> [u32; 4]
    ensures { result ≡ spelt (product3 (quad_at x) (quad_at y)) }
{
    words(quartic::mul(element(x), element(y)))
}

// The power, and as many turns as the exponent has binary digits; 0^0 is 1.
pub fn power_turns(x: [u32; 4], exponent: u32) -> Powered<[u32; 4]>
    ensures power_value { result.value ≡ spelt (power_turns3 (quad_at x) exponent).power }
    ensures turns_value { result.turns ≡ (power_turns3 (quad_at x) exponent).turns }
{
    let p = arithmetic::pow_turns(FourWords, element(x), exponent);
    Powered {
        value: words(p.value),
        turns: p.turns,
    }
}

// The power alone.
pub fn power(x: [u32; 4], exponent: u32) -> [u32; 4]
    ensures { result ≡ spelt (power3 (quad_at x) exponent) }
{
    let p = power_turns(x, exponent);
    p.value
}

// Each word taken modulo p.
fn reduce(x: Four) -> Four
    ensures { quad_of result ≡ reduced (quad_of x) }
{
    Four {
        a: field::reduce(2, x.a as u64),
        b: field::reduce(2, x.b as u64),
        c: field::reduce(2, x.c as u64),
        d: field::reduce(2, x.d as u64),
    }
}

// The inverse, or that there is none, which is so exactly where all four words are multiples of p.
pub fn inverse(x: [u32; 4]) -> Option<Four>
    ensures { inverse_four result ≡ inverse3 (quad_at x) }
{
    quartic::inv(reduce(element(x)))
}
