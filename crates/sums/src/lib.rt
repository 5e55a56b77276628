// Sums of products, with one remainder at the end, and the powers that make of such sums the values of a polynomial at a point, or at the k roots of one.
#![tactic(auto)]

ghost use Rattle.std.specs.Prelude.{◌≡◌, ℕ, ◌+◌, ◌-◌, ◌*◌, ◌/◌, ◌%◌, ◌≤◌, ◌<◌, length, get_or};
ghost use Rattle.definition.specs.Field.{prime_of, field_of, power};
ghost use Rattle.definition.specs.Polynomial.{geometric};
ghost use Rattle.domain.specs.Powers.{Powers};
ghost use Rattle.sums.specs.AtRoots.{every_nth};
ghost use Rattle.sums.specs.Sums.{products, PowersTo};

// The remainder of high·2^32 + low.
fn whole(field: u32, high: u64, low: u64) -> u32
    requires { low ≤ 281474976710656 }
    ensures { result ≡ (high * 4294967296 + low) % prime_of field }
{
    let h = field::reduce(field, high);
    let unit = field::reduce(field, 4294967296);
    field::reduce(field, h as u64 * unit as u64 + low)
}

// The high and the low half of the product of two words.
fn high_half(a: u32, b: u32) -> u64
    ensures { (result ≡ a * b / 4294967296) × (result < 4294967296) }
{
    a as u64 * b as u64 / 4294967296
}

fn low_half(a: u32, b: u32) -> u64
    ensures { (result ≡ a * b % 4294967296) × (result < 4294967296) }
{
    a as u64 * b as u64 % 4294967296
}

// The sum of the products of a and b, as far as a goes. The high and the low halves of the products are summed apart, so that no word need be below p.
pub fn sum(field: u32, a: &[u32], b: &[u32]) -> u32
    requires { (length a.now ≤ length b.now) × (length a.now ≤ 65536) }
    ensures { result ≡ products (field_of field) a.now b.now }
{
    let mut high: u64 = 0;
    let mut low: u64 = 0;
    for i in (0..a.len()).rev() {
        high += high_half(a[i], b[i]);
        low += low_half(a[i], b[i]);
    }
    whole(field, high, low)
}

// Word number i of every stride-th from number `from` on.
pub fn every(f: &[u32], from: usize, stride: usize, i: usize) -> u32
    requires { from + stride * i < length f.now }
    ensures { result ≡ get_or f.now (from + stride * i) 0 }
{
    f[from + stride * i]
}

// The same over every stride-th word of f from number `from` on, as far as b goes: with the powers of y a residue of f.
fn sum_every(field: u32, f: &[u32], from: usize, stride: usize, b: &[u32]) -> u32
    requires { (from < stride) × ((stride * length b.now ≤ length f.now) × (length b.now ≤ 65536)) }
    ensures { result ≡ products (field_of field) (every_nth (field_of field) f.now from stride (length b.now)) b.now }
{
    let mut high: u64 = 0;
    let mut low: u64 = 0;
    for i in (0..b.len()).rev() {
        let x = every(f, from, stride, i);
        high += high_half(x, b[i]);
        low += low_half(x, b[i]);
    }
    whole(field, high, low)
}

// The powers of x from the third on, where the first two are there: each from two of about half its exponent, so that few of the products wait for one
// another.
fn later_powers(field: u32, x: u32, out: &mut [u32])
    requires { (2 ≤ length out.old) × PowersTo field x out.old 2 }
    ensures { out.new ≡ geometric (field_of field) x (length out.old - 1) }
{
    for i in 2..out.len() {
        out[i] = field::mul(field, out[i / 2], out[i - i / 2]);
    }
}

// The powers of x, from 1 on.
pub fn powers(field: u32, x: u32, out: &mut [u32])
    requires { 0 < length out.old }
    ensures { out.new ≡ geometric (field_of field) x (length out.old - 1) }
{
    out[0] = 1;
    if 1 < out.len() {
        out[1] = field::reduce(field, x as u64);
        later_powers(field, x, out);
    }
}

// s places on, where n places go round.
fn further(n: usize, place: usize, s: usize) -> usize
    requires { (place < n) × ((s ≤ n) × (n ≤ 4096)) }
    ensures { (result ≡ (place + s) % n) × (result < n) }
{
    let next = place + s;
    if next < n {
        return next;
    }
    next - n
}

// The powers of ω^s, from 1 on, where pw is the table of the powers of ω, which goes round: no product.
pub fn powers_in(pw: &[u32], s: usize, out: &mut [u32])
    requires { (0 < length pw.now) × ((length pw.now ≤ 4096) × ((s ≤ length pw.now) × (0 < length out.old))) }
    ensures { (field ω : ℕ) → Powers field ω pw.now → out.new ≡ geometric (field_of field) (power (field_of field) ω s) (length out.old - 1) }
{
    let mut place = pw.len() - 1;
    for x in out.iter_mut() {
        *x = pw[place];
        place = further(pw.len(), place, s);
    }
}

// The k residues of f at y, whose powers are given: word m of out is the sum over every k-th coefficient from number m on.
pub fn residues(field: u32, f: &[u32], powers: &[u32], out: &mut [u32])
    requires { (length out.old * length powers.now ≤ length f.now) × (length powers.now ≤ 65536) }
    ensures { (m : ℕ) → m < length out.old → get_or out.new m 0 ≡ products (field_of field) (every_nth (field_of field) f.now m (length out.old) (length powers.now)) powers.now }
{
    for m in 0..out.len() {
        out[m] = sum_every(field, f, m, out.len(), powers);
    }
}
