// The quotient of a polynomial by X - a over many points at once: each of its coefficients is one sum of products. Let w be the coefficients of the product of
// 1 - aX over the points. The sum of w times the quotient's coefficients from number j on is the dividend's coefficient of as much higher number as there
// are points; and w begins with 1.
#![tactic(auto)]

ghost use Rattle.std.specs.Prelude.{◌≡◌, List, [], ◌∷◌, ℕ, ◌+◌, ◌-◌, ◌≤◌, ◌<◌, length, take, drop, get_or};
ghost use Rattle.definition.specs.Field.{Field, field_of};
ghost use Rattle.definition.specs.Polynomial.{quotient};
ghost use Rattle.algebra.specs.PrimeField.{laws};
ghost use Rattle.list_laws.specs.Filled.{Filled};
ghost use Rattle.sums.specs.Sums.{products};
ghost use Rattle.division.specs.LongDivision.{Dividing, Divides};

// 1 + dX times.
fn raise(field: u32, d: u32, w: &mut [u32])
    ensures { Filled (λ m. (field_of field).◌⊕◌ (get_or w.old m 0) ((field_of field).◌⊗◌ d (get_or (0 ∷ w.old) m 0))) w.old w.new (length w.old) }
{
    let mut below: u32 = 0;
    for w_i in w.iter_mut() {
        let c = *w_i;
        *w_i = field::add_product(field, c, d, below);
        below = c;
    }
}

// 1 - aX times for each point, from the last to the first.
fn raise_each(field: u32, xs: &[u32], w: &mut [u32])
    requires room { length xs.now < length w.old }
    requires dividing { Dividing (field_of field) (laws field) [] w.old }
    ensures { Dividing (field_of field) (laws field) xs.now w.new }
{
    for i in (0..xs.len()).rev() {
        let d = field::sub(field, 0, xs[i]);
        raise(field, d, &mut w[..xs.len() - i + 1]);
    }
}

// The coefficients of the product of 1 - aX over the points, and zeros behind them. The powers of 0 are 1 and then zeros.
fn factors(field: u32, xs: &[u32], w: &mut [u32])
    requires { length xs.now < length w.old }
    ensures { Dividing (field_of field) (laws field) xs.now w.new }
{
    sums::powers(field, 0, w);
    raise_each(field, xs, w);
}

// The sum of w times the coefficients, as far as either goes.
fn behind(field: u32, w: &[u32], f: &[u32]) -> u32
    requires { length w.now ≤ 66 }
    ensures { result ≡ products (field_of field) f.now w.now }
{
    sums::sum(field, &f[..f.len().min(w.len())], w)
}

// The quotient by as many points as w has words, in place, from the last coefficient to the first: it stands where the dividend's coefficients stood.
fn by_sums(field: u32, w: &[u32], f: &mut [u32])
    requires { (length w.now ≤ length f.old) × (length w.now ≤ 66) }
    ensures { (xs : List ℕ) → Divides (field_of field) (laws field) xs w.now → drop (length w.now) f.new ≡ quotient (field_of field) f.old xs }
{
    for i in (w.len()..f.len()).rev() {
        let s = behind(field, w, &f[i + 1..]);
        f[i] = field::sub(field, f[i], s);
    }
}

// All words from number e on, e places down.
fn move_down(f: &mut [u32], e: usize)
    requires { e ≤ length f.old }
    ensures { take (length f.old - e) f.new ≡ drop e f.old }
{
    for i in 0..f.len() - e {
        f[i] = f[e + i];
    }
}

// The quotient of the polynomial in the first `count` coefficients by the product of X - a over the points from number `from` on, in place.
pub fn divide_all(field: u32, xs: &[u32], from: usize, f: &mut [u32], count: usize)
    requires from_in_bounds { (from ≤ length xs.now) × ((length xs.now - from ≤ count) × (count ≤ length f.old)) }
    requires from_nonzero { (0 < length xs.now - from) × (length xs.now - from < 66) }
    ensures { take (count - (length xs.now - from)) f.new ≡ quotient (field_of field) (take count f.old) (drop from xs.now) }
{
    let e = xs.len() - from;
    let mut w = [0u32; lists::PLACES];
    factors(field, &xs[from..], &mut w);
    by_sums(field, &w[1..e + 1], &mut f[..count]);
    move_down(&mut f[..count], e);
}
