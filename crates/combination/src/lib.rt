// The combination of a batch by one coin r: of the values of its tables at the points of domain 0, and of the coefficients of its polynomials. Both go from
// the last part to the first: what is there is multiplied by r^(1+e), and the part is added, times 1 + rX + .. + (rX)^e, where e is d less the part's bound.
#![tactic(auto)]

ghost use Rattle.std.specs.Prelude.{◌≡◌, map, suc, ◌+◌, ◌*◌, ◌≤◌, ◌<◌, length, get_or};
ghost use Rattle.definition.specs.Field.{Field, number_in, power, spelling_of};
ghost use Rattle.definition.specs.Lists.{chunks, range};
ghost use Rattle.definition.specs.Polynomial.{evaluate, geometric};
ghost use Rattle.batch_definition.specs.Batch.{combine_at, combine_poly, cut_by};
ghost use Rattle.spelling.specs.ByField.{ElementOf, field_at, elements_at};
ghost use Rattle.elements.specs.Meaning.{value_at};
ghost use Rattle.combination.specs.Added.{AddedAt, entry_at, product_at, factored_at, multiplied_at};
ghost use Rattle.combination.specs.Asked.{Bounded, Parted, Tabled, TablesFit};

use quartic::{Four, FourWords};

// The power x^e.
fn power(field: u32, x: Four, e: usize) -> Four
    requires { e ≤ 65536 }
    ensures { value_at field result ≡ power (field_at field) (value_at field x) e }
{
    if field == 3 {
        let powered = arithmetic::pow_turns(FourWords, x, e as u32);
        return powered.value;
    }
    elements::number(field::pow(field, x.a, e as u32))
}

// 1 + rX + .. + (rX)^e, and zeros behind it.
fn factor(field: u32, r: Four, e: usize, list: &mut [u32])
    requires { (e < length (elements_at field list.old)) × (e < 65536) }
    ensures { (x : ElementOf field) → evaluate (field_at field) (elements_at field list.new) x ≡ evaluate (field_at field) (geometric (field_at field) (value_at field r) e) x }
{
    let n = elements::words(field, e + 1);
    differences::fill(0, list);
    element_sums::powers(field, r, &mut list[..n]);
}

// Each entry of out becomes s times itself, and the product of the entries of a and b in its place is added.
fn add_products(field: u32, s: Four, a: &[u32], b: &[u32], out: &mut [u32])
    requires { (length (elements_at field out.old) ≤ length (elements_at field a.now)) × (length (elements_at field out.old) ≤ length (elements_at field b.now)) }
    ensures { AddedAt field (product_at field a.now b.now) (value_at field s) out.old out.new }
{
    let n = elements::count(field, out);
    for j in 0..n {
        let product = elements::mul(
            field,
            elements::get(field, a, j),
            elements::get(field, b, j),
        );
        let before = elements::mul(field, s, elements::get(field, out, j));
        elements::put(field, out, j, elements::add(field, product, before));
    }
}

// One table more in the combined values: each becomes r^(1+e) times itself, and the table's entry, times the value of 1 + rX + .. + (rX)^e at the point, is
// added.
fn add_table(
    field: u32,
    r: Four,
    e: usize,
    pw: &[u32],
    table: &[u32],
    list: &mut [u32],
    multipliers: &mut [u32],
    out: &mut [u32],
)
    requires tabled { Tabled field (length (elements_at field list.old)) pw.now list.old multipliers.old out.old }
    requires e_in_bounds { (e < length (elements_at field list.old)) × (length (elements_at field table.now) ≡ length pw.now) }
    ensures { AddedAt field (factored_at field (value_at field r) e pw.now table.now) (power (field_at field) (value_at field r) (suc e)) out.old out.new }
{
    factor(field, r, e, list);
    plane_tables::domain_table(field, list, pw, 1, multipliers);
    add_products(field, power(field, r, e + 1), table, multipliers, out);
}

// The combined values of tables, one for each bound, over domain 0, whose points stand in pw. The caller lends places for d coefficients and for one table.
pub fn values(
    field: u32,
    d: usize,
    r: Four,
    bounds: &[u32],
    pw: &[u32],
    tables: &[u32],
    list: &mut [u32],
    multipliers: &mut [u32],
    out: &mut [u32],
)
    requires bounded { (Bounded d bounds.now) × (TablesFit field bounds.now pw.now tables.now) }
    requires tabled { Tabled field d pw.now list.old multipliers.old out.old }
    ensures { elements_at field out.new ≡ map (λ j. combine_at (field_at field) d 0 (value_at field r) (number_in (spelling_of field) (get_or pw.now j 0)) bounds.now (map (λ t. get_or t j (field_at field).𝟘) (chunks (length bounds.now) (length (elements_at field out.old)) (elements_at field tables.now)))) (range 0 (length (elements_at field out.old))) }
{
    let n = pw.len();
    differences::fill(0, out);
    for m in (0..bounds.len()).rev() {
        let e = d - bounds[m] as usize;
        let table = elements::part(field, tables, n * m, n);
        add_table(field, r, e, pw, table, list, multipliers, out);
    }
}

// Each coefficient of out becomes s times itself, and that of f in its place is added.
fn add_polynomial(field: u32, s: Four, f: &[u32], out: &mut [u32])
    requires { length (elements_at field out.old) ≤ length (elements_at field f.now) }
    ensures { AddedAt field (entry_at field f.now) (value_at field s) out.old out.new }
{
    let n = elements::count(field, out);
    for j in 0..n {
        let before = elements::mul(field, s, elements::get(field, out, j));
        elements::put(
            field,
            out,
            j,
            elements::add(field, elements::get(field, f, j), before),
        );
    }
}

// One part more in the combined polynomial: it becomes r^(1+e) times itself, and the part f, times 1 + rX + .. + (rX)^e, is added.
fn add_part(field: u32, r: Four, e: usize, f: &[u32], scratch: &mut [u32], out: &mut [u32])
    requires nonzero { (0 < length (elements_at field f.now)) × ((length (elements_at field scratch.old) ≡ length (elements_at field f.now) + e) × (e < 65536)) }
    requires out_len { length (elements_at field out.old) ≡ length (elements_at field scratch.old) }
    ensures { AddedAt field (multiplied_at field (value_at field r) e f.now) (power (field_at field) (value_at field r) (suc e)) out.old out.new }
{
    correction::multiplied(field, r, e, f, scratch);
    add_polynomial(field, power(field, r, e + 1), scratch, out);
}

// The combined polynomial, with d coefficients, of parts whose coefficients stand in f one part after the other, as many of each as its bound says. The
// caller lends places for d coefficients.
pub fn polynomial(
    field: u32,
    d: usize,
    r: Four,
    bounds: &[u32],
    f: &[u32],
    scratch: &mut [u32],
    out: &mut [u32],
)
    requires { Parted field d bounds.now f.now scratch.old out.old }
    ensures { elements_at field out.new ≡ combine_poly (field_at field) d 0 (value_at field r) (cut_by bounds.now (elements_at field f.now)) }
{
    differences::fill(0, out);
    let mut at = elements::count(field, f);
    for m in (0..bounds.len()).rev() {
        let count = bounds[m] as usize;
        at -= count;
        add_part(
            field,
            r,
            d - count,
            elements::part(field, f, at, count),
            scratch,
            out,
        );
    }
}
