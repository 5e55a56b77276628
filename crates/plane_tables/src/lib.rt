// The table of a polynomial over points of the prime field, in either spelling. Of four words it goes plane by plane: the code for one word makes each.
#![tactic(auto)]

ghost use Rattle.std.specs.Prelude.{◌≡◌, ℕ, ◌+◌, ◌*◌, ◌≤◌, ◌<◌, length, get_or};
ghost use Rattle.definition.specs.Field.{quads};
ghost use Rattle.tables.specs.Halving.{Halves, Spaced};
ghost use Rattle.plane_tables.specs.FourTable.{FourTable, TableAt, DomainTableAt};
ghost use Rattle.spelling.specs.ByField.{elements_at, words_at};

// Word number c of each element of out becomes the value in its place.
fn put_plane(values: &[u32], c: usize, out: &mut [u32])
    requires { (c < 4) × (length out.old ≡ 4 * length values.now) }
    ensures by_index { (k : ℕ) → k < length values.now → get_or out.new (4 * k + c) 0 ≡ get_or values.now k 0 }
    ensures by_index_2 { (e k : ℕ) → e < c → get_or out.new (4 * k + e) 0 ≡ get_or out.old (4 * k + e) 0 }
{
    for (j, value) in values.iter().enumerate() {
        out[4 * j + c] = *value;
    }
}

// The table, by way of a plane lent.
pub fn by_planes(f: &[u32], pw: &[u32], at: usize, step: usize, plane: &mut [u32], out: &mut [u32])
    requires halves { Halves (length (quads f.now)) (length plane.old) × Spaced at step (length plane.old) (length pw.now) }
    requires out_len { length out.old ≡ 4 * length plane.old }
    ensures { FourTable f.now pw.now at step (length plane.old) out.new }
{
    let n = quartic::count(f);
    for c in 0..4 {
        tables::table(2, f, c, 4, n, pw, at, step, plane);
        put_plane(plane, c, out);
    }
}

// The table of at most POINTS entries, of four words each, by way of a plane of its own.
fn by_own_plane<const POINTS: usize>(f: &[u32], pw: &[u32], at: usize, step: usize, out: &mut [u32])
    requires halves { Halves (length (quads f.now)) (length (quads out.old)) × Spaced at step (length (quads out.old)) (length pw.now) }
    requires out_len { (length out.old ≡ 4 * length (quads out.old)) × ((length (quads out.old) ≤ POINTS) × (POINTS ≤ 1024)) }
    ensures { FourTable f.now pw.now at step (length (quads out.old)) out.new }
{
    let mut plane = [0u32; POINTS];
    let n = quartic::count(out);
    by_planes(f, pw, at, step, &mut plane[..n], out);
}

// The table of f over the domain whose points stand at every scale-th place of pw, the table of the powers of ω.
pub fn domain_table(field: u32, f: &[u32], pw: &[u32], scale: usize, out: &mut [u32])
    requires halves { Halves (length (elements_at field f.now)) (length (elements_at field out.old)) }
    requires scale_nonzero { (0 < scale) × (scale * length (elements_at field out.old) ≡ length pw.now) }
    requires out_len { (length out.old ≡ words_at field (length (elements_at field out.old))) × (length out.old ≤ 4096) }
    ensures { DomainTableAt field f.now pw.now scale (length (elements_at field out.old)) out.new }
{
    if field == 3 {
        let at = 0;
        by_own_plane::<1024>(f, pw, at, scale, out);
    } else {
        tables::on_domain(field, f, pw, scale, out);
    }
}

// The table of f over as many points as it has coefficients, which stand in pw from place `at` on, step places apart, once round it: the roots of one point.
pub fn roots_table(field: u32, f: &[u32], pw: &[u32], at: usize, step: usize, out: &mut [u32])
    requires halves { Halves (length (elements_at field f.now)) (length (elements_at field out.old)) × Spaced at step (length (elements_at field out.old)) (length pw.now) }
    requires out_len { (length out.old ≡ words_at field (length (elements_at field out.old))) × (length (elements_at field out.old) ≤ 16) }
    ensures { TableAt field f.now pw.now at step (length (elements_at field out.old)) out.new }
{
    if field == 3 {
        by_own_plane::<16>(f, pw, at, step, out);
    } else {
        tables::on_roots(field, f, pw, at, step, out);
    }
}
