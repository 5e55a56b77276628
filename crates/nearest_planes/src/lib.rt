// The decoder's candidate for a table, in either spelling. Of four words it goes plane by plane: a polynomial over them is, at points of the first field, four polynomials over it, one for each
// word of an element; so the four candidates of the planes are the candidate, and where one plane has none there is none.
#![tactic(auto)]

ghost use Rattle.std.specs.Prelude.{◌≡◌, ℕ, ◌*◌, ◌≤◌, ◌<◌, length};
ghost use Rattle.definition.specs.Field.{spelling_of};
ghost use Rattle.candidate.specs.Tables.{Sized};
ghost use Rattle.spelling.specs.ByField.{words_at};
ghost use Rattle.nearest_planes.specs.InEither.{FoundIn};
ghost use Rattle.nearest_planes.specs.Planes.{plane, FourCandidates};

// Plane k of words, four to an element: word k of each.
fn cut(w: &[u32], k: usize, out: &mut [u32])
    requires { (k < 4) × ((length w.now ≡ 4 * length out.old) × (length w.now ≤ 4096)) }
    ensures { out.new ≡ plane k (length out.old) w.now }
{
    for (i, word) in out.iter_mut().enumerate() {
        *word = w[4 * i + k];
    }
}

// f becomes plane k of out, and the other planes stay.
fn put(f: &[u32], k: usize, out: &mut [u32])
    requires { (k < 4) × ((length out.old ≡ 4 * length f.now) × (length out.old ≤ 4096)) }
    ensures out_after { plane k (length f.now) out.new ≡ f.now }
    ensures by_index { (j : ℕ) → j < 4 → (j ≡ k → ⊥) → plane j (length f.now) out.new ≡ plane j (length f.now) out.old }
{
    for (i, word) in f.iter().enumerate() {
        out[4 * i + k] = *word;
    }
}

// The candidates of the four planes, each worked out in the places lent for a plane of the table and for one of the polynomial.
fn candidates_in(
    field: u32,
    pw: &[u32],
    table: &[u32],
    one: &mut [u32],
    part: &mut [u32],
    out: &mut [u32],
) -> bool
    requires { (Sized (length pw.now) (length part.old)) × ((length one.old ≡ length pw.now) × ((length table.now ≡ 4 * length pw.now) × ((length out.old ≡ 4 * length part.old) × (length table.now ≤ 4096)))) }
    ensures { FourCandidates field pw.now table.now (length part.old) out.new result }
{
    for k in 0..4 {
        cut(table, k, one);
        let found = candidate::candidate(field, pw, one, part);
        if !found {
            return false;
        }
        put(part, k, out);
    }
    true
}

// Places for a plane of the table, of at most 1,024 entries, and for one of the polynomial, of at most 512 coefficients.
const ENTRIES: usize = 1024;

const COEFFICIENTS: usize = 512;

// The candidate for a table of elements of four words, at most 1,024 of them.
fn candidates(field: u32, pw: &[u32], table: &[u32], d: usize, out: &mut [u32]) -> bool
    requires { (Sized (length pw.now) d) × ((length table.now ≡ 4 * length pw.now) × ((length out.old ≡ 4 * d) × ((length pw.now ≤ 1024) × (d ≤ 512)))) }
    ensures { FourCandidates field pw.now table.now d out.new result }
{
    let mut one = [0u32; ENTRIES];
    let mut part = [0u32; COEFFICIENTS];
    let n = pw.len();
    candidates_in(field, pw, table, &mut one[..n], &mut part[..d], out)
}

// The candidate for a table in either spelling, of d coefficients.
pub fn candidate(field: u32, pw: &[u32], table: &[u32], d: usize, out: &mut [u32]) -> bool
    requires sized { (Sized (length pw.now) d) × ((length table.now ≡ words_at field (length pw.now)) × (length out.old ≡ words_at field d)) }
    requires table_len_bound { (length table.now ≤ 4096) × (length out.old ≤ 2048) }
    ensures { FoundIn (spelling_of field) field pw.now table.now d result out.new }
{
    if field == 3 {
        return candidates(field, pw, table, d, out);
    }
    candidate::candidate(field, pw, table, out)
}
