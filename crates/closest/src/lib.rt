// Where a polynomial differs from a table, and the report of it: the coefficients, the count and the numbers, if the points are few enough. In either spelling.
#![tactic(auto)]

ghost use Rattle.std.specs.Prelude.{◌≡◌, ◌∷◌, ◌++◌, ◌+◌, ◌-◌, ◌/◌, ◌≤◌, ◌<◌, length, get_or, drop};
ghost use Rattle.definition.specs.Field.{Field};
ghost use Rattle.outcome.specs.Meaning.{answer_of};
ghost use Rattle.spelling.specs.ByField.{field_at, elements_at, words_at};
ghost use Rattle.tables.specs.Halving.{Halves};
ghost use Rattle.closest.specs.Report.{unlike_at, Concluded};

use outcome::Answer;

// Is element i of two lists of words the same?
fn alike(field: u32, xs: &[u32], ys: &[u32], i: usize) -> bool
    requires { (i < length (elements_at field xs.now)) × (i < length (elements_at field ys.now)) }
    ensures { result ≡ (field_at field).equal (get_or (elements_at field xs.now) i (field_at field).𝟘) (get_or (elements_at field ys.now) i (field_at field).𝟘) }
{
    let x = elements::get(field, xs, i);
    let y = elements::get(field, ys, i);
    elements::same(field, x, y)
}

// In how many places do the elements of two lists differ?
fn differ(field: u32, xs: &[u32], ys: &[u32]) -> usize
    requires { length (elements_at field xs.now) ≡ length (elements_at field ys.now) }
    ensures { result ≡ length (unlike_at field xs.now ys.now) }
{
    let n = elements::count(field, xs);
    let mut count: usize = 0;
    for i in (0..n).rev() {
        if !alike(field, xs, ys, i) {
            count += 1;
        }
    }
    count
}

// The numbers of the places where they differ, in rising order, at the front of out.
fn numbers(field: u32, xs: &[u32], ys: &[u32], out: &mut [u32])
    requires xs_len { (length (elements_at field xs.now) ≡ length (elements_at field ys.now)) × (length (elements_at field xs.now) ≤ 4096) }
    requires ys_in_bounds { length (unlike_at field xs.now ys.now) ≤ length out.old }
    ensures { out.new ≡ unlike_at field xs.now ys.now ++ drop (length (unlike_at field xs.now ys.now)) out.old }
{
    let n = elements::count(field, xs);
    let mut place: usize = 0;
    for i in 0..n {
        if !alike(field, xs, ys, i) {
            out[place] = i as u32;
            place += 1;
        }
    }
}

// The coefficients f, the count of the places where two tables differ, and their numbers, at the front of the output. The answer is how many words they are.
fn report(
    field: u32,
    f: &[u32],
    values: &[u32],
    table: &[u32],
    count: usize,
    output: &mut [u32],
) -> usize
    requires values_len { (length (elements_at field values.now) ≡ length (elements_at field table.now)) × ((length (elements_at field values.now) ≤ 4096) × (length f.now ≤ 4096)) }
    requires count_value { (count ≡ length (unlike_at field values.now table.now)) × (length f.now + 1 + count ≤ length output.old) }
    ensures value { result ≡ length f.now + 1 + count }
    ensures output_after { output.new ≡ (f.now ++ (count ∷ unlike_at field values.now table.now)) ++ drop (length f.now + 1 + count) output.old }
{
    let d = f.len();
    honest_words::copy(f, &mut output[..d]);
    output[d] = count as u32;
    numbers(field, values, table, &mut output[d + 1..]);
    d + 1 + count
}

// What is answered of a polynomial f that may be near to the table: the report, or 19 if it differs in more than (n - d)/2 points. The table of f goes to `values`.
fn conclude_in(
    field: u32,
    pw: &[u32],
    table: &[u32],
    f: &[u32],
    values: &mut [u32],
    output: &mut [u32],
) -> Answer
    requires halves { (Halves (length (elements_at field f.now)) (length pw.now)) × (length f.now ≡ words_at field (length (elements_at field f.now))) }
    requires table_len { (length table.now ≡ words_at field (length pw.now)) × ((length values.old ≡ words_at field (length pw.now)) × (words_at field (length pw.now) ≤ 4096)) }
    requires f_in_bounds { length f.now + 1 + (length pw.now - length (elements_at field f.now)) / 2 ≤ length output.old }
    ensures { Concluded field pw.now table.now f.now output.old (answer_of result) output.new }
{
    plane_tables::domain_table(field, f, pw, 1, values);
    let count = differ(field, values, table);
    if (pw.len() - elements::count(field, f)) / 2 < count {
        return Answer::Refusal(19, 0);
    }
    Answer::Done(report(field, f, values, table, count, output))
}

// The same with places for the table of f. A small one is spared the clearing of many places. Two calls in a row are plainer than a function generic in the
// number of places, which would say this whole contract once more.
pub fn conclude(field: u32, pw: &[u32], table: &[u32], f: &[u32], output: &mut [u32]) -> Answer
    requires halves { (Halves (length (elements_at field f.now)) (length pw.now)) × (length f.now ≡ words_at field (length (elements_at field f.now))) }
    requires table_len { (length table.now ≡ words_at field (length pw.now)) × (words_at field (length pw.now) ≤ 4096) }
    requires f_in_bounds { length f.now + 1 + (length pw.now - length (elements_at field f.now)) / 2 ≤ length output.old }
    ensures { Concluded field pw.now table.now f.now output.old (answer_of result) output.new }
{
    let n = table.len();
    if n <= 256 {
        let mut few = [0u32; domain::FEW_POINTS];
        return conclude_in(field, pw, table, f, &mut few[..n], output);
    }
    let mut values = [0u32; domain::POINTS];
    conclude_in(field, pw, table, f, &mut values[..n], output)
}
