// A batch's own rules beside a sheet of edition 1, refusal 15; and the numbers that its tables and bounds give.
#![tactic(auto)]

ghost use Rattle.std.specs.Prelude.{◌≡◌, not, ◌&&◌, map, ◌*◌, ◌≤◌, min, leb, length};
ghost use Rattle.definition.specs.Field.{spelling_of, word_count};
ghost use Rattle.definition.specs.Lists.{first_true};
ghost use Rattle.definition.specs.Reading.{sheet_test};
ghost use Rattle.definition.specs.Sheet.{between, edition1, sheet_of};
ghost use Rattle.definition.specs.Verdict.{accepted};
ghost use Rattle.batch_definition.specs.Batch.{batch_rules, batch_test, most_entries, sum_of};
ghost use Rattle.batches.specs.Batched.{higher_by};
ghost use Rattle.outcome.specs.Meaning.{place_of};

// Is x one of 1, 2, .., most?
fn from_one(most: usize, x: usize) -> bool
    ensures { result ≡ between 1 most x }
{
    if x < 1 {
        return false;
    }
    x <= most
}

// The most entries of all tables together: 8,192 words of them.
fn most_entries(field: u32) -> usize
    ensures { result ≡ most_entries (spelling_of field) }
{
    if field == 3 {
        return 2048;
    }
    8192
}

// The number of tables: 1 to 8, not too many for n0. Only a number up to 8 is multiplied.
fn number_rule(w: &[u32], count: usize) -> bool
    requires { 12 ≤ length w.now }
    ensures { result ≡ (between 1 8 count && leb (count * (sheet_of edition1 w.now).size) (most_entries (sheet_of edition1 w.now).spelling)) }
{
    if !from_one(8, count) {
        return false;
    }
    count * w[1] as usize <= most_entries(w[0])
}

// The first rule of refusal 15 that is broken: the number of tables at place 0, then bound m at place m, m from 1. Bounds past the number are not looked at.
pub fn broken(w: &[u32], count: usize, bounds: &[u32]) -> Option<usize>
    requires { (12 ≤ length w.now) × (min count 8 ≤ length bounds.now) }
    ensures { place_of result ≡ first_true 0 (map not (batch_rules (sheet_of edition1 w.now) count bounds.now)) }
{
    if !number_rule(w, count) {
        return Some(0);
    }
    let most = w[2] as usize;
    for m in 0..count {
        if !from_one(most, bounds[m] as usize) {
            return Some(m + 1);
        }
    }
    None
}

// By how much word numbers are higher in a batch than in a plain stream, from fold coin 0 on: the number of tables, the bounds, the other tables and r.
pub fn shift(w: &[u32], count: usize) -> usize
    requires in_bounds { 12 ≤ length w.now }
    requires le_count { (1 ≤ count) × ((count ≤ 8) × (count * (sheet_of edition1 w.now).size ≤ most_entries (sheet_of edition1 w.now).spelling)) }
    ensures { (result ≡ higher_by (sheet_of edition1 w.now) count) × (result ≤ 7181) }
{
    let size = w[1] as usize;
    1 + count + widths::words(w[0], (count - 1) * size + 1)
}

// The sum of bounds, whatever they are.
pub fn sum(bounds: &[u32]) -> usize
    requires { length bounds.now ≤ 65536 }
    ensures { (result ≡ sum_of bounds.now) × (result ≤ 4294967295 * length bounds.now) }
{
    let mut sum = 0;
    for m in 0..bounds.len() {
        sum += bounds[m] as usize;
    }
    sum
}

// The number of words of the coefficients of all tables, as the bounds say.
pub fn coefficients_due(w: &[u32], bounds: &[u32]) -> usize
    requires in_bounds { (12 ≤ length w.now) × (sheet_test edition1 w.now ≡ accepted) }
    requires bounds_value { batch_test (sheet_of edition1 w.now) (length bounds.now) bounds.now ≡ accepted }
    ensures { (result ≡ word_count (sheet_of edition1 w.now).spelling (sum_of bounds.now)) × (result ≤ 4096) }
{
    let sum = sum(bounds);
    widths::words(w[0], sum)
}
