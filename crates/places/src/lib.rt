// How many different ones there are among some indices of a level. A few are compared in pairs; more are marked, in one pass over the indices.
#![tactic(auto)]

ghost use Rattle.std.specs.Prelude.{◌≡◌, ◌≤◌, ◌<◌, eqb, length, get_or, drop, replicate, set};
ghost use Rattle.list_laws.specs.All.{All};
ghost use Rattle.definition.specs.Lists.{different, member};
ghost use Rattle.places.specs.Marks.{is_mark};

// Is x among the words from number `from` on?
pub fn found(xs: &[u32], from: usize, x: u32) -> bool
    requires { from ≤ length xs.now }
    ensures { result ≡ member eqb x (drop from xs.now) }
{
    xs[from..].contains(&x)
}

// As many indices are compared in pairs.
const FEW: usize = 8;

// The number of different ones, each compared with those after it: for a few indices this takes less time than clearing the marks.
fn count_few(js: &[u32]) -> usize
    ensures { result ≡ length (different eqb js.now) }
{
    let mut count = 0;
    for i in (0..js.len()).rev() {
        if !found(js, i + 1, js[i]) {
            count += 1;
        }
    }
    count
}

// The indices that a level may have: each has a mark.
const INDICES: usize = 2048;

// Marks an index. Was it marked before?
fn mark(marks: &mut [u8], j: usize) -> bool
    requires { j < length marks.old }
    ensures marks_after { marks.new ≡ set marks.old j 1 }
    ensures value { result ≡ is_mark (get_or marks.old j 0) }
{
    let was = marks[j];
    marks[j] = 1;
    was != 0
}

// The number of different ones, from the last on, by the marks lent, of which none is set.
fn count_by(js: &[u32], marks: &mut [u8]) -> usize
    requires all { All (λ j. j < INDICES) js.now }
    requires marks_value { marks.old ≡ replicate INDICES 0 }
    ensures { result ≡ length (different eqb js.now) }
{
    let mut count = 0;
    for j in js.iter().rev() {
        if !mark(marks, *j as usize) {
            count += 1;
        }
    }
    count
}

// The number of different ones, by marks.
fn count_many(js: &[u32]) -> usize
    requires { All (λ j. j < INDICES) js.now }
    ensures { result ≡ length (different eqb js.now) }
{
    let mut marks = [0u8; INDICES];
    count_by(js, &mut marks)
}

// The number of different ones among indices below 2,048.
pub fn count(js: &[u32]) -> usize
    requires { All (λ j. j < 2048) js.now }
    ensures { result ≡ length (different eqb js.now) }
{
    if js.len() <= FEW {
        count_few(js)
    } else {
        count_many(js)
    }
}
