// The sheet of a run of the load, which is of edition 1, drawn word by word among the values that its rules permit.
#![tactic(auto)]

ghost use Rattle.std.specs.Prelude.{◌≡◌, ◌≤◌, ◌<◌, length, get_or, take, set};
ghost use Rattle.layouts.specs.PlainRules.{Kept};
ghost use Rattle.definition.specs.Load.{candidates, permits as permits_in, permitted as permitted_in, worked_sheet, draw_sheet};

use edition::Edition;
use generator::Generator;

// 0 to 48, then 64, 128, .., 4096: no rule of a sheet word permits another value.
fn candidate(i: u32) -> u32
    requires { i < 56 }
    ensures { result ≡ get_or candidates i 0 }
{
    if i < 49 { i } else { 64 << (i - 49) }
}

// Puts x into word j; the answer is whether the word's rule permits it. The words before keep their rules, and no rule looks at a later word: so the rule of word
// j fails exactly where word j is the first that is broken. The field is one of 0, 1 and 2.
fn permits(w: &mut [u32], j: usize, x: u32) -> bool
    requires { (length w.old ≡ 12) × ((j < 12) × (Kept (take j w.old))) }
    ensures value { result ≡ permits_in (take j w.old) x }
    ensures w_after { w.new ≡ set w.old j x }
{
    w[j] = x;
    if j == 0 {
        return x < 3;
    }
    let broken = sheet::broken(Edition::One, w);
    if let Some(place) = broken {
        return place != j;
    }
    true
}

// The values that the rule of word j permits, given the words before it, lowest first; answers their number. Word j is written over.
fn permitted(w: &mut [u32], j: usize, values: &mut [u32]) -> usize
    requires w_len { (length w.old ≡ 12) × ((j < 12) × (Kept (take j w.old))) }
    requires values_len { length values.old ≡ 56 }
    ensures values_after { take result values.new ≡ permitted_in (take j w.old) }
    ensures upper_bound { (result ≤ 56) × (take j w.new ≡ take j w.old) }
{
    let mut n = 0;
    for i in 0..56u32 {
        let x = candidate(i);
        if permits(w, j, x) {
            values[n] = x;
            n += 1;
        }
    }
    n
}

// The sheet of the transcript by hand.
fn worked(w: &mut [u32])
    requires { length w.old ≡ 12 }
    ensures { w.new ≡ worked_sheet }
{
    w.copy_from_slice(&[0, 16, 8, 2, 1, 1, 1, 1, 0, 0, 0, 0]);
}

// Places for the values that a rule permits.
const VALUES: usize = 56;

// Draws a sheet, one step for each word; answers the generator as it then is. Where a word has no value left, it takes no step, the worked sheet is used and no
// later word is drawn.
pub fn draw(generator: Generator, w: &mut [u32]) -> Generator
    requires { length w.old ≡ 12 }
    ensures { record { value = w.new; next = result.v } ≡ draw_sheet generator.v }
{
    let mut values = [0u32; VALUES];
    let mut generator = generator;
    for j in 0..12 {
        let count = permitted(w, j, &mut values);
        if count == 0 {
            worked(w);
            return generator;
        }
        let d = generator.below(count as u32);
        w[j] = values[d.value as usize];
        generator = d.next;
    }
    generator
}
