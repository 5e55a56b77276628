// A sheet of one edition laid anew as one of the other, over the places before a stream's body; and the level whose folding number has no place in edition 1.
#![tactic(auto)]

ghost use Rattle.std.specs.Prelude.{◌≡◌, ◌++◌, ◌≤◌, ◌<◌, length, get_or, take, drop};
ghost use Rattle.definition.specs.Convert.{folds_test, spread};
ghost use Rattle.definition.specs.Sheet.{edition2, sheet_of};
ghost use Rattle.definition.specs.Verdict.{refuse_at};
ghost use Rattle.outcome.specs.Meaning.{place_of};
ghost use Rattle.list_laws.specs.Overwriting.{overwrite};
ghost use Rattle.sheet_change.specs.Laid.{later_folds};

use edition::Edition;

// Word 12 + j of edition 2, for j below 5, from words 4 and 3 of edition 1: k up to k_M, then zero.
fn later_fold(rounds: u32, k: u32, j: usize) -> u32
    requires { j < 5 }
    ensures { result ≡ get_or (later_folds rounds k) j 0 }
{
    if j < rounds as usize { k } else { 0 }
}

// Writes words 12 to 16 of edition 2, where words 0 to 11 are those of edition 1.
fn put_later_folds(words: &mut [u32])
    requires { 18 ≤ length words.old }
    ensures { words.new ≡ overwrite words.old 12 (later_folds (get_or words.old 4 0) (get_or words.old 3 0)) }
{
    let rounds = words[4];
    let k = words[3];
    for j in 0..5 {
        words[12 + j] = later_fold(rounds, k, j);
    }
}

// Lays a sheet of edition 2 over places 0 to 17, of which 6 to 17 hold one of edition 1.
pub fn spread_sheet(words: &mut [u32])
    requires { 18 ≤ length words.old }
    ensures { words.new ≡ spread (drop 6 words.old) ++ drop 18 words.old }
{
    words.copy_within(6..18, 0);
    put_later_folds(words);
    words[17] = 2;
}

// Lays the first 12 words of a sheet of edition 2 over places 6 to 17.
pub fn cut_sheet(words: &mut [u32])
    requires { 18 ≤ length words.old }
    ensures { drop 6 words.new ≡ take 12 words.old ++ drop 18 words.old }
{
    words.copy_within(6..12, 12);
    words.copy_within(0..6, 6);
}

// The first level of a sheet of edition 2 whose folding number is not k_0.
pub fn other_fold(w: &[u32]) -> Option<usize>
    requires { (18 ≤ length w.now) × (get_or w.now 4 0 ≤ 5) }
    ensures { refuse_at 13 (place_of result) ≡ folds_test (sheet_of edition2 w.now) }
{
    let first = edition::fold(Edition::Two, w, 0);
    let rounds = w[4] as usize;
    for i in 1..rounds + 1 {
        if edition::fold(Edition::Two, w, i) != first {
            return Some(i);
        }
    }
    None
}
