// The editions of a sheet: the number of its words, and where its folding numbers stand. All other words have one place in both.
#![tactic(auto)]

ghost use Rattle.std.specs.Prelude.{◌≡◌, ◌/◌, ◌≤◌, ◌<◌, length, get_or, take};
ghost use Rattle.definition.specs.Lists.{product_of};
ghost use Rattle.definition.specs.Sheet.{fold_places, fold_words, sheet_length};
ghost use Rattle.edition.specs.Meaning.{Positive, edition_of};

// Edition 1 has one folding number for all levels, edition 2 one for each.
#[derive(Clone, Copy)]
pub enum Edition {
    One,
    Two,
}

// The number of words of a sheet.
pub fn sheet_words(e: Edition) -> usize
    ensures { result ≡ sheet_length (edition_of e) }
{
    match e {
        Edition::One => 12,
        Edition::Two => 18,
    }
}

// The word that holds k_i.
fn place(e: Edition, i: usize) -> usize
    requires { i < 6 }
    ensures { (result < sheet_length (edition_of e)) × (result ≡ get_or (fold_places (edition_of e)) i 0) }
{
    if i == 0 {
        return 3;
    }
    match e {
        Edition::One => 3,
        Edition::Two => 11 + i,
    }
}

// k_i, the folding number of level i.
pub fn fold(e: Edition, w: &[u32], i: usize) -> usize
    requires { (sheet_length (edition_of e) ≤ length w.now) × (i < 6) }
    ensures { (result ≡ get_or (fold_words (edition_of e) w.now) i 0) × (result < 4294967296) }
{
    let at = place(e, i);
    w[at] as usize
}

// d_i: d0 divided by k_0, then by k_1, up to k_(i-1), none of which is 0.
pub fn degree(e: Edition, w: &[u32], i: usize) -> usize
    requires { (sheet_length (edition_of e) ≤ length w.now) × ((i ≤ 6) × (Positive (edition_of e) w.now i)) }
    ensures { result ≡ get_or w.now 2 0 / product_of (take i (fold_words (edition_of e) w.now)) }
{
    let mut d = w[2] as usize;
    for j in 0..i {
        let k = fold(e, w, j);
        d /= k;
    }
    d
}
