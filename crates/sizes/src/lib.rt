// The sizes that an accepted sheet of either edition gives: the degree bounds level by level, and the number of words, blocks and coins due.
#![tactic(auto)]

ghost use Rattle.std.specs.Prelude.{◌≡◌, ◌+◌, ◌-◌, ◌^◌, ◌≤◌, ◌<◌, length, get_or};
ghost use Rattle.std.specs.Int.Count.{ones};
ghost use Rattle.definition.specs.Block.{block_count};
ghost use Rattle.definition.specs.Field.{spelling_of};
ghost use Rattle.definition.specs.Layout.{coin_kinds, layout, words_due};
ghost use Rattle.definition.specs.Reading.{sheet_test};
ghost use Rattle.definition.specs.Sheet.{sheet_length, sheet_of};
ghost use Rattle.definition.specs.Verdict.{accepted};
ghost use Rattle.edition.specs.Meaning.{edition_of};
ghost use Rattle.sizes.specs.Degrees.{DegreeAt, Folds};
ghost use Rattle.sizes.specs.Words.{round_word_count};

use edition::Edition;

// The logarithm of a power of two, read off its single one bit.
pub fn log2(x: u32) -> u32
    requires { ones x ≡ 1 }
    ensures { x ≡ 2 ^ result }
{
    u32::trailing_zeros(x)
}

// d_(i+1) from d_i, for i up to M: k_i is a power of two, so the bits of d_i move down. Past M there is none.
pub fn next_degree(e: Edition, w: &[u32], i: usize, d: u32) -> u32
    requires e_in_bounds { (sheet_length (edition_of e) ≤ length w.now) × (i < 6) }
    requires folds { (Folds (edition_of e) w.now (i + 1)) × (DegreeAt (edition_of e) w.now i d) }
    ensures { DegreeAt (edition_of e) w.now (i + 1) result }
{
    if (w[4] as usize) < i {
        return d;
    }
    d >> log2(edition::fold(e, w, i) as u32)
}

// The words of a round whose table has n entries, after a level with t repetitions: table, out coins, replies, combination coin, fold coin, shift indices.
#[tactic(auto, using(crate::proofs::SizeLaws::parts_small, crate::proofs::SizeLaws::round_joined))]
fn round_words(field: u32, n: usize, s: usize, t: usize) -> usize
    requires { round_word_count (spelling_of field) n s t ≤ 8509 }
    ensures { result ≡ round_word_count (spelling_of field) n s t }
{
    widths::words(field, n + 2 * s + 2) + t
}

// The logarithm of n0, read off its single one bit.
fn size_log(e: Edition, w: &[u32]) -> usize
    requires { (sheet_length (edition_of e) ≤ length w.now) × (sheet_test (edition_of e) w.now ≡ accepted) }
    ensures { get_or w.now 1 0 ≡ 2 ^ result }
{
    log2(w[1]) as usize
}

// The size of domain i, n0/2^i, for n0 of this logarithm: a single one bit, i places below that of n0.
fn domain_size(log: usize, i: usize) -> usize
    requires { (i ≤ log) × (log ≤ 12) }
    ensures { result ≡ 2 ^ (log - i) }
{
    1 << (log - i)
}

// The number of words that a sheet makes due, its own included.
pub fn words_due(e: Edition, w: &[u32]) -> usize
    requires { (sheet_length (edition_of e) ≤ length w.now) × (sheet_test (edition_of e) w.now ≡ accepted) }
    ensures { (result ≡ words_due (edition_of e) (sheet_of (edition_of e) w.now)) × (result ≤ 8509) }
{
    let field = w[0];
    let rounds = w[4] as usize;
    let s = w[5] as usize;
    let log = size_log(e, w);
    // the sheet, table 0 and fold coin 0
    let mut due = edition::sheet_words(e) + widths::words(field, domain_size(log, 0) + 1);
    let mut d = w[2];
    for i in 0..rounds {
        due += round_words(field, domain_size(log, i + 1), s, w[6 + i] as usize);
        d = next_degree(e, w, i, d);
    }
    // the final coefficients and the final indices
    due + widths::words(field, next_degree(e, w, rounds, d) as usize) + w[6 + rounds] as usize
}

// The number of blocks of 127 words that they fill.
pub fn blocks_due(e: Edition, w: &[u32]) -> usize
    requires { (sheet_length (edition_of e) ≤ length w.now) × (sheet_test (edition_of e) w.now ≡ accepted) }
    ensures { (result ≡ block_count (words_due (edition_of e) (sheet_of (edition_of e) w.now))) × ((1 ≤ result) × (result ≤ 67)) }
{
    (words_due(e, w) + 126) / 127
}

// The number of words of coins that a sheet makes due.
pub fn coins_due(e: Edition, w: &[u32]) -> usize
    requires { (sheet_length (edition_of e) ≤ length w.now) × (sheet_test (edition_of e) w.now ≡ accepted) }
    ensures { result ≡ length (coin_kinds (layout (sheet_of (edition_of e) w.now))) }
{
    let field = w[0];
    let rounds = w[4] as usize;
    let s = w[5] as usize;
    // fold coin 0
    let mut due = widths::words(field, 1);
    for i in 0..rounds {
        // out coins, combination coin, fold coin, shift indices
        due += widths::words(field, s + 2) + w[6 + i] as usize;
    }
    // the final indices
    due + w[6 + rounds] as usize
}
