// Refusals 5 and 6: a word out of range, a fill word not zero.
//
// The walk of refusal 5 counts two rounds beside the rounds 1 to M: round 0 is table 0 with its fold coin, round M + 1 is the final coefficients and
// indices. Each is then a run of elements and a run of indices below one limit, and the functions before the walk give their numbers; the walk goes over the
// elements' words. A list of coins alone has the same rounds with fewer elements, so that one walk serves the words of a stream and the coins of an order.
#![tactic(auto)]

ghost use Rattle.std.specs.Prelude.{◌≡◌, true, not, ◌+◌, ◌≤◌, ◌<◌, eqb, leb, length, get_or, drop};
ghost use mathlib.Core.List.{map, zip_with};
ghost use Rattle.definition.specs.Field.{prime_of};
ghost use Rattle.definition.specs.Lists.{first_true};
ghost use Rattle.definition.specs.Layout.{coin_kinds, layout, words_due};
ghost use Rattle.definition.specs.Reading.{out_of_range, sheet_test};
ghost use Rattle.definition.specs.Sheet.{sheet_length, sheet_of};
ghost use Rattle.definition.specs.Verdict.{accepted};
ghost use Rattle.edition.specs.Meaning.{edition_of};
ghost use Rattle.outcome.specs.Meaning.{place_of};
ghost use Rattle.ranges.specs.Rounds.{Fine, all_limits, divided, element_count, index_count, index_limit};

use edition::Edition;

// A word, to count with: sums of a few words fit.
fn word(w: &[u32], i: usize) -> usize
    requires { i < length w.now }
    ensures { (result ≡ get_or w.now i 0) × (result < 4294967296) }
{
    w[i] as usize
}

// x divided by b, `times` times over.
fn divide(x: usize, b: usize, times: usize) -> usize
    requires { 0 < b }
    ensures { result ≡ divided x b times }
{
    let mut q = x;
    for i in 0..times {
        q /= b;
    }
    q
}

// How many elements the coins of a round begin with: a fold coin; then out coins and two coins; at last none.
fn coin_elements(e: Edition, w: &[u32], round: usize) -> usize
    requires { 12 ≤ length w.now }
    ensures { result ≡ element_count true (edition_of e) w.now round }
{
    if round == 0 {
        return 1;
    }
    if round <= word(w, 4) {
        return word(w, 5) + 2;
    }
    0
}

// How many elements a round begins with: table 0 and a fold coin; then table, out coins, replies and two coins; at last the final coefficients. Where the
// coins stand alone, only they count.
fn elements(e: Edition, w: &[u32], alone: bool, round: usize) -> usize
    requires { (Fine (edition_of e) w.now) × (round ≤ get_or w.now 4 0 + 1) }
    ensures { result ≡ element_count alone (edition_of e) w.now round }
{
    if alone {
        return coin_elements(e, w, round);
    }
    if round == 0 {
        return word(w, 1) + 1;
    }
    if round <= word(w, 4) {
        return divide(word(w, 1), 2, round) + 2 * word(w, 5) + 2;
    }
    edition::degree(e, w, round)
}

// How many indices follow the elements of a round.
fn indices(w: &[u32], round: usize) -> usize
    requires in_bounds { 12 ≤ length w.now }
    requires round_bound { round ≤ 6 }
    ensures { result ≡ index_count w.now round }
{
    if round == 0 {
        return 0;
    }
    word(w, 5 + round)
}

// The limit that these indices are below: the number of shift points of the level before.
fn limit(e: Edition, w: &[u32], round: usize) -> usize
    requires { (Fine (edition_of e) w.now) × (round ≤ get_or w.now 4 0 + 1) }
    ensures { result ≡ index_limit (edition_of e) w.now round }
{
    if round == 0 {
        return 0;
    }
    let n = divide(word(w, 1), 2, round - 1);
    n / edition::fold(e, w, round - 1)
}

// The first of the words from number `from` on that is not below its limit, by its number. They are those after the sheet w, or the coins alone.
fn first_beyond(e: Edition, w: &[u32], alone: bool, words: &[u32], from: usize) -> Option<usize>
    requires fine { Fine (edition_of e) w.now }
    requires w_in_bounds { from + length (all_limits alone (edition_of e) w.now) ≤ length words.now }
    ensures { place_of result ≡ first_true from (zip_with leb (all_limits alone (edition_of e) w.now) (drop from words.now)) }
{
    let field = w[0];
    let p = field::modulus(field) as usize;
    let rounds = word(w, 4) + 2;
    let mut found = None;
    let mut at = from;
    'walk: for round in 0..rounds {
        let first = widths::words(field, elements(e, w, alone, round));
        let count = first + indices(w, round);
        let below = limit(e, w, round);
        for j in 0..count {
            let bound = if j < first { p } else { below };
            if bound <= word(words, at + j) {
                found = Some(at + j);
                break 'walk;
            }
        }
        at += count;
    }
    found
}

// Refusal 5 of a stream: the first word after the sheet that is not below its limit, by its number in the stream.
pub fn out_of_range(e: Edition, w: &[u32]) -> Option<usize>
    requires w_value { sheet_test (edition_of e) w.now ≡ accepted }
    requires w_in_bounds { words_due (edition_of e) (sheet_of (edition_of e) w.now) ≤ length w.now }
    ensures { place_of result ≡ first_true (sheet_length (edition_of e)) (zip_with (out_of_range (sheet_of (edition_of e) w.now)) (layout (sheet_of (edition_of e) w.now)) (drop (sheet_length (edition_of e)) w.now)) }
{
    first_beyond(e, w, false, w, edition::sheet_words(e))
}

// Refusal 5 of a full coin list: the first of its words that is not below its limit, by its number in the list.
pub fn coin_out_of_range(e: Edition, w: &[u32], coins: &[u32]) -> Option<usize>
    requires e_in_bounds { (sheet_length (edition_of e) ≤ length w.now) × (sheet_test (edition_of e) w.now ≡ accepted) }
    requires coins_len { length coins.now ≡ length (coin_kinds (layout (sheet_of (edition_of e) w.now))) }
    ensures { place_of result ≡ first_true 0 (zip_with (out_of_range (sheet_of (edition_of e) w.now)) (coin_kinds (layout (sheet_of (edition_of e) w.now))) coins.now) }
{
    first_beyond(e, w, true, coins, 0)
}

// Refusal 5 of coefficients: the first of their words that is not below p, by its number.
pub fn coefficient_out_of_range(field: u32, f: &[u32]) -> Option<usize>
    ensures { place_of result ≡ first_true 0 (map (leb (prime_of field)) f.now) }
{
    let p = field::modulus(field);
    for i in 0..f.len() {
        if p <= f[i] {
            return Some(i);
        }
    }
    None
}

// Refusal 6: the first word after those due that is not zero, by its number in the stream.
pub fn fill_not_zero(w: &[u32], due: usize) -> Option<usize>
    requires { due ≤ length w.now }
    ensures { place_of result ≡ first_true due (map (λ x. not (eqb x 0)) (drop due w.now)) }
{
    for at in due..w.len() {
        if w[at] != 0 {
            return Some(at);
        }
    }
    None
}
