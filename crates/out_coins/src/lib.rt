// The tests of out coins, of a stream or of a coin list: refusal 7 in all rounds, then refusal 14. pw is the table of the points of domain 0.
#![tactic(auto)]

ghost use Rattle.std.specs.Prelude.{◌≡◌, ◌+◌, ◌≤◌, ◌<◌, length, get_or};
ghost use Rattle.layouts.specs.KindsAfter.{chosen};
ghost use Rattle.layouts.specs.Levels.{element_at};
ghost use Rattle.definition.specs.Deciding.{out_tests};
ghost use Rattle.definition.specs.Field.{field_in, four, prime_of, spelling_of, word_count};
ghost use Rattle.definition.specs.Layout.{coin_kinds, layout, words_due};
ghost use Rattle.definition.specs.Reading.{sheet_test};
ghost use Rattle.definition.specs.Sheet.{root_of_unity, sheet_length, sheet_of};
ghost use Rattle.definition.specs.Verdict.{accepted};
ghost use Rattle.domain.specs.OutCoins.{or_else};
ghost use Rattle.domain.specs.Powers.{Powers};
ghost use Rattle.edition.specs.Meaning.{edition_of};
ghost use Rattle.outcome.specs.Meaning.{outcome_of, place_of};
ghost use Rattle.out_coins.specs.Kinds.{kinds_after_fold, messages_in, round_word_count};
ghost use Rattle.out_coins.specs.Walks.{equal_at};

use edition::Edition;
use outcome::Outcome;

// How many of n messages stand among the words: none where the coins stand alone.
fn messages(alone: bool, n: usize) -> usize
    ensures { result ≡ messages_in alone n }
{
    if alone {
        return 0;
    }
    n
}

// The number of the first word after round i + 1, whose out coins begin at a number: past out coins, replies, combination coin, fold coin and shift indices.
fn after_round(w: &[u32], alone: bool, outs: usize, i: usize) -> usize
    requires in_bounds { (12 ≤ length w.now) × (i < 6) }
    requires i_bound { outs + round_word_count alone w.now i < 18446744073709551616 }
    ensures { result ≡ outs + round_word_count alone w.now i }
{
    let s = w[5] as usize;
    outs + (widths::words(w[0], s + messages(alone, s) + 2) + w[6 + i] as usize)
}

// Are two elements of four words equal, which begin at words i and j?
fn same_four(words: &[u32], i: usize, j: usize) -> bool
    requires { (i + 4 ≤ length words.now) × (j + 4 ≤ length words.now) }
    ensures { result ≡ (field_in four (prime_of 3)).equal (element_at four words.now i) (element_at four words.now j) }
{
    if words[i] != words[j] {
        return false;
    }
    if words[i + 1] != words[j + 1] {
        return false;
    }
    if words[i + 2] != words[j + 2] {
        return false;
    }
    words[i + 3] == words[j + 3]
}

// Are two elements equal, which begin at words i and j?
fn same(field: u32, words: &[u32], i: usize, j: usize) -> bool
    requires { (i + word_count (spelling_of field) 1 ≤ length words.now) × (j + word_count (spelling_of field) 1 ≤ length words.now) }
    ensures { result ≡ (field_in (spelling_of field) (prime_of field)).equal (element_at (spelling_of field) words.now i) (element_at (spelling_of field) words.now j) }
{
    if field == 3 {
        return same_four(words, i, j);
    }
    words[i] == words[j]
}

// The second of two equal out coins of a round, which are the `count` elements from word `at` on.
fn second_equal(field: u32, words: &[u32], at: usize, count: usize) -> Option<usize>
    requires { at + word_count (spelling_of field) count ≤ length words.now }
    ensures { place_of result ≡ equal_at (spelling_of field) (prime_of field) words.now at count }
{
    if 2 <= count {
        let second = at + widths::words(field, 1);
        if same(field, words, second, at) {
            return Some(second);
        }
    }
    None
}

// The tests of the out coins among the words from number `start` on, the first after fold coin 0. The words are those of a stream, or coins alone.
fn after_fold(
    e: Edition,
    w: &[u32],
    pw: &[u32],
    alone: bool,
    words: &[u32],
    start: usize,
) -> Outcome
    requires e_in_bounds { (sheet_length (edition_of e) ≤ length w.now) × (sheet_test (edition_of e) w.now ≡ accepted) }
    requires w_in_bounds { start + length (chosen alone (kinds_after_fold (sheet_of (edition_of e) w.now))) ≤ length words.now }
    requires powers { (Powers (get_or w.now 0 0) (root_of_unity (sheet_of (edition_of e) w.now)) pw.now) × (length pw.now ≡ get_or w.now 1 0) }
    ensures { outcome_of result ≡ out_tests (sheet_of (edition_of e) w.now) start (chosen alone (kinds_after_fold (sheet_of (edition_of e) w.now))) words.now }
{
    let field = w[0];
    let rounds = w[4] as usize;
    let s = w[5] as usize;
    let mut equal = None;
    let mut at = start;
    let mut scale = 1;
    for i in 0..rounds {
        scale *= 2;
        // the table stands first
        let outs = at + widths::words(field, messages(alone, pw.len() / scale));
        let inside = domain::first_inside(field, words, pw, scale, outs, s);
        if let Some(place) = inside {
            return Outcome::Refused(7, place);
        }
        equal = equal.or(second_equal(field, words, outs, s));
        at = after_round(w, alone, outs, i);
    }
    if let Some(place) = equal {
        return Outcome::Refused(14, place);
    }
    Outcome::Accepted
}

// The tests of a stream that has all words due, by their numbers in it.
pub fn tests(e: Edition, w: &[u32], pw: &[u32]) -> Outcome
    requires w_value { sheet_test (edition_of e) w.now ≡ accepted }
    requires w_in_bounds { words_due (edition_of e) (sheet_of (edition_of e) w.now) ≤ length w.now }
    requires powers { (Powers (get_or w.now 0 0) (root_of_unity (sheet_of (edition_of e) w.now)) pw.now) × (length pw.now ≡ get_or w.now 1 0) }
    ensures { outcome_of result ≡ out_tests (sheet_of (edition_of e) w.now) (sheet_length (edition_of e)) (layout (sheet_of (edition_of e) w.now)) w.now }
{
    let start = edition::sheet_words(e) + widths::words(w[0], w[1] as usize + 1);
    after_fold(e, w, pw, false, w, start)
}

// The tests of a full coin list, by their positions in it.
pub fn coin_tests(e: Edition, w: &[u32], pw: &[u32], coins: &[u32]) -> Outcome
    requires e_in_bounds { (sheet_length (edition_of e) ≤ length w.now) × (sheet_test (edition_of e) w.now ≡ accepted) }
    requires coins_len { length coins.now ≡ length (coin_kinds (layout (sheet_of (edition_of e) w.now))) }
    requires powers { (Powers (get_or w.now 0 0) (root_of_unity (sheet_of (edition_of e) w.now)) pw.now) × (length pw.now ≡ get_or w.now 1 0) }
    ensures { outcome_of result ≡ out_tests (sheet_of (edition_of e) w.now) 0 (coin_kinds (layout (sheet_of (edition_of e) w.now))) coins.now }
{
    after_fold(e, w, pw, true, coins, widths::words(w[0], 1))
}
