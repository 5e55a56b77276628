// The sheet of either edition: the first of its words that breaks its rule.
// Each rule is a function of its own. It reads only words whose rules held before, so that no power, shift or product is made of a word not yet accepted.
#![tactic(auto)]

ghost use Rattle.std.specs.Prelude.{◌≡◌, true, not, map, ◌+◌, ◌-◌, ◌≤◌, ◌<◌, length};
ghost use Rattle.definition.specs.Field.{prime_of, spelling_of};
ghost use Rattle.definition.specs.Lists.{first_of, range};
ghost use Rattle.definition.specs.Sheet.{between as betweenIn, power_of_two, degree_rule, edition2, field_rule, fold_rule, folding_number, largest_size, later_fold_rule, later_rules, out_coins_rule, repetitions_rule, rounds_rule, sheet_length, sheet_rules, size_rule, test_order};
ghost use Rattle.edition.specs.Meaning.{edition_of};
ghost use Rattle.outcome.specs.Meaning.{place_of};
ghost use Rattle.sheet.specs.Rules.{Shape, front_rules, later_words};
ghost use Rattle.sizes.specs.Degrees.{DegreeAt, Folds};

use edition::Edition;

// Is x one of 1, 2, 4, .., 4096: a single one bit, and not too high?
fn is_power(x: u32) -> bool
    ensures { result ≡ power_of_two x }
{
    if 4096 < x {
        return false;
    }
    u32::count_ones(x) == 1
}

fn between(low: u32, high: u32, x: u32) -> bool
    ensures { result ≡ betweenIn low high x }
{
    if x < low {
        return false;
    }
    x <= high
}

// p - 1, the number of elements that are not 0.
fn group_size(field: u32) -> u32
    ensures { result ≡ prime_of field - 1 }
{
    match field {
        0 => 16,
        1 => 65536,
        _ => 2013265920,
    }
}

// Word 0: the number of a known field.
fn field_rule(w: &[u32]) -> bool
    requires { 12 ≤ length w.now }
    ensures { result ≡ field_rule w.now }
{
    w[0] < 4
}

// The largest n0: a table has at most 4,096 words.
fn largest_size(field: u32) -> u32
    ensures { result ≡ largest_size (spelling_of field) }
{
    if field == 3 {
        return 1024;
    }
    4096
}

// Word 1, n0: a power of two from 4 to the largest that divides p - 1.
fn size_rule(w: &[u32]) -> bool
    requires { 12 ≤ length w.now }
    ensures { result ≡ size_rule w.now }
{
    let n = w[1];
    if !is_power(n) {
        return false;
    }
    if !between(4, largest_size(w[0]), n) {
        return false;
    }
    group_size(w[0]) % n == 0
}

// Word 2, d0: a power of two from 2 to n0/2.
fn degree_rule(w: &[u32]) -> bool
    requires { 12 ≤ length w.now }
    ensures { result ≡ degree_rule w.now }
{
    let d = w[2];
    if !is_power(d) {
        return false;
    }
    between(2, w[1] / 2, d)
}

// A folding number k: a power of two from 2 to 16, at most d0.
fn folding_number(w: &[u32], k: u32) -> bool
    requires { 12 ≤ length w.now }
    ensures { result ≡ folding_number w.now k }
{
    if !is_power(k) {
        return false;
    }
    if !between(2, 16, k) {
        return false;
    }
    k <= w[2]
}

// Word 4, M: 0 to 5; in edition 1 also k^(M+1) at most d0. The powers of two are compared by their logarithms.
fn rounds_rule(e: Edition, w: &[u32]) -> bool
    requires { (12 ≤ length w.now) × ((degree_rule w.now ≡ true) × (fold_rule w.now ≡ true)) }
    ensures { result ≡ rounds_rule (edition_of e) w.now }
{
    let m = w[4];
    if 5 < m {
        return false;
    }
    match e {
        Edition::One => sizes::log2(w[3]) * (m + 1) <= sizes::log2(w[2]),
        Edition::Two => true,
    }
}

// Word 5, s: 1 or 2.
fn out_coins_rule(w: &[u32]) -> bool
    requires { 12 ≤ length w.now }
    ensures { result ≡ out_coins_rule w.now }
{
    between(1, 2, w[5])
}

// The first of words 0 to 5 that breaks its rule, given those before it.
fn broken_front(e: Edition, w: &[u32]) -> Option<usize>
    requires { 12 ≤ length w.now }
    ensures { place_of result ≡ first_of (range 0 6) (map not (front_rules (edition_of e) w.now)) }
{
    if !field_rule(w) {
        return Some(0);
    }
    if !size_rule(w) {
        return Some(1);
    }
    if !degree_rule(w) {
        return Some(2);
    }
    if !folding_number(w, w[3]) {
        return Some(3);
    }
    if !rounds_rule(e, w) {
        return Some(4);
    }
    if !out_coins_rule(w) {
        return Some(5);
    }
    None
}

// Word 11 + i of edition 2, k_i, with d for d_i: a folding number for i up to M, with k_0·..·k_i at most d0, which is k_i at most d_i; past k_M zero.
fn later_fold_rule(w: &[u32], i: usize, d: u32) -> bool
    requires in_bounds { (18 ≤ length w.now) × ((1 ≤ i) × (i < 6)) }
    requires folds { (Folds edition2 w.now i) × (DegreeAt edition2 w.now i d) }
    ensures { result ≡ later_fold_rule w.now i }
{
    let k = w[11 + i];
    if (w[4] as usize) < i {
        return k == 0;
    }
    if !folding_number(w, k) {
        return false;
    }
    k <= d
}

// The first of k_1 to k_5 of edition 2 that breaks its rule, where words 2 to 5 hold theirs.
fn broken_folds(w: &[u32]) -> Option<usize>
    requires { (18 ≤ length w.now) × (Shape edition2 w.now) }
    ensures { place_of result ≡ first_of (range 12 5) (map not (map (later_fold_rule w.now) (range 1 5))) }
{
    let mut d = sizes::next_degree(Edition::Two, w, 0, w[2]);
    for i in 1..6 {
        if !later_fold_rule(w, i, d) {
            return Some(11 + i);
        }
        d = sizes::next_degree(Edition::Two, w, i, d);
    }
    None
}

// The first of words 12 to 17 of edition 2 that breaks its rule; word 17 is the edition's number.
fn broken_past_11(w: &[u32]) -> Option<usize>
    requires { (18 ≤ length w.now) × (Shape edition2 w.now) }
    ensures { place_of result ≡ first_of (range 12 6) (map not (later_rules edition2 w.now)) }
{
    let folds = broken_folds(w);
    if let Some(place) = folds {
        return Some(place);
    }
    if w[17] != 2 {
        return Some(17);
    }
    None
}

// The first word past word 11 that breaks its rule, where words 2 to 5 hold theirs. Edition 1 has none.
fn broken_later(e: Edition, w: &[u32]) -> Option<usize>
    requires { (sheet_length (edition_of e) ≤ length w.now) × (Shape (edition_of e) w.now) }
    ensures { place_of result ≡ first_of (later_words (edition_of e)) (map not (later_rules (edition_of e) w.now)) }
{
    match e {
        Edition::One => None,
        Edition::Two => broken_past_11(w),
    }
}

// Word 6 + i, t_i, with `next` for d_(i+1): 1 to 48 for i up to M, and t_i + s < d_(i+1) for i below M; past t_M zero.
fn repetitions_rule(e: Edition, w: &[u32], i: usize, next: u32) -> bool
    requires in_bounds { (12 ≤ length w.now) × (i < 6) }
    requires shape { (Shape (edition_of e) w.now) × (DegreeAt (edition_of e) w.now (i + 1) next) }
    ensures { result ≡ repetitions_rule (edition_of e) w.now i }
{
    let t = w[6 + i];
    let m = w[4] as usize;
    if m < i {
        return t == 0;
    }
    if !between(1, 48, t) {
        return false;
    }
    if i == m {
        return true;
    }
    t + w[5] < next
}

// The first of t_0 to t_5 that breaks its rule, where words 2 to 5 and the folding numbers hold theirs.
fn broken_repetitions(e: Edition, w: &[u32]) -> Option<usize>
    requires e_in_bounds { (sheet_length (edition_of e) ≤ length w.now) × (Shape (edition_of e) w.now) }
    requires folds { Folds (edition_of e) w.now 6 }
    ensures { place_of result ≡ first_of (range 6 6) (map not (map (repetitions_rule (edition_of e) w.now) (range 0 6))) }
{
    let mut d = w[2];
    for i in 0..6 {
        d = sizes::next_degree(e, w, i, d);
        if !repetitions_rule(e, w, i, d) {
            return Some(6 + i);
        }
    }
    None
}

// The first sheet word that breaks its rule, in the order of the tests: words 0 to 5, those past word 11, then words 6 to 11.
pub fn broken(e: Edition, w: &[u32]) -> Option<usize>
    requires { sheet_length (edition_of e) ≤ length w.now }
    ensures { place_of result ≡ first_of (test_order (edition_of e)) (map not (sheet_rules (edition_of e) w.now)) }
{
    let front = broken_front(e, w);
    if let Some(place) = front {
        return Some(place);
    }
    let later = broken_later(e, w);
    if let Some(place) = later {
        return Some(place);
    }
    broken_repetitions(e, w)
}
