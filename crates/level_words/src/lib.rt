// Where deciding stands at a level among the words w of a stream of edition e: the place, the fold coin, how the level's function is worked out, and the reads.
#![tactic(auto)]

ghost use Rattle.std.specs.Prelude.{◌≡◌, ◌+◌, ◌≤◌, ◌<◌, length, get_or, take, drop};
ghost use Rattle.definition.specs.Sheet.{sheet_length, sheet_of};
ghost use Rattle.list_laws.specs.All.{All};
ghost use Rattle.layouts.specs.Levels.{words_for};
ghost use Rattle.edition.specs.Meaning.{edition_of};
ghost use Rattle.level_words.specs.State.{current_repetitions, finals_of, first_oracle, first_state, fold_coin_at, next_oracle, next_shifts, next_state, reads_after};
ghost use Rattle.level_words.specs.Inside.{FinalInside, Numbers, RoundInside, Written};

use edition::Edition;
use fractions::Oracle;

// A place: the level's number, domain size and degree bound, and where its table and the words after its fold coin begin. It holds no element: the level's
// fold coin is handed on beside it, and so are the reads so far. The edition and the words are too: the public functions keep these parameters.
#[derive(Clone, Copy)]
pub struct State {
    pub level: usize,
    pub size: usize,
    pub degree: usize,
    pub table: usize,
    pub at: usize,
}

// The first place: at level 0, after fold coin 0.
pub fn first_state(e: Edition, w: &[u32]) -> State
    requires { (Written (edition_of e) (sheet_of (edition_of e) w.now) w.now) × ((sheet_of (edition_of e) w.now).size ≤ 4096) }
    ensures { result ≡ first_state (sheet_length (edition_of e)) (sheet_of (edition_of e) w.now) }
{
    let from = edition::sheet_words(e);
    let size = w[1] as usize;
    State {
        level: 0,
        size: size,
        degree: w[2] as usize,
        table: from,
        at: from + widths::words(w[0], size + 1),
    }
}

// How table 0 is read: as it is, with no samples.
pub fn first_oracle(e: Edition, w: &[u32]) -> Oracle
    requires { (Written (edition_of e) (sheet_of (edition_of e) w.now) w.now) × (((sheet_of (edition_of e) w.now).size ≤ 4096) × (0 < get_or (sheet_of (edition_of e) w.now).folds 0 0)) }
    ensures { result ≡ first_oracle (sheet_of (edition_of e) w.now) }
{
    Oracle {
        scale: 1,
        step: w[1] as usize / edition::fold(e, w, 0),
        words: 0,
    }
}

// The place after the next round: table, out coins, replies, combination coin, fold coin and shift indices are behind it.
pub fn next_state(e: Edition, w: &[u32], state: State) -> State
    requires { RoundInside (edition_of e) (sheet_of (edition_of e) w.now) w.now state }
    ensures { result ≡ next_state (sheet_of (edition_of e) w.now) state }
{
    let k = edition::fold(e, w, state.level);
    let s = w[5] as usize;
    let t = w[6 + state.level] as usize;
    State {
        level: state.level + 1,
        size: state.size / 2,
        degree: state.degree / k,
        table: state.at,
        at: state.at + widths::words(w[0], state.size / 2 + s + s + 2) + t,
    }
}

// At which word the fold coin of the next round begins.
pub fn next_coin(e: Edition, w: &[u32], state: State) -> usize
    requires { RoundInside (edition_of e) (sheet_of (edition_of e) w.now) w.now state }
    ensures { (result ≡ fold_coin_at (sheet_of (edition_of e) w.now) state) × (result + words_for (sheet_of (edition_of e) w.now) 1 ≤ length w.now) }
{
    let s = w[5] as usize;
    state.at + widths::words(w[0], state.size / 2 + s + s + 1)
}

// How the function of the next level is worked out, with so many words of coefficients.
pub fn next_oracle(e: Edition, w: &[u32], state: State, scale: usize, words: usize) -> Oracle
    requires { (RoundInside (edition_of e) (sheet_of (edition_of e) w.now) w.now state) × (scale ≤ 4096) }
    ensures { result ≡ next_oracle (sheet_of (edition_of e) w.now) state scale words }
{
    Oracle {
        scale: 2 * scale,
        step: state.size / 2 / edition::fold(e, w, state.level + 1),
        words: words,
    }
}

// The reads after so many coins of the level, whose indices stand in the words from a number on: k more for each different index.
fn reads_after_coins(
    e: Edition,
    w: &[u32],
    state: State,
    reads: usize,
    at: usize,
    count: usize,
) -> usize
    requires numbers { (Numbers (edition_of e) (sheet_of (edition_of e) w.now) w.now state) × (reads ≤ 8192) }
    requires count_in_bounds { (at + count ≤ length w.now) × ((count ≤ 48) × (All (λ j. j < 2048) (take count (drop at w.now)))) }
    ensures { result ≡ reads_after (sheet_of (edition_of e) w.now) state reads (take count (drop at w.now)) }
{
    reads + places::count(lists::part(w, at, count)) * edition::fold(e, w, state.level)
}

// The reads after the next round: all its shift coins are treated.
pub fn reads_after_round(e: Edition, w: &[u32], state: State, reads: usize) -> usize
    requires { (RoundInside (edition_of e) (sheet_of (edition_of e) w.now) w.now state) × (reads ≤ 8192) }
    ensures { result ≡ reads_after (sheet_of (edition_of e) w.now) state reads (next_shifts (sheet_of (edition_of e) w.now) w.now state) }
{
    let s = w[5] as usize;
    reads_after_coins(
        e,
        w,
        state,
        reads,
        state.at + widths::words(w[0], state.size / 2 + s + s + 2),
        w[6 + state.level] as usize,
    )
}

// The reads after so many of the final coins.
pub fn reads_after_finals(e: Edition, w: &[u32], state: State, reads: usize, count: usize) -> usize
    requires final_inside { (FinalInside (edition_of e) (sheet_of (edition_of e) w.now) w.now state) × (reads ≤ 8192) }
    requires count_bound { count ≤ current_repetitions (sheet_of (edition_of e) w.now) state }
    ensures { result ≡ reads_after (sheet_of (edition_of e) w.now) state reads (take count (finals_of (sheet_of (edition_of e) w.now) w.now state)) }
{
    reads_after_coins(
        e,
        w,
        state,
        reads,
        state.at + widths::words(w[0], state.degree / edition::fold(e, w, state.level)),
        count,
    )
}
