// Reading of a batch: refusals 1 2 3 15 4 5 6 of a file, and its plain stream, whose table 0 is the first function's values.
#![tactic(auto)]

ghost use Rattle.std.specs.Prelude.{◌≡◌, List, ◌++◌, map, ℕ, ◌+◌, ◌-◌, ◌*◌, ◌/◌, ◌≤◌, min, leb, length, get_or, take, drop};
ghost use Rattle.definition.specs.Field.{prime_of, spelling_of, word_count, words_of};
ghost use Rattle.definition.specs.Layout.{words_due};
ghost use Rattle.definition.specs.Lists.{first_true};
ghost use Rattle.definition.specs.Reading.{sheet_test};
ghost use Rattle.definition.specs.Sheet.{edition1, sheet_of};
ghost use Rattle.definition.specs.Verdict.{accepted};
ghost use Rattle.batch_definition.specs.Batch.{read_batch};
ghost use Rattle.batches.specs.Batched.{combined_table, fold_number, higher, higher_by, plain_words};
ghost use Rattle.batches.specs.BodyTests.{plain_body};
ghost use Rattle.outcome.specs.Meaning.{outcome_of, place_of};
ghost use Rattle.reading.specs.Stages.{Loads};
ghost use Rattle.batch_reading.specs.Stages.{BodyRead, ReadBatch, Ruled, StreamRead, number_tests};

use edition::Edition;
use outcome::Outcome;

// Refusals 3, 15 and 4, of words of which the first block is there.
fn numbers(w: &[u32], blocks: usize) -> Outcome
    requires { 127 ≤ length w.now }
    ensures { outcome_of result ≡ number_tests blocks w.now }
{
    let broken = sheet::broken(Edition::One, w);
    if let Some(place) = broken {
        return Outcome::Refused(3, place);
    }
    let count = w[12] as usize;
    let ruled = batch_sheet::broken(w, count, &w[13..]);
    if let Some(place) = ruled {
        return Outcome::Refused(15, place);
    }
    let due = sizes::words_due(Edition::One, w) + batch_sheet::shift(w, count);
    let due_blocks = (due + 126) / 127;
    if blocks != due_blocks {
        return Outcome::Refused(4, due_blocks);
    }
    Outcome::Accepted
}

// The first of the words from one number to another that is not below p, by its number.
fn element_out_of_range(w: &[u32], from: usize, to: usize) -> Option<usize>
    requires { (1 ≤ length w.now) × ((from ≤ to) × (to ≤ length w.now)) }
    ensures { place_of result ≡ first_true from (map (leb (prime_of (get_or w.now 0 0))) (take (to - from) (drop from w.now))) }
{
    let found = ranges::coefficient_out_of_range(w[0], &w[from..to]);
    if let Some(place) = found {
        return Some(place + from);
    }
    None
}

// The first function's values at the points of domain 0, in words.
fn first_values(w: &[u32], out: &mut [u32])
    requires ruled { Ruled w.now }
    requires out_len { length out.old ≡ word_count (spelling_of (get_or w.now 0 0)) (get_or w.now 1 0) }
    ensures { out.new ≡ words_of (sheet_of edition1 w.now).spelling (combined_table (sheet_of edition1 w.now) (read_batch (sheet_of edition1 w.now).spelling (sheet_of edition1 w.now) (drop 12 w.now))) }
{
    let field = w[0];
    let d = w[2] as usize;
    let count = w[12] as usize;
    let mut pw = [0u32; domain::POINTS];
    let size = domain::of_sheet(w, &mut pw);
    let mut list = [0u32; 2048];
    let places = elements::words(field, d);
    let mut multipliers = [0u32; 4096];
    let n = out.len();
    let from = 13 + count;
    let tables = &w[from..];
    let r = elements::get(field, tables, count * size);
    combination::values(
        field,
        d,
        r,
        &w[13..from],
        &pw[..size],
        tables,
        &mut list[..places],
        &mut multipliers[..n],
        out,
    );
}

// The plain stream's words before fold coin 0: the sheet, and table 0.
fn plain_front(w: &[u32], out: &mut [u32])
    requires ruled { Ruled w.now }
    requires out_len { length out.old ≡ 12 + word_count (spelling_of (get_or w.now 0 0)) (get_or w.now 1 0) }
    ensures { out.new ≡ take 12 w.now ++ words_of (sheet_of edition1 w.now).spelling (combined_table (sheet_of edition1 w.now) (read_batch (sheet_of edition1 w.now).spelling (sheet_of edition1 w.now) (drop 12 w.now))) }
{
    honest_words::copy(&w[..12], &mut out[..12]);
    first_values(w, &mut out[12..]);
}

// Lays these words over those before fold coin 0, which is at word number `at`: the plain stream begins at `shift`.
fn to_plain(words: &mut [u32], shift: usize, at: usize)
    requires ruled { Ruled words.old }
    requires shift_value { (shift ≡ higher_by (sheet_of edition1 words.old) (get_or words.old 12 0)) × (at ≡ fold_number (sheet_of edition1 words.old) (get_or words.old 12 0)) }
    ensures { drop shift words.new ≡ plain_words words.old }
{
    let mut front = [0u32; 4108];
    let n = at - shift;
    plain_front(words, &mut front[..n]);
    honest_words::copy(&front[..n], &mut words[shift..at]);
}

// Refusals 5 and 6 of a plain stream, at numbers that are higher.
fn plain_body(plain: &[u32], shift: usize) -> Outcome
    requires plain_value { sheet_test edition1 plain.now ≡ accepted }
    requires plain_in_bounds { words_due edition1 (sheet_of edition1 plain.now) ≤ length plain.now }
    requires shift_bound { shift ≤ 7181 }
    ensures { outcome_of result ≡ higher shift (plain_body plain.now) }
{
    let due = sizes::words_due(Edition::One, plain);
    let told = reading::body(Edition::One, plain, due);
    if let Outcome::Refused(number, place) = told {
        return Outcome::Refused(number, place + shift);
    }
    Outcome::Accepted
}

// Refusals 5 and 6 of a batch's words: of the tables and r, and then of the plain stream.
fn body(w: &mut [u32]) -> Outcome
    requires { Ruled w.old }
    ensures { BodyRead w.old result w.new }
{
    let count = w[12] as usize;
    let shift = batch_sheet::shift(w, count);
    let at = shift + 12 + widths::words(w[0], w[1] as usize);
    let tables = element_out_of_range(w, 13 + count, at);
    if let Some(place) = tables {
        return Outcome::Refused(5, place);
    }
    to_plain(w, shift, at);
    plain_body(&w[shift..], shift)
}

// Refusals 3 to 6, of a file in so many blocks whose words are loaded.
fn after_checks(words: &mut [u32], blocks: usize) -> Outcome
    requires { (127 * min blocks 100 ≤ length words.old) × (1 ≤ blocks) }
    ensures { (w : List ℕ) → Loads 99 words.old blocks w → StreamRead blocks w result words.new }
{
    let told = numbers(words, blocks);
    if let Outcome::Refused(number, place) = told {
        return Outcome::Refused(number, place);
    }
    body(&mut words[..127 * blocks])
}

// Reads a file of any length and content as a batch. Where it is accepted, its plain stream stands in the places lent, past as many of them as a batch has words more.
pub fn read(file: &[u8], words: &mut [u32]) -> Outcome
    requires { 127 * min (length file.now / 512) 100 ≤ length words.old }
    ensures { ReadBatch file.now result words.new }
{
    if file.len() == 0 {
        return Outcome::Refused(1, 0);
    }
    if file.len() % 512 != 0 {
        return Outcome::Refused(1, 0);
    }
    let check = stream::load(file, 99, words);
    if let Some(place) = check {
        return Outcome::Refused(2, place);
    }
    after_checks(words, file.len() / 512)
}
