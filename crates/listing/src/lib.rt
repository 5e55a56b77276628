// What the programs `domains` and `domains2` print of a sheet, as bytes.
#![tactic(auto)]

ghost use Rattle.std.specs.Prelude.{◌≡◌, ◌+◌, ◌*◌, ◌/◌, ◌≤◌, ◌<◌, length, get_or, take};
ghost use mathlib.Core.List.{[], ◌∷◌, ◌++◌, flat_map};
ghost use Rattle.definition.specs.Sheet.{edition1, edition2};
ghost use Rattle.domain.specs.Powers.{Fitting};
ghost use Rattle.edition.specs.Meaning.{edition_of};
ghost use Rattle.line.specs.Text.{Holds};
ghost use Rattle.listing.specs.Listing.{head_text, listing, point_text, sheet_listing};
ghost use Rattle.listing.specs.Table.{ListingOf, line_at, lines_from, points_from};

use edition::Edition;
use line::Line;
use outcome::{Answer, Outcome};

// A blank and a point.
fn point(x: u32) -> Line
    ensures { Holds result (point_text x) × (result.length ≤ 11) }
{
    let n = x as usize;
    line::digits(line::put(line::empty(), b' '), n)
}

// What stands before the points of domain i.
fn head(i: usize) -> Line
    ensures { Holds result (head_text i) × (result.length ≤ 28) }
{
    line::put(line::digits(line::text(line::empty(), b"domain "), i), b':')
}

// The line's end.
fn end() -> Line
    ensures { Holds result (10 ∷ []) × (result.length ≤ 1) }
{
    line::put(line::empty(), b'\n')
}

// The points at every scale-th place of the table, after the first `at` bytes of the output; answers the place behind them.
fn points(pw: &[u32], scale: usize, at: usize, out: &mut [u8; 131072]) -> usize
    requires { (0 < scale) × (at + 11 * (length pw.now / scale) ≤ 131072) }
    ensures out_after { take result out.new ≡ take at out.old ++ flat_map point_text (points_from pw.now scale 0 (length pw.now / scale)) }
    ensures upper_bound { result ≤ at + 11 * (length pw.now / scale) }
{
    let mut place = at;
    for j in 0..pw.len() / scale {
        place = line::write(point(pw[scale * j]), place, out);
    }
    place
}

// The line of domain i, whose points stand at every scale-th place of the table.
fn domain_line(pw: &[u32], i: usize, scale: usize, at: usize, out: &mut [u8; 131072]) -> usize
    requires { (0 < scale) × (at + 29 + 11 * (length pw.now / scale) ≤ 131072) }
    ensures out_after { take result out.new ≡ take at out.old ++ line_at pw.now i scale }
    ensures upper_bound { result ≤ at + 29 + 11 * (length pw.now / scale) }
{
    let begun = line::write(head(i), at, out);
    let ended = points(pw, scale, begun, out);
    line::write(end(), ended, out)
}

// The lines of domains 0 to M. All of them take 6·29 + 22·4,096 bytes at most.
fn domain_lines(pw: &[u32], rounds: usize, at: usize, out: &mut [u8; 131072]) -> usize
    requires { (rounds ≤ 5) × ((length pw.now ≤ 4096) × (at ≤ 16)) }
    ensures out_after { take result out.new ≡ take at out.old ++ lines_from pw.now 0 (rounds + 1) }
    ensures upper_bound { result ≤ 131072 }
{
    let mut place = at;
    let mut scale: usize = 1;
    for i in 0..rounds + 1 {
        place = domain_line(pw, i, scale, place, out);
        scale *= 2;
    }
    place
}

// The listing of a sheet w that passes, of either edition: its points go by words 0 and 1, and its lines by word 4.
fn kept(w: &[u32], out: &mut [u8; 131072]) -> usize
    requires { (12 ≤ length w.now) × ((Fitting (get_or w.now 0 0) (get_or w.now 1 0)) × (get_or w.now 4 0 ≤ 5)) }
    ensures listing_of { ListingOf w.now (take result out.new) }
    ensures upper_bound { result ≤ 131072 }
{
    let mut pw = [0u32; domain::POINTS];
    let size = domain::of_sheet(w, &mut pw);
    let rounds = w[4] as usize;
    let begun = line::write(line::text(line::empty(), b"keeps its rules\n"), 0, out);
    domain_lines(&pw[..size], rounds, begun, out)
}

// The listing of the first `count` words as a sheet of the edition.
fn of_words(e: Edition, words: &[u32; 4096], count: usize, out: &mut [u8; 131072]) -> usize
    ensures out_after { take result out.new ≡ sheet_listing (edition_of e) (take count words.now) }
    ensures upper_bound { result ≤ 131072 }
{
    let w = word_input::front(words, count);
    let tests = input_tests::sheet_tests(e, w);
    match tests {
        Outcome::Accepted => kept(w, out),
        Outcome::Refused(number, place) => line::write(line::of_refusal(number, place), 0, out),
    }
}

// The listing of an input, all of whose words are a sheet of the edition; answers its length.
fn output_in(e: Edition, bytes: &[u8], out: &mut [u8; 131072]) -> usize
    ensures out_after { take result out.new ≡ listing (edition_of e) bytes.now }
    ensures upper_bound { result ≤ 131072 }
{
    let mut room = [0u32; 4096];
    let read = word_input::words(bytes, &mut room);
    match read {
        Answer::Done(count) => of_words(e, &room, count, out),
        Answer::Refusal(number, place) => line::write(line::of_refusal(number, place), 0, out),
    }
}

// What the program `domains` prints on an input; answers its length.
pub fn output(bytes: &[u8], out: &mut [u8; 131072]) -> usize
    ensures out_after { take result out.new ≡ listing edition1 bytes.now }
    ensures upper_bound { result ≤ 131072 }
{
    output_in(Edition::One, bytes, out)
}

// What the program `domains2` prints: the same of a sheet of edition 2, under a name of its own, as the program has one.
pub fn output_2(bytes: &[u8], out: &mut [u8; 131072]) -> usize
    ensures out_after { take result out.new ≡ listing edition2 bytes.now }
    ensures upper_bound { result ≤ 131072 }
{
    output_in(Edition::Two, bytes, out)
}
