// A verdict, or a refusal, as a line of bytes. A line is made by value, byte after byte.
#![tactic(auto)]

ghost use Rattle.std.specs.Prelude.{◌≡◌, [], ◌∷◌, ◌++◌, ◌+◌, ◌≤◌, ◌<◌, length, take};
ghost use Rattle.definition.specs.Line.{decimal, line_of, outcome_text, refusal_line};
ghost use Rattle.definition.specs.Verdict.{refused};
ghost use Rattle.outcome.specs.Meaning.{outcome_of, verdict_of};
ghost use Rattle.line.specs.Text.{Extends, Holds, text_of};

use outcome::{Outcome, Verdict};

// The first `length` bytes are the line's: a buffer with its length beside it, since there is no heap.
#[derive(Clone, Copy)]
pub struct Line {
    pub bytes: [u8; 64],
    pub length: usize,
}

// The empty line.
pub fn empty() -> Line
    ensures { result.length ≡ 0 }
{
    Line {
        bytes: [0u8; 64],
        length: 0,
    }
}

// One byte more.
pub fn put(line: Line, b: u8) -> Line
    requires { line.length < 64 }
    ensures { Extends line (b ∷ []) result }
{
    let at = line.length;
    let mut longer = line;
    longer.bytes[at] = b;
    longer.length = at + 1;
    longer
}

// More bytes.
pub fn text(line: Line, bytes: &[u8]) -> Line
    requires { line.length + length bytes.now ≤ 64 }
    ensures { Extends line bytes.now result }
{
    let mut longer = line;
    for i in 0..bytes.len() {
        longer = put(longer, bytes[i]);
    }
    longer
}

// A number in base ten: the digits of its tenth, then its last digit.
pub fn digits(line: Line, n: usize) -> Line
    requires { line.length + length (decimal n) ≤ 64 }
    ensures { Extends line (decimal n) result }
{
    if n < 10 {
        return put(line, (48 + n) as u8);
    }
    put(digits(line, n / 10), (48 + n % 10) as u8)
}

// `refused`, number and place.
fn refusal(number: u32, place: usize) -> Line
    ensures { Holds result (outcome_text (refused number place)) × (result.length ≤ 39) }
{
    let n = number as usize;
    let numbered = digits(text(empty(), b"refused "), n);
    digits(put(numbered, b' '), place)
}

// `accepted 0 0`, or `refused`, number and place.
fn outcome_text(outcome: Outcome) -> Line
    ensures { Holds result (outcome_text (outcome_of outcome)) × (result.length ≤ 39) }
{
    match outcome {
        Outcome::Accepted => text(empty(), b"accepted 0 0"),
        Outcome::Refused(number, place) => refusal(number, place),
    }
}

// Outcome, number, place, reads and a line end.
pub fn of_verdict(v: Verdict) -> Line
    ensures bytes_value { take result.length result.bytes ≡ line_of (verdict_of v) }
    ensures length_value { result.length ≡ length (line_of (verdict_of v)) }
    ensures length_bound { result.length ≤ 64 }
{
    let outcome = v.outcome;
    let reads = v.reads;
    let counted = digits(put(outcome_text(outcome), b' '), reads);
    put(counted, b'\n')
}

// Number, place and a line end.
pub fn of_refusal(number: u32, place: usize) -> Line
    ensures bytes_value { take result.length result.bytes ≡ refusal_line number place }
    ensures length_bound { result.length ≤ 64 }
{
    put(refusal(number, place), b'\n')
}

// The line after the first `at` bytes of a longer output; answers the place behind it.
pub fn write(line: Line, at: usize, out: &mut [u8]) -> usize
    requires { (line.length ≤ 64) × (at + line.length ≤ length out.old) }
    ensures out_after { take result out.new ≡ take at out.old ++ text_of line }
    ensures value { result ≡ at + line.length }
{
    let end = at + line.length;
    out[at..end].copy_from_slice(&line.bytes[..line.length]);
    end
}
