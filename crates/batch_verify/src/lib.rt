// Verify, of a batch: reading leaves its plain stream, which is decided as any other; then places and reads are told as the batch's.
#![tactic(auto)]

ghost use Rattle.std.specs.Prelude.{◌≡◌, ◌||◌, ◌≤◌, ◌<◌, eqb, drop};
ghost use Rattle.batch_definition.specs.Batch.{batch_reading, verify_batch};
ghost use Rattle.batches.specs.Batched.{batch_number, batch_sheet, higher_by, plain_words};
ghost use Rattle.definition.specs.Block.{stream_of};
ghost use Rattle.definition.specs.Verdict.{accepted};
ghost use Rattle.definition.specs.Sheet.{edition1, sheet_of};
ghost use Rattle.layouts.specs.Levels.{rounds_of};
ghost use Rattle.outcome.specs.Meaning.{verdict_of};
ghost use Rattle.batch_verify.specs.ByPlain.{Handed, all_reads, by_plain, first_reads};

use edition::Edition;
use outcome::{Outcome, Verdict};

// Places for the words of the largest batch that can be accepted, 99 blocks, and one block more.
const WORDS: usize = 12700;

// The reads of round 1's shift indices in one table: k for each different index.
fn first_reads(plain: &[u32]) -> usize
    requires { (Handed plain.now) × (0 < rounds_of (sheet_of edition1 plain.now)) }
    ensures { (result ≡ first_reads plain.now) × (result ≤ 768) }
{
    let size = plain[1] as usize;
    let s = plain[5] as usize;
    let t = plain[6] as usize;
    let at = 12 + widths::words(plain[0], size + 1 + size / 2 + s + s + 2);
    places::count(&plain[at..at + t]) * plain[3] as usize
}

// The reads of a batch of so many tables, by those of its plain stream: level 0 is read in each table.
fn all_reads(plain: &[u32], count: usize, reads: usize) -> usize
    requires { (Handed plain.now) × ((1 ≤ count) × ((count ≤ 8) × (reads ≤ 4608))) }
    ensures { result ≡ all_reads count plain.now reads }
{
    if plain[4] == 0 {
        return count * reads;
    }
    reads + (count - 1) * first_reads(plain)
}

// Is this the number of a refusal of an out coin?
fn of_out_coin(number: u32) -> bool
    ensures { result ≡ (eqb number 7 || eqb number 14) }
{
    if number == 7 {
        return true;
    }
    number == 14
}

// The verdict on a batch of so many tables, by its plain stream, whose word numbers are higher in the batch.
fn judged(plain: &[u32], count: usize, shift: usize) -> Verdict
    requires { (Handed plain.now) × ((1 ≤ count) × ((count ≤ 8) × (shift ≤ 7181))) }
    ensures { verdict_of result ≡ by_plain shift count plain.now }
{
    let v = deciding::deciding(Edition::One, plain);
    let outcome = v.outcome;
    let reads = v.reads;
    let Outcome::Refused(number, place) = outcome else {
        return Verdict {
            outcome: Outcome::Accepted,
            reads: all_reads(plain, count, reads),
        };
    };
    if of_out_coin(number) {
        return Verdict {
            outcome: Outcome::Refused(number, place + shift),
            reads: 0,
        };
    }
    Verdict {
        outcome: Outcome::Refused(number, place),
        reads: all_reads(plain, count, reads),
    }
}

// The verdict on a file that passes reading as a batch, of which the words lent hold the plain stream, past as many as a batch has more. What these were is told by
// the sheet and the number of tables, which are read from the file again.
fn judged_file(file: &[u8], words: &[u32]) -> Verdict
    requires file_value { batch_reading file.now ≡ accepted }
    requires words_value { drop (higher_by (batch_sheet file.now) (batch_number file.now)) words.now ≡ plain_words (stream_of file.now) }
    ensures { verdict_of result ≡ verify_batch file.now }
{
    let mut sheet = [0u32; 12];
    reader::sheet_of(file, &mut sheet);
    let count = stream::word(file, 48) as usize;
    let shift = batch_sheet::shift(&sheet, count);
    judged(&words[shift..], count, shift)
}

// The verdict on a file of any length and content as a batch. It is only read.
pub fn verify_batch(file: &[u8]) -> Verdict
    ensures { verdict_of result ≡ verify_batch file.now }
{
    let mut words = [0u32; WORDS];
    let read = batch_reading::read(file, &mut words);
    if let Outcome::Refused(number, place) = read {
        return Verdict {
            outcome: Outcome::Refused(number, place),
            reads: 0,
        };
    }
    judged_file(file, &words[..127 * (file.len() / 512)])
}
