// Verify: a transcript file of any length and content, of either edition, accepted or refused with number and place, and the count of reads.
#![tactic(auto)]

ghost use Rattle.std.specs.Prelude.{◌≡◌, ◌*◌, ◌/◌, ◌≤◌, min, length};
ghost use Rattle.definition.specs.Reading.{reading};
ghost use Rattle.definition.specs.Sheet.{edition2};
ghost use Rattle.definition.specs.Verify.{verify, verify_in};
ghost use Rattle.edition.specs.Meaning.{edition_of};
ghost use Rattle.outcome.specs.Meaning.{outcome_of, verdict_of};

use edition::Edition;
use outcome::{Outcome, Verdict};

// Places for the words of the largest file that can be accepted, 67 blocks, and one block more.
const ANY_WORDS: usize = 8636;

// Places for the words of 8 blocks.
const SMALL_WORDS: usize = 1016;

// Places for the words of 32 blocks.
const MIDDLE_WORDS: usize = 4064;

// Places for the words of one block.
const BLOCK_WORDS: usize = 127;

// What reading says of a file of the edition: accepted, or one of the refusals 1 to 6. A short one is spared the clearing of many places.
pub fn read_in(e: Edition, file: &[u8]) -> Outcome
    ensures { outcome_of result ≡ reading (edition_of e) file.now }
{
    if file.len() <= 4096 {
        let mut words = [0u32; SMALL_WORDS];
        return reading::read(e, file, &mut words);
    }
    let mut words = [0u32; ANY_WORDS];
    reading::read(e, file, &mut words)
}

// The verdict on a file of the edition, by way of the places lent.
fn verify_with(e: Edition, file: &[u8], words: &mut [u32]) -> Verdict
    requires { 127 * min (length file.now / 512) 68 ≤ length words.old }
    ensures { verdict_of result ≡ verify_in (edition_of e) file.now }
{
    let read = reading::read(e, file, words);
    if let Outcome::Refused(number, place) = read {
        return Verdict {
            outcome: Outcome::Refused(number, place),
            reads: 0,
        };
    }
    deciding::deciding(e, &words[..127 * (file.len() / 512)])
}

// The verdict by way of N places of its own, which hold the words of the file. Each size is a function by itself, so that the stack holds those that are used alone.
fn judge<const N: usize>(e: Edition, file: &[u8]) -> Verdict
    requires { (127 * min (length file.now / 512) 68 ≤ N) × (N ≤ 8636) }
    ensures { verdict_of result ≡ verify_in (edition_of e) file.now }
{
    let mut words = [0u32; N];
    verify_with(e, file, &mut words)
}

// The verdict on a file of the edition. It is only read. A short one is spared the clearing of many places.
pub fn verify_in(e: Edition, file: &[u8]) -> Verdict
    ensures { verdict_of result ≡ verify_in (edition_of e) file.now }
{
    if file.len() <= 512 {
        return judge::<BLOCK_WORDS>(e, file);
    }
    if file.len() <= 4096 {
        return judge::<SMALL_WORDS>(e, file);
    }
    if file.len() <= 16384 {
        return judge::<MIDDLE_WORDS>(e, file);
    }
    judge::<ANY_WORDS>(e, file)
}

// The verdict on a file of edition 1.
pub fn verify(file: &[u8]) -> Verdict
    ensures { verdict_of result ≡ verify file.now }
{
    verify_in(Edition::One, file)
}

// The same of edition 2, under a name of its own, as the C function has one.
pub fn verify_2(file: &[u8]) -> Verdict
    ensures { verdict_of result ≡ verify_in edition2 file.now }
{
    verify_in(Edition::Two, file)
}
