// Verify in two steps, for whoever receives a file long before he may decide: reading, and deciding. Both take the file's bytes, and nothing is handed over.
#![tactic(auto)]

ghost use Rattle.std.specs.Prelude.{◌≡◌};
ghost use Rattle.definition.specs.Reading.{reading};
ghost use Rattle.definition.specs.Sheet.{edition1, edition2};
ghost use Rattle.definition.specs.Verify.{decide_file, verify, verify_in};
ghost use Rattle.edition.specs.Meaning.{edition_of};
ghost use Rattle.outcome.specs.Meaning.{outcome_of, verdict_of};

use edition::Edition;
use outcome::{Outcome, Verdict};

// The first step, of a file of edition 1: accepted, or one of the refusals 1 to 6.
pub fn read(file: &[u8]) -> Outcome
    ensures { outcome_of result ≡ reading edition1 file.now }
{
    verify::read_in(Edition::One, file)
}

// The same of edition 2, under a name of its own, as the C function has one.
pub fn read_2(file: &[u8]) -> Outcome
    ensures { outcome_of result ≡ reading edition2 file.now }
{
    verify::read_in(Edition::Two, file)
}

// The second step, of a file of the edition. One that fails reading gets reading's refusal again, so that nobody can skip the first.
pub fn decide_in(e: Edition, file: &[u8]) -> Verdict
    ensures { verdict_of result ≡ decide_file (edition_of e) file.now }
{
    verify::verify_in(e, file)
}

// The second step, of a file of edition 1.
pub fn decide(file: &[u8]) -> Verdict
    ensures { verdict_of result ≡ decide_file edition1 file.now }
{
    decide_in(Edition::One, file)
}

// The same of edition 2, under a name of its own, as the C function has one.
pub fn decide_2(file: &[u8]) -> Verdict
    ensures { verdict_of result ≡ decide_file edition2 file.now }
{
    decide_in(Edition::Two, file)
}

// Both steps in turn: a file is decided only where reading accepts it. The verdict is verify's.
fn read_then_decide_in(e: Edition, file: &[u8]) -> Verdict
    ensures { verdict_of result ≡ verify_in (edition_of e) file.now }
{
    let read = verify::read_in(e, file);
    if let Outcome::Refused(number, place) = read {
        return Verdict {
            outcome: Outcome::Refused(number, place),
            reads: 0,
        };
    }
    decide_in(e, file)
}

// Both steps in turn, of a file of edition 1.
pub fn read_then_decide(file: &[u8]) -> Verdict
    ensures { verdict_of result ≡ verify file.now }
{
    read_then_decide_in(Edition::One, file)
}

// The same of edition 2, under a name of its own, as the C function has one.
pub fn read_then_decide_2(file: &[u8]) -> Verdict
    ensures { verdict_of result ≡ verify_in edition2 file.now }
{
    read_then_decide_in(Edition::Two, file)
}
