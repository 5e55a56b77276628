// The stated load, whose sheets are of edition 1: one run, the lines of a thousand, and what the program prints.
#![tactic(auto)]

ghost use Rattle.std.specs.Prelude.{◌≡◌, ℕ, ◌+◌, ◌*◌, ◌≤◌, take};
ghost use mathlib.Core.List.{flat_map};
ghost use Rattle.definition.specs.Load.{draw_input, load_lines, load_output, verdict_on};
ghost use Rattle.outcome.specs.Meaning.{verdict_of};
ghost use Rattle.load.specs.Runs.{lines_from};

use generator::Generator;
use outcome::{Outcome, Verdict};

// The verdict of a run, and the generator as it then is.
#[derive(Clone, Copy)]
pub struct Ran {
    pub verdict: Verdict,
    pub next: Generator,
}

// Places for the file of any sheet: 67 blocks.
const FILE_BYTES: usize = 34304;

// The verdict on the honest file of what is drawn: that of every v that draws it.
fn honest_verdict(w: &[u32], coefficients: &[u32], coins: &[u32]) -> Verdict
    ensures { (v : ℕ) → record { sheet = w.now; coefficients = coefficients.now; coins = coins.now } ≡ (draw_input v).value → verdict_of result ≡ verdict_on (draw_input v).value }
{
    let mut output = [0u8; FILE_BYTES];
    let checked = selfcheck::prove_then_verify(w, coefficients, coins, &mut output);
    checked.verdict
}

// One run: a sheet, coefficients and coins are drawn, their file is proved, and the file is verified.
pub fn run(generator: Generator) -> Ran
    ensures verdict_value { verdict_of result.verdict ≡ verdict_on (draw_input generator.v).value }
    ensures v_value { result.next.v ≡ (draw_input generator.v).next }
{
    let input = run_input::draw(generator);
    let w = input.sheet;
    let coefficients = input.coefficients;
    let coins = input.coins;
    let degree = input.degree;
    let due = input.due;
    let next = input.next;
    let verdict = honest_verdict(&w, &coefficients[..degree], &coins[..due]);
    Ran {
        verdict: verdict,
        next: next,
    }
}

// The lines of so many runs on one generator, at the front of the output; answers the place behind them.
fn run_lines(runs: usize, mut generator: Generator, out: &mut [u8; 34000]) -> usize
    requires { 34 * runs ≤ 34000 }
    ensures out_after { take result out.new ≡ lines_from runs generator.v }
    ensures upper_bound { result ≤ 34000 }
{
    let mut place = 0;
    for _ in 0..runs {
        let done = run(generator);
        let verdict = done.verdict;
        generator = done.next;
        place = line::write(line::of_verdict(verdict), place, out);
    }
    place
}

// The lines of a load; 12 for seed 0.
pub fn lines(seed: u32, out: &mut [u8; 34000]) -> usize
    ensures out_after { take result out.new ≡ flat_map (λ line. line) (load_lines seed) }
    ensures upper_bound { result ≤ 34000 }
{
    if seed == 0 {
        let refused = Verdict {
            outcome: Outcome::Refused(12, 0),
            reads: 0,
        };
        return line::write(line::of_verdict(refused), 0, out);
    }
    run_lines(1000, Generator { v: seed }, out)
}

// What the program prints on an input, whose first four bytes are the seed. Missing bytes are 0.
pub fn output(bytes: &[u8], out: &mut [u8; 34000]) -> usize
    ensures out_after { take result out.new ≡ load_output bytes.now }
    ensures upper_bound { result ≤ 34000 }
{
    lines(generator::seed(bytes), out)
}
