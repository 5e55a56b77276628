// The program `check`: judges a transcript file on standard input and prints the verdict.
#![tactic(auto)]

use edition::Edition;

fn main(rt: HostRuntime) {
    report::check(
        Edition::One,
        &mut rt.stdin(),
        &mut rt.stdout(),
        &mut rt.stderr(),
    );
}
