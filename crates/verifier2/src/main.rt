// The program `check2`: judges a transcript file of edition 2 on standard input and prints the verdict.
#![tactic(auto)]

use edition::Edition;

fn main(rt: HostRuntime) {
    report::check(
        Edition::Two,
        &mut rt.stdin(),
        &mut rt.stdout(),
        &mut rt.stderr(),
    );
}
