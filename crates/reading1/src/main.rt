// The program `read`: reads a transcript file on standard input, without deciding, and prints what reading says.
#![tactic(auto)]

use edition::Edition;

fn main(rt: HostRuntime) {
    report::read(
        Edition::One,
        &mut rt.stdin(),
        &mut rt.stdout(),
        &mut rt.stderr(),
    );
}
