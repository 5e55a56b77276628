// The program `read2`: reads a transcript file of edition 2 on standard input, without deciding, and prints what reading says.
#![tactic(auto)]

use edition::Edition;

fn main(rt: HostRuntime) {
    report::read(
        Edition::Two,
        &mut rt.stdin(),
        &mut rt.stdout(),
        &mut rt.stderr(),
    );
}
