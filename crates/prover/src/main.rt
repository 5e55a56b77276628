// The program `prove`: reads an order on standard input, as words, and writes the honest file on standard output, or a refusal on standard error.
#![tactic(auto)]

use edition::Edition;

fn main(rt: HostRuntime) {
    files::prove_input(
        Edition::One,
        &mut rt.stdin(),
        &mut rt.stdout(),
        &mut rt.stderr(),
    );
}
