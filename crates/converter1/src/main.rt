// The program `convert 1`: reads a file of edition 2 on standard input and writes it as one of edition 1 on standard output, or a refusal on standard error.
#![tactic(auto)]

use edition::Edition;

fn main(rt: HostRuntime) {
    files::convert_file(
        Edition::One,
        &mut rt.stdin(),
        &mut rt.stdout(),
        &mut rt.stderr(),
    );
}
