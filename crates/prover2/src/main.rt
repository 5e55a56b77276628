// The program `prove2`: the same as `prove`, with a sheet of edition 2.
#![tactic(auto)]

use edition::Edition;

fn main(rt: HostRuntime) {
    files::prove_input(
        Edition::Two,
        &mut rt.stdin(),
        &mut rt.stdout(),
        &mut rt.stderr(),
    );
}
