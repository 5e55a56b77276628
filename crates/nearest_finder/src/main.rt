// The program `nearest`: reads a sheet and table 0 on standard input, as words, and writes the nearest polynomial's words on standard output, or a refusal on standard
// error.
#![tactic(auto)]

fn main(rt: HostRuntime) {
    files::find_nearest(&mut rt.stdin(), &mut rt.stdout(), &mut rt.stderr());
}
