// The program `check-batch`: judges a batch on standard input and prints the verdict.
#![tactic(auto)]

fn main(rt: HostRuntime) {
    report::check_batch(&mut rt.stdin(), &mut rt.stdout(), &mut rt.stderr());
}
