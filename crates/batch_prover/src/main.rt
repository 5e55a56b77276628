// The program `prove-batch`: reads an order for a batch on standard input, as words, and writes the honest batch on standard output, or a refusal on standard error.
#![tactic(auto)]

fn main(rt: HostRuntime) {
    files::prove_batch(&mut rt.stdin(), &mut rt.stdout(), &mut rt.stderr());
}
