// The program `load`: reads a seed on standard input, as one word, and prints the lines of its load.
#![tactic(auto)]

ghost use Rattle.std.specs.Prelude.{◌≡◌, ◌≤◌, true, take, OnOk};
ghost use Rattle.std.specs.Io.KnownBytes.{Appends};
ghost use Rattle.definition.specs.Load.{load_output};
ghost use Rattle.input.specs.Told.{Tells};

use std::io;
use std::io::{Read, Write};

fn main(rt: HostRuntime) {
    run(&mut rt.stdin(), &mut rt.stdout(), &mut rt.stderr());
}

// Reads the seed's bytes, and writes the lines of its load. The answer is whether they were written.
fn run<R: Read, W: Write, E: Write>(reader: &mut R, to: &mut W, err: &mut E) -> bool
    ensures { result ≡ true → Tells 4 load_output (R.remaining reader.old) (W.contents to.old) (W.contents to.new) }
{
    let mut bytes = [0u8; 4];
    let Ok(n) = input::fill(reader, &mut bytes) else {
        let _ = input::not_read(err);
        return false;
    };
    let mut out = [0u8; 34000];
    let length = load::output(input::front(&bytes, n), &mut out);
    send(to, &out, length).is_ok()
}

// Writes the first bytes of the output.
fn send<W: Write>(to: &mut W, out: &[u8; 34000], length: usize) -> io::Result<()>
    requires { length ≤ 34000 }
    ensures { OnOk result (Appends (W.contents to.old) (W.contents to.new) (take length out.now)) }
{
    let all: &[u8] = out;
    to.write_all(&all[..length])
}
