// The program `domains2`: reads a sheet of edition 2 on standard input, as `domains` reads one of edition 1.
#![tactic(auto)]

ghost use Rattle.std.specs.Prelude.{◌≡◌, ◌≤◌, true, take, OnOk};
ghost use Rattle.std.specs.Io.KnownBytes.{Appends};
ghost use Rattle.definition.specs.Sheet.{edition2};
ghost use Rattle.input.specs.Told.{Tells};
ghost use Rattle.listing.specs.Listing.{listing};

use std::io;
use std::io::{Read, Write};

fn main(rt: HostRuntime) {
    run(&mut rt.stdin(), &mut rt.stdout(), &mut rt.stderr());
}

// Reads at most 16,384 bytes, and writes what is printed of them. The answer is whether it was written.
fn run<R: Read, W: Write, E: Write>(reader: &mut R, to: &mut W, err: &mut E) -> bool
    ensures { result ≡ true → Tells 16384 (listing edition2) (R.remaining reader.old) (W.contents to.old) (W.contents to.new) }
{
    let mut bytes = [0u8; 16384];
    let Ok(n) = input::fill(reader, &mut bytes) else {
        let _ = input::not_read(err);
        return false;
    };
    let mut out = [0u8; 131072];
    let length = listing::output_2(input::front(&bytes, n), &mut out);
    send(to, &out, length).is_ok()
}

// Writes the first bytes of the output.
fn send<W: Write>(to: &mut W, out: &[u8; 131072], length: usize) -> io::Result<()>
    requires { length ≤ 131072 }
    ensures { OnOk result (Appends (W.contents to.old) (W.contents to.new) (take length out.now)) }
{
    let all: &[u8] = out;
    to.write_all(&all[..length])
}
