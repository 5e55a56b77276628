// What the programs do that print a verdict: they read, have its line made, and write it.
#![tactic(auto)]

ghost use Rattle.std.specs.Prelude.{◌≡◌, ◌≤◌, true, OnOk};
ghost use Rattle.std.specs.Io.KnownBytes.{Appends};
ghost use Rattle.edition.specs.Meaning.{edition_of};
ghost use Rattle.line.specs.Text.{text_of};
ghost use Rattle.input.specs.Told.{Tells};
ghost use Rattle.program_output.specs.Output.{check_batch_text, check_text, read_text};

use edition::Edition;
use line::Line;
use std::io;
use std::io::{Read, Write};

// Writes the bytes of a line.
pub fn send<W: Write>(to: &mut W, line: Line) -> io::Result<()>
    requires { line.length ≤ 64 }
    ensures { OnOk result (Appends (W.contents to.old) (W.contents to.new) (text_of line)) }
{
    let bytes = line.bytes;
    let length = line.length;
    to.write_all(&bytes[..length])
}

// Verifies what a reader gives as a file of the edition, at most its first 65,536 bytes, and answers whether the verdict was written. Where a read fails there is
// no verdict.
pub fn check<R: Read, W: Write, E: Write>(
    e: Edition,
    reader: &mut R,
    out: &mut W,
    err: &mut E,
) -> bool
    ensures { result ≡ true → Tells 65536 (check_text (edition_of e)) (R.remaining reader.old) (W.contents out.old) (W.contents out.new) }
{
    let mut buffer = [0u8; 65536];
    let Ok(n) = input::fill(reader, &mut buffer) else {
        let _ = input::not_read(err);
        return false;
    };
    let line = program_output::check(e, input::front(&buffer, n));
    send(out, line).is_ok()
}

// Verifies what a reader gives as a batch, in the same way.
pub fn check_batch<R: Read, W: Write, E: Write>(reader: &mut R, out: &mut W, err: &mut E) -> bool
    ensures { result ≡ true → Tells 65536 check_batch_text (R.remaining reader.old) (W.contents out.old) (W.contents out.new) }
{
    let mut buffer = [0u8; 65536];
    let Ok(n) = input::fill(reader, &mut buffer) else {
        let _ = input::not_read(err);
        return false;
    };
    let line = program_output::check_batch(input::front(&buffer, n));
    send(out, line).is_ok()
}

// Reads what a reader gives in the same way, as the first of verify's two steps does, and decides nothing.
pub fn read<R: Read, W: Write, E: Write>(
    e: Edition,
    reader: &mut R,
    out: &mut W,
    err: &mut E,
) -> bool
    ensures { result ≡ true → Tells 65536 (read_text (edition_of e)) (R.remaining reader.old) (W.contents out.old) (W.contents out.new) }
{
    let mut buffer = [0u8; 65536];
    let Ok(n) = input::fill(reader, &mut buffer) else {
        let _ = input::not_read(err);
        return false;
    };
    let line = program_output::read(e, input::front(&buffer, n));
    send(out, line).is_ok()
}
