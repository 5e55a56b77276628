// What the programs do that write a file, or the nearest polynomial's words: they read, and write these, or a refusal on a writer of its own. Each answers whether
// all of it was written.
#![tactic(auto)]

ghost use Rattle.std.specs.Prelude.{◌≡◌, ◌≤◌, true, length, take};
ghost use Rattle.std.specs.Io.KnownBytes.{Appends};
ghost use Rattle.edition.specs.Meaning.{edition_of};
ghost use Rattle.line.specs.Text.{text_of};
ghost use Rattle.program_output.specs.Output.{batch_written, convert_written, prove_written};
ghost use Rattle.nearest_bytes.specs.NearestInput.{nearest_written};
ghost use Rattle.input.specs.Told.{Tells};

use edition::Edition;
use program_output::Written;
use std::io::{Read, Write};

// Proves an order, given as words: a sheet of the edition, the coefficients and the coins, one after the other. Of a longer input the first 16,384 bytes are
// read; no order that is done is so long.
pub fn prove_input<R: Read, W: Write, E: Write>(
    e: Edition,
    reader: &mut R,
    out: &mut W,
    err: &mut E,
) -> bool
    ensures output { result ≡ true → Tells 16384 (λ bytes. (prove_written (edition_of e) bytes).output) (R.remaining reader.old) (W.contents out.old) (W.contents out.new) }
    ensures error { result ≡ true → Tells 16384 (λ bytes. (prove_written (edition_of e) bytes).error) (R.remaining reader.old) (E.contents err.old) (E.contents err.new) }
{
    let mut bytes = [0u8; 16384];
    let Ok(n) = input::fill(reader, &mut bytes) else {
        let _ = input::not_read(err);
        return false;
    };
    let mut output = [0u8; 34304];
    let written = program_output::prove(e, input::front(&bytes, n), &mut output);
    deliver(written, &output, out, err)
}

// Proves an order for a batch, given as words: a sheet of edition 1, the number of tables and their bounds, the coefficients and the coins. Of a longer input the
// first 32,768 bytes are read; no order that is done is so long.
pub fn prove_batch<R: Read, W: Write, E: Write>(reader: &mut R, out: &mut W, err: &mut E) -> bool
    ensures output { result ≡ true → Tells 32768 (λ bytes. (batch_written bytes).output) (R.remaining reader.old) (W.contents out.old) (W.contents out.new) }
    ensures error { result ≡ true → Tells 32768 (λ bytes. (batch_written bytes).error) (R.remaining reader.old) (E.contents err.old) (E.contents err.new) }
{
    let mut bytes = [0u8; 32768];
    let Ok(n) = input::fill(reader, &mut bytes) else {
        let _ = input::not_read(err);
        return false;
    };
    let mut output = [0u8; 50688];
    let written = program_output::prove_batch(input::front(&bytes, n), &mut output);
    deliver(written, &output, out, err)
}

// Finds the nearest polynomial to a table, given as words: a sheet of edition 1, then table 0. Of a longer input the first 32,768 bytes are read; no order that is
// done is so long.
pub fn find_nearest<R: Read, W: Write, E: Write>(reader: &mut R, out: &mut W, err: &mut E) -> bool
    ensures output { result ≡ true → Tells 32768 (λ bytes. (nearest_written bytes).output) (R.remaining reader.old) (W.contents out.old) (W.contents out.new) }
    ensures error { result ≡ true → Tells 32768 (λ bytes. (nearest_written bytes).error) (R.remaining reader.old) (E.contents err.old) (E.contents err.new) }
{
    let mut bytes = [0u8; 32768];
    let Ok(n) = input::fill(reader, &mut bytes) else {
        let _ = input::not_read(err);
        return false;
    };
    let mut output = [0u8; 12292];
    let written = nearest_bytes::find(input::front(&bytes, n), &mut output);
    deliver(written, &output, out, err)
}

// Converts a file of the other edition to this one. Of a longer input the first 65,536 bytes are read; no file that is converted is so long.
pub fn convert_file<R: Read, W: Write, E: Write>(
    to: Edition,
    reader: &mut R,
    out: &mut W,
    err: &mut E,
) -> bool
    ensures output { result ≡ true → Tells 65536 (λ bytes. (convert_written (edition_of to) bytes).output) (R.remaining reader.old) (W.contents out.old) (W.contents out.new) }
    ensures error { result ≡ true → Tells 65536 (λ bytes. (convert_written (edition_of to) bytes).error) (R.remaining reader.old) (E.contents err.old) (E.contents err.new) }
{
    let mut bytes = [0u8; 65536];
    let Ok(n) = input::fill(reader, &mut bytes) else {
        let _ = input::not_read(err);
        return false;
    };
    let mut output = [0u8; 34304];
    let written = program_output::convert(to, input::front(&bytes, n), &mut output);
    deliver(written, &output, out, err)
}

// What goes to the output, of the N places lent for it, and what goes to the writer of refusals.
fn deliver<const N: usize, W: Write, E: Write>(
    written: Written,
    output: &[u8; N],
    out: &mut W,
    err: &mut E,
) -> bool
    requires { (written.length ≤ N) × ((written.error.length ≤ 64) × (N ≤ 65536)) }
    ensures output { result ≡ true → Appends (W.contents out.old) (W.contents out.new) (take written.length output.now) }
    ensures error { result ≡ true → Appends (E.contents err.old) (E.contents err.new) (text_of written.error) }
{
    let all: &[u8] = output;
    write(written, all, out, err)
}

// Writes the front of the output, and the line. Where the output fails it says so, before the line.
fn write<W: Write, E: Write>(written: Written, output: &[u8], out: &mut W, err: &mut E) -> bool
    requires { (written.length ≤ length output.now) × (written.error.length ≤ 64) }
    ensures output { result ≡ true → Appends (W.contents out.old) (W.contents out.new) (take written.length output.now) }
    ensures error { result ≡ true → Appends (E.contents err.old) (E.contents err.new) (text_of written.error) }
{
    let length = written.length;
    let error = written.error;
    if out.write_all(&output[..length]).is_err() {
        let _ = err.write_all(b"not written\n");
        let _ = report::send(err, error);
        return false;
    }
    report::send(err, error).is_ok()
}
