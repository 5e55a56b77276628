// What the programs read: the bytes that a reader gives, where every read succeeds.
#![tactic(auto)]

ghost use Rattle.std.specs.Prelude.{◌≡◌, ◌≤◌, length, take, OnOk, codes};
ghost use Rattle.std.specs.Io.KnownBytes.{Appends};
ghost use Rattle.input.specs.Count.{count_of, HoldsFront, ReadsFront};

use std::io;
use std::io::{Read, Write};

// Reads until the buffer is full, the input ends or a read fails. So many bytes are then at the front of the buffer; where a read failed, what came before
// is no whole input, and is not to be answered. A read gives as many bytes as it has, so no range says where the next begins.
pub fn fill<R: Read>(reader: &mut R, buffer: &mut [u8]) -> io::Result<usize>
    ensures buffer_len_unchanged { length buffer.new ≡ length buffer.old }
    ensures result_in_bounds { count_of result ≤ length buffer.old }
    ensures front { HoldsFront (R.remaining reader.old) result buffer.new }
    ensures rest { ReadsFront (R.remaining reader.old) (R.remaining reader.new) result buffer.new }
{
    let mut n: usize = 0;
    while n < buffer.len() {
        let more = reader.read(&mut buffer[n..])?;
        if more == 0 {
            break;
        }
        n += more;
    }
    Ok(n)
}

// The first n bytes of the buffer.
pub fn front(buffer: &[u8], n: usize) -> &[u8]
    ensures { result.now ≡ take n buffer.now }
{
    buffer.get(..n).unwrap_or(buffer)
}

// Says that a read failed.
pub fn not_read<W: Write>(to: &mut W) -> io::Result<()>
    ensures { OnOk result (Appends (W.contents to.old) (W.contents to.new) (codes "not read\n")) }
{
    to.write_all(b"not read\n")
}
