// Reading an input whole into lent memory, and printing the text that answers it.
#![tactic(auto)]

ghost use Rattle.std.specs.Prelude.{◌≡◌, ◌<◌, ◌≤◌, length, take, IfOk, None, Ok};
ghost use Rattle.std.specs.Option.{ForSome};
ghost use Rattle.std.specs.Io.{ReadsAtMost};
ghost use Rattle.std.specs.Io.KnownBytes.{Consumes, IsAtEnd};

use std::io;
use std::io::Read;

// The bytes of memory for a program's input: more than it may have, so that a byte too many is seen.
pub const INPUT_ROOM: usize = 4096;

// Reads until the lent memory is full or the input has ended: how many bytes now stand at its start. After an error its length is what it was, and which bytes
// it holds isn't said.
pub fn read_full<R: Read>(input: &mut R, out: &mut [u8]) -> io::Result<usize>
    ensures bound { ReadsAtMost result out.new }
    ensures kept { length out.new ≡ length out.old }
    ensures bytes { IfOk result (λ n. Consumes (R.remaining input.old) (R.remaining input.new) (take n out.new)) }
    ensures end { IfOk result (λ n. n < length out.old → IsAtEnd (R.remaining input.new)) }
{
    let mut done = 0;
    // A read gives as many bytes as it has: no iterator goes over such steps.
    while done < out.len() {
        let n = input.read(&mut out[done..])?;
        if n == 0 {
            break;
        }
        done += n;
    }
    Ok(done)
}

// Prints the text that stands before a place of the lent memory; nothing where there is no place after it, which is where the memory was too short.
pub fn print_text(rt: &impl Print, text: &[u8], end: Option<usize>) -> io::Result<()>
    requires within { ForSome end (λ n. n ≤ length text.now) }
    ensures nothing { end ≡ None → result ≡ Ok tt }
{
    match end {
        Some(end) => rt.write_all(&text[..end]),
        None => Ok(()),
    }
}
