// Lines of an input.
ghost use Rattle.std.specs.Prelude.{◌≡◌, ◌≤◌, length, IfOk};

use input::read_full;
use std::io;
use std::io::Read;

// Reads a line: one more than its characters, of which the lent memory holds so many, or 0 where the input has ended. After an error the lent memory is as
// long as it was, and which bytes it holds isn't said.
pub fn read_line<R: Read>(input: &mut R, line: &mut [u8]) -> io::Result<usize>
    ensures within { IfOk result (λ n. n ≤ length line.new) }
    ensures kept { length line.new ≡ length line.old }
{
    for (n, place) in line.iter_mut().enumerate() {
        let mut one = [0u8; 1];
        let got = read_full(input, &mut one)?;
        if got == 0 && n == 0 {
            return Ok(0);
        }
        if got == 0 || one[0] == b'\n' {
            return Ok(n + 1);
        }
        *place = one[0];
    }
    Ok(line.len())
}
