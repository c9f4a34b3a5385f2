// Answers records, a line each, from standard input. A record is a word, decimal numbers, and lists of bytes in hexadecimal. A space stands before each
// number and between bytes, a colon before the first list and a semicolon before the second:
//
//   plan ADDRESS SETTINGS..:IMAGE..;LENT..  planning into the lent bytes: length, transactions, bus bytes, and the lent bytes after it
//   why SUBADDRESS SETTINGS..:IMAGE..       why planning sends a register: the reason and what it names, two numbers (0 not sent, 1 unknown, 2 a field
//                                           changed, 3 must be zero, 4 sent with the subcarrier word, 5 between two needed registers)
//   play USED OWN:IMAGE..;PLAN..            playing: 1 where every byte was acknowledged, and the image after it
//   read:IMAGE..                            reading: the 49 settings
//   house COUNT                             the house setting in so many lent numbers, at most 64, each of them 77 before: the numbers after it
//   caption ADDRESS E O CHARACTERS..;LENT..  planning captions into the lent bytes, E characters of the extended pair and then O of the ordinary one, at
//                                           most eight of each: answered as plan is
//   playcap USED OWN:IMAGE..;PLAN..         playing captions: answered as play is
//   readcap PAIR:IMAGE..                    reading a pair of captions, 0 extended, 1 ordinary: its two characters
//   events OWN:IMAGE..;EVENTS..             a fresh chip at bus events: a byte from the master, S start, P stop, R a byte read and acknowledged,
//                                           N one read and not acknowledged. For each the byte that the master reads with + acknowledged, - not
//                                           acknowledged, . not asked; then the pointer, the phase (I idle, A awaits the address, S the subaddress,
//                                           D data, T sends) and the image
//   plan7195 ADDRESS SETTINGS..:IMAGE..;LENT..  planning for the ADV7195: answered as plan is
//   play7195 USED OWN:IMAGE..;PLAN..        playing a plan of the ADV7195's: answered as play is
//   read7195:IMAGE..                        reading an image of the ADV7195's: the 58 settings
//   known:FLAGS..                           which registers are known in the records after it: eight bytes, the highest first, bit r for register r; all
//                                           are where no line says so
//   limit N                                 the most data bytes in one transaction, for the records of planning after it: 54 where no line says so
//   code FIELD SETTING, setting FIELD:CODE  the code of a field's setting, the setting of its code
//
// What is answered stands after `ok`; a refusal is `REFUSED number field`. Where a line gave flags, `play`, `playcap` and `events` end in `known` and
// the flags after the call, eight bytes likewise; flags and limits don't touch the ADV7195's records. A line that is no record is answered
// `NOT A RECORD`, an empty line and a comment, which begins with #, by an empty line.
#![tactic(auto)]

mod calls;
mod chip;
mod codings;
mod context;
mod forms;
mod kinds;
mod print;
mod progressive;

use context::initial;
use records::lines::read_line;
use std::io;

// Room for a line and its end.
const LINE_WIDTH: usize = 1024;

// A proved loop has to end, and nothing says that the input does: turns are counted up to a number that no run uses up.
fn main(rt: HostRuntime) -> io::Result<()> {
    let mut given = initial();
    let mut input = rt.stdin();
    for _ in 0..u64::MAX {
        let mut line = [0u8; LINE_WIDTH];
        let n = read_line(&mut input, &mut line)?;
        if n == 0 {
            return Ok(());
        }
        given = kinds::answer(&rt, &line[0..n - 1], given)?;
    }
    Ok(())
}
