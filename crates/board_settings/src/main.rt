// Reads an image from standard input, and prints the settings that it holds, one line for each field, or `REFUSED number field` and what is at fault.
#![tactic(auto)]

use adv7194_bus::board::ALL_KNOWN;
use adv7194_listing::{TEXT_WIDTH, settings_text};
use input::{INPUT_ROOM, print_text, read_full};
use std::io;

// All of the image's registers are known. Any text has room.
fn main(rt: HostRuntime) -> io::Result<()> {
    let mut input = [0u8; INPUT_ROOM];
    let got = read_full(&mut rt.stdin(), &mut input)?;
    let mut text = [0u8; TEXT_WIDTH];
    let end = settings_text(&input[..got], ALL_KNOWN, &mut text);
    print_text(&rt, &text, end)
}
