// Reads an image of an ADV7195 from standard input, and prints the settings that it holds, one line for each field, or `REFUSED number field`.
#![tactic(auto)]

use adv7195_listing::{TEXT_WIDTH, settings_text};
use input::{INPUT_ROOM, print_text, read_full};
use std::io;

// The text has room for any image's (clause `most` of settings_text).
fn main(rt: HostRuntime) -> io::Result<()> {
    let mut input = [0u8; INPUT_ROOM];
    let got = read_full(&mut rt.stdin(), &mut input)?;
    let mut text = [0u8; TEXT_WIDTH];
    let end = settings_text(&input[..got], &mut text);
    print_text(&rt, &text, end)
}
