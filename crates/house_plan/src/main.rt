// Reads an image from standard input, and writes the plan of the house setting over it, or the refusal.
#![tactic(auto)]

use house_listing::house_listing;
use input::{INPUT_ROOM, print_text, read_full};
use std::io;

// The bytes of memory for the text: no text is longer than 138 (theorem `short` of house_listing).
const TEXT_ROOM: usize = 256;

fn main(rt: HostRuntime) -> io::Result<()> {
    let mut input = [0u8; INPUT_ROOM];
    let got = read_full(&mut rt.stdin(), &mut input)?;
    let mut text = [0u8; TEXT_ROOM];
    let end = house_listing(&mut text, &input[..got]);
    print_text(&rt, &text, end)
}
