// Reads characters from standard input, two or four bytes, and writes the plan of these captions, or the refusal.
#![tactic(auto)]

use caption_listing::caption_listing;
use input::{INPUT_ROOM, print_text, read_full};
use std::io;

// The bytes of memory for the text: no text is longer than 27 (theorem `short` of caption_listing).
const TEXT_ROOM: usize = 32;

fn main(rt: HostRuntime) -> io::Result<()> {
    let mut input = [0u8; INPUT_ROOM];
    let got = read_full(&mut rt.stdin(), &mut input)?;
    let mut text = [0u8; TEXT_ROOM];
    let end = caption_listing(&mut text, &input[..got]);
    print_text(&rt, &text, end)
}
