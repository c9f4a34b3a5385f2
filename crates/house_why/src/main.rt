// Reads an image from standard input, and writes the plan of the house setting over it with the reason of each register sent, or the refusal.
#![tactic(auto)]

use input::{INPUT_ROOM, print_text, read_full};
use std::io;
use why_listing::why_listing;

// The bytes of memory for the text: no text is longer than 1634 (clause `short` of why_listing).
const TEXT_ROOM: usize = 2048;

fn main(rt: HostRuntime) -> io::Result<()> {
    let mut input = [0u8; INPUT_ROOM];
    let got = read_full(&mut rt.stdin(), &mut input)?;
    let mut text = [0u8; TEXT_ROOM];
    let end = why_listing(&mut text, &input[..got]);
    print_text(&rt, &text, end)
}
