// Bytes shifted by a few bits, each with the low bits of the one before it in front.
#![tactic(auto)]

ghost use Rattle.std.specs.Prelude.{◌≡◌, ◌+◌, ◌≤◌, ◌<◌, length};
ghost use Rattle.std.proofs.lemmas.List.Edits.{sets};
ghost use Rattle.shifting.specs.Shifted.{between as between_of, shifted, last_from};

// The values of a byte: what a number is multiplied by to stand before one.
const BYTE: u16 = 0x100;

// The byte that ends so many bits before the end of the second of two bytes.
fn between(before: u8, byte: u8, held: u32) -> u8
    requires { held < 8 }
    ensures answer { result ≡ between_of held before byte }
{
    (((before as u16 * BYTE + byte as u16) >> held) % BYTE) as u8
}

// Shifts bytes to a place, where another byte stands before them, and answers the last of them.
pub fn shift(from: &[u8], before: u8, held: u32, to: &mut [u8], at: usize) -> u8
    requires { (at + length from.now ≤ length to.old) × (held < 8) }
    ensures answer { result ≡ last_from before from.now }
    ensures memory { to.new ≡ sets to.old at (shifted held before from.now) }
{
    let mut last = before;
    for (i, &byte) in from.iter().enumerate() {
        to[at + i] = between(last, byte, held);
        last = byte;
    }
    last
}
