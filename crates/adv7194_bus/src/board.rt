// A board: its registers' bytes, and which of them are known.
ghost use Rattle.std.specs.Prelude.{◌≡◌, List, ℕ, length};
ghost use Rattle.bus.specs.Known.{known_by};
ghost use Rattle.bus.specs.Lent.{chip_at};
ghost use Rattle.adv7194_bus.specs.Kind.{register_count, adv7194};
ghost use Rattle.adv7194_bus.specs.Board.{board_of};

use crate::{DROPPED, REGISTERS};
use bus::chip::{Event, State};
use bus::image::copied;
use bus::known::known_by;

// A board's registers, and the map of those that are known: bit r for register r. The byte of a register that is not known means nothing; bits past the
// last register are ignored. Bytes and a map, and not an `Option` a register: C's record has this layout, and such a byte goes back as it came.
#[derive(Clone, Copy)]
pub struct Board {
    pub registers: [u8; 54],
    pub known: u64,
}

// The map of all registers.
pub const ALL_KNOWN: u64 = 0x3F_FFFF_FFFF_FFFF;

// The board of an image with a byte a register, of which those in the map are known.
pub fn board_of(image: &[u8], known: u64) -> Board
    requires { length image.now ≡ register_count }
    ensures answer { result ≡ board_of image.now known }
{
    Board {
        registers: copied(image),
        known,
    }
}

// The known registers after an event at an ADV7194, whatever its address and the bytes that it holds.
pub fn known_after(state: State, event: Event, known: u64) -> u64
    ensures answer { (own : ℕ) (bytes : List ℕ) → result ≡ known_by (adv7194 own) (chip_at state.phase state.pointer bytes) known event }
{
    known_by(state, event, DROPPED, REGISTERS as usize, known)
}
