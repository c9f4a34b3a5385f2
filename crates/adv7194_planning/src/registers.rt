// The registers that a plan has to write, and those that it may.
ghost use Rattle.std.specs.Prelude.{◌≡◌, cond, not, ◌&&◌, ◌||◌, ℕ, length};
ghost use Rattle.bits.specs.Maps.{has};
ghost use Rattle.bus.specs.Registers.{differs, among};
ghost use Rattle.field_table.specs.Blocks.{is};
ghost use Rattle.adv7194_table.specs.Fields.{number_count};
ghost use Rattle.adv7194_table.specs.Blocks.{signalling};
ghost use Rattle.adv7194_signalling.specs.Signalling.{number_of};
ghost use Rattle.adv7194_settings.specs.Codes.{numbers_in};
ghost use Rattle.adv7194_settings.specs.Known.{fixes_all, fixes_some};
ghost use Rattle.adv7194_least.specs.Plan.{writable, with_word};
ghost use Rattle.adv7194_planning.specs.Aims.{aim_by, Comparable, Passing, MapsOf};

use adv7194_bus::board::Board;
use adv7194_bus::{BARRED, REGISTERS, WORD};
use adv7194_table::blocks::{SIGNALLING, block_of};
use adv7194_table::field_masks;
use planning::maps::differing;

// The map of the registers that a byte may be written to: all but the barred ones.
const WRITABLE: u64 = ((1 << REGISTERS) - 1) & !BARRED;

// The registers of which any settings and the must-be-zero bits fix every bit: 05, 0C to 10, 1D to 33.
const FIXED: u64 = 0xF_FFFF_E001_F020;

// Those of which settings that send signalling do as well: 19 to 1B.
const SIGNALS: u64 = 0xE00_0000;

// The registers of which any settings fix only some bits: 00 to 02.
const PARTLY: u64 = 0x7;

// The one of which settings without signalling do as well: 19.
const KIND: u64 = 0x200_0000;

// The kind of signalling that is none.
const OFF: i32 = 0;

// The first register of the word, 0C.
const WORD_FIRST: u64 = 1 << 0x0C;

// The registers are compared in two halves, each short enough for the compiler to write out: it then leaves out those without a bit.
const HALF: usize = 0x1B;

const END: usize = REGISTERS as usize;

// The registers that are needed by themselves, those that are needed, those that a plan may write, and those before which no transaction may end.
#[derive(Clone, Copy)]
pub struct RegisterMaps {
    pub must: u64,
    pub needed: u64,
    pub allowed: u64,
    pub held: u64,
}

// The registers where a wanted image differs from the starting one. The table of field masks decides which are compared: no others are set.
pub fn changed_registers(image: &[u8], wanted: &[u8]) -> u64
    requires { Comparable image.now wanted.now }
    ensures answer { (i : ℕ) → has result i ≡ differs image.now wanted.now i }
{
    let masks = field_masks();
    let low = differing(&masks[0..HALF], &image[0..HALF], &wanted[0..HALF]);
    let high = differing(&masks[HALF..END], &image[HALF..END], &wanted[HALF..END]);
    low | (high << HALF)
}

// Whether settings send signalling: its kind, the first of its numbers, isn't off.
fn sends(numbers: &[i32]) -> bool
    requires { length numbers.now ≡ number_count }
    ensures answer { result ≡ not (is 0 (number_of (numbers_in numbers.now signalling) 0)) }
{
    let kind = block_of(SIGNALLING).index;
    numbers[kind] != OFF
}

// The registers of which settings that pass the check and the must-be-zero bits fix every bit.
pub fn fixed_registers(numbers: &[i32]) -> u64
    requires { Passing numbers.now }
    ensures answer { (i : ℕ) → has result i ≡ fixes_all numbers.now i }
{
    if sends(numbers) {
        return FIXED | SIGNALS;
    }
    FIXED
}

// Those of which they fix only some bits.
pub fn partly_fixed_registers(numbers: &[i32]) -> u64
    requires { Passing numbers.now }
    ensures answer { (i : ℕ) → has result i ≡ fixes_some numbers.now i }
{
    if sends(numbers) {
        return PARTLY;
    }
    PARTLY | KIND
}

// The registers that must be written: known ones that differ, and others that are fixed in whole.
pub fn must_registers(changed: u64, known: u64, fixed: u64) -> u64
    ensures answer { (i : ℕ) → has result i ≡ cond (has known i) (has changed i) (has fixed i) }
{
    (changed & known) | (fixed & !known)
}

// The registers that a plan may write: no barred one, and none that is neither known nor fixed in whole.
pub fn allowed_registers(known: u64, fixed: u64) -> u64
    ensures answer { (i : ℕ) → has result i ≡ (writable i && (has known i || has fixed i)) }
{
    WRITABLE & (known | fixed)
}

// The registers needed where some must be written: those, and the whole word where one of its registers is among them.
pub fn needed_registers(must: u64) -> u64
    ensures answer { (i : ℕ) → has result i ≡ with_word (has must) i }
{
    if must & WORD == 0 {
        return must;
    }
    must | WORD
}

// The registers before which no transaction may end: those of the word past its first, where it is needed.
pub fn held_registers(needed: u64) -> u64
    ensures answer { (i : ℕ) → has result i ≡ (among 0x0d 0x0f i && has needed 0x0c) }
{
    if needed & WORD_FIRST == 0 {
        return 0;
    }
    WORD & !WORD_FIRST
}

// The registers that are not known and of which settings fix only some bits.
pub fn unfixed_registers(partly: u64, known: u64) -> u64
    ensures answer { (i : ℕ) → has result i ≡ (not (has known i) && has partly i) }
{
    partly & !known
}

// The maps that a plan from a board to a wanted image is made of, where every bit of the registers of a map is fixed.
pub fn register_maps(board: Board, fixed: u64, wanted: &[u8]) -> RegisterMaps
    requires { Comparable board.registers wanted.now }
    ensures answer { (limit : ℕ) → MapsOf (aim_by board wanted.now fixed limit) result }
{
    let registers = board.registers;
    let known = board.known;
    let must = must_registers(changed_registers(&registers, wanted), known, fixed);
    let needed = needed_registers(must);
    RegisterMaps {
        must,
        needed,
        allowed: allowed_registers(known, fixed),
        held: held_registers(needed),
    }
}
