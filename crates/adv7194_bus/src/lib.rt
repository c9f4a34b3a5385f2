// The ADV7194 as a chip on the bus: how many registers it has, which of them drop a byte, one event at it, and the three rules for what is written to it.
#![tactic(auto)]

ghost use Rattle.std.specs.Prelude.{◌≡◌, cond, ◌+◌, ◌-◌, ◌*◌, ◌^◌, ◌≤◌};
ghost use Rattle.adv7194_bus.specs.Kind.{register_count};
ghost use Rattle.adv7194_bus.specs.Limit.{limit_right};
ghost use Rattle.adv7194_bus.specs.Rules.{keeps_rules};
ghost use Rattle.adv7194_bus.specs.Step.{step_by};
ghost use Rattle.bus.specs.Lent.{stepped_of};
ghost use Rattle.bus.specs.Known.{marks};

use bus::chip::{Event, State, Stepped};

pub mod board;

// How many registers the chip has: 00 to 35.
pub const REGISTERS: u32 = 0x36;

// The map of the registers that drop a byte: 34 alone.
pub const DROPPED: u64 = 0x10_0000_0000_0000;

// The map of the registers that no transaction may touch: the captions' 11 to 14 and the read-only 34.
pub const BARRED: u64 = 0x10_0000_001E_0000;

// The map of the subcarrier word's registers, 0C to 0F.
pub const WORD: u64 = 0xF000;

// The map of no register.
const NONE: u64 = 0;

// The bus address of the chip on the boards.
pub const BOARD_ADDRESS: u32 = 0x54;

// The shortest limit on the data of a transaction: the subcarrier word's registers are written together.
pub const LEAST_LIMIT: u32 = 4;

// The longest: all registers, so that no transaction is longer.
pub const NO_LIMIT: u32 = REGISTERS;

// One event at an ADV7194 of this address: its state, and its registers, which are lent.
pub fn step(state: State, event: Event, own: u8, registers: &mut [u8; 54]) -> Stepped
    ensures answer { result ≡ stepped_of (step_by own state registers.old event) }
    ensures memory { registers.new ≡ (step_by own state registers.old event).chip.registers }
{
    bus::chip::step(state, event, own, DROPPED, registers)
}

// Whether a number is a limit on the data of a transaction: 4 to 54.
pub fn limit_right(limit: u32) -> bool
    ensures answer { result ≡ limit_right limit }
{
    LEAST_LIMIT <= limit && limit <= NO_LIMIT
}

// The map of count registers from a start on.
fn span(start: u32, count: u32) -> u64
    requires { start + count ≤ register_count }
    ensures answer { result ≡ (2 ^ count - 1) * 2 ^ start }
{
    ((1 << count) - 1) << start
}

// The map of the registers that a write transaction with this subaddress and that many data bytes touches, where it keeps the three rules; else of none.
pub fn touched(subaddress: u8, count: u8) -> u64
    ensures answer { result ≡ cond (keeps_rules subaddress count) (marks 0 subaddress count) 0 }
{
    let start = subaddress as u32;
    let end = start + count as u32;
    if REGISTERS < end {
        return NONE;
    }
    let map = span(start, count as u32);
    if map & BARRED != 0 {
        return NONE;
    }
    let word = map & WORD;
    if (word == 0) | (word == WORD) {
        return map;
    }
    NONE
}
