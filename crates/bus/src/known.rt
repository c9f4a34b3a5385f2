// The registers of a chip that are known, as a map: bit r for register r.
ghost use Rattle.std.specs.Prelude.{◌≡◌, List, ℕ, ◌≤◌, ◌<◌};
ghost use Rattle.bits.specs.Maps.{map_width};
ghost use Rattle.bus.specs.Chip.{from_master};
ghost use Rattle.bus.specs.Known.{mark as mark_of, known_by};
ghost use Rattle.bus.specs.Lent.{kind_of, chip_at};

use crate::chip::{Event, Phase, State};

// The map with a register in it.
fn mark(map: u64, register: usize) -> u64
    requires { register < map_width }
    ensures answer { result ≡ mark_of map register }
{
    map | (1 << register)
}

// Whether a byte from the master is stored at the pointer of a chip with that many registers, whatever its address, the bytes that it holds and the byte.
#[tactic(auto, unfolding(crate::specs::Chip::from_master))]
fn stored(state: State, dropped: u64, registers: usize) -> bool
    ensures answer { (own : ℕ) (bytes : List ℕ) (byte : ℕ) → result
        ≡ (from_master (kind_of own dropped registers) state.phase (chip_at state.phase state.pointer bytes) byte).stored }
{
    let pointer = state.pointer;
    match state.phase {
        Phase::AwaitData => pointer < registers && !bits::maps::has(dropped, pointer as u64),
        Phase::Idle | Phase::AwaitAddress | Phase::AwaitSubaddress | Phase::Sending => false,
    }
}

// The known registers after an event at a chip with that many registers, whatever its address and the bytes that it holds.
#[tactic(auto, unfolding(crate::specs::Known::known_by, crate::specs::Chip::step))]
pub fn known_by(state: State, event: Event, dropped: u64, registers: usize, known: u64) -> u64
    requires { registers ≤ map_width }
    ensures answer { (own : ℕ) (bytes : List ℕ) → result ≡ known_by (kind_of own dropped registers) (chip_at state.phase state.pointer bytes) known event }
{
    match event {
        Event::Start => known,
        Event::Stop => known,
        Event::FromMaster(_) => {
            if stored(state, dropped, registers) {
                mark(known, state.pointer)
            } else {
                known
            }
        }
        Event::ToMaster(_) => known,
    }
}
