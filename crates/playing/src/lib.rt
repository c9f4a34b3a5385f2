// Playing a packed plan, for any chip: what is judged of a call before its plan; definitions and theorems.
#![tactic(auto)]

ghost use Rattle.std.specs.Prelude.{◌≡◌};
ghost use Rattle.refusals.specs.Refusal.{judged_as};
ghost use Rattle.playing.specs.Checking.{checked_before};

use bus::address::address_right;
use refusals::Refusal;

// What is judged of a call before its plan: how many bytes its image has for the chip's registers, the address used, and the chip's own.
pub fn check_call(bytes: usize, registers: usize, used: u32, own: u32) -> Result<(), Refusal>
    ensures answer { judged_as result ≡ checked_before bytes registers used own }
{
    if bytes != registers {
        return Err(Refusal::ImageLength);
    }
    if !(address_right(used) & address_right(own)) {
        return Err(Refusal::BusAddress);
    }
    Ok(())
}
