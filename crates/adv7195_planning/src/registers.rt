// The registers that differ, and those that are left beside the transaction that ends with 3E for Mode Register 6.
ghost use Rattle.std.specs.Prelude.{◌≡◌, List, ℕ, ◌≤◌};
ghost use Rattle.bits.specs.Maps.{has};
ghost use Rattle.bus.specs.Registers.{differs};
ghost use Rattle.adv7195_bus.specs.Order.{mode_register6};
ghost use Rattle.adv7195_least.specs.Reaching.{Change};
ghost use Rattle.adv7195_least.specs.Plan.{beside as beside_of};
ghost use Rattle.adv7195_planning.specs.Told.{Told};

use adv7195_bus::{MODE_REGISTER_3, MODE_REGISTER_6};
use planning::maps::differing;

// The mask of a register that is compared.
const COMPARED: u8 = 0xFF;

// The map of the registers past Mode Register 6.
const PAST: u64 = 0xFFFF_FFFF_FFFF_FC00;

// The map of Mode Register 3, and of both Mode Registers.
const FLIPPED: u64 = 1 << MODE_REGISTER_3;

const BOTH: u64 = FLIPPED | (1 << MODE_REGISTER_6);

// The registers where a wanted image differs from the starting one.
pub fn changed_registers(image: &[u8], wanted: &[u8]) -> u64
    requires { Change image.now wanted.now }
    ensures answer { (i : ℕ) → has result i ≡ differs image.now wanted.now i }
{
    let masks = [COMPARED; 40];
    differing(&masks, image, wanted)
}

// The registers left beside a to Mode Register 6: what differs outside those, Mode Register 3, and Mode Register 6 where that has to be written once more.
pub fn beside(changed: u64, restored: bool, a: u32) -> u64
    requires { a ≤ mode_register6 }
    ensures answer { (image wanted : List ℕ) → Told image wanted changed restored → (i : ℕ) → has result i ≡ beside_of image wanted a i }
{
    let left = changed & (((1 << a) - 1) | PAST);
    if restored {
        return left | BOTH;
    }
    left | FLIPPED
}
