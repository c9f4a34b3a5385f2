// The start of a plan's first transaction where the interpolation bit flips.
ghost use Rattle.std.specs.Prelude.{◌≡◌, List, ℕ, ◌≤◌};
ghost use Rattle.least_cost.specs.Weight.{weights};
ghost use Rattle.adv7195_bus.specs.Order.{mode_register6};
ghost use Rattle.adv7195_least.specs.Plan.{flip_plan, first_start, preparing_start};
ghost use Rattle.adv7195_planning.specs.Told.{Told};

use crate::registers::beside;
use adv7195_bus::WRITABLE;
use bus::cost::bus_bytes;
use planning::maps::{covered, starts};

// What a bus byte weighs: more than all the transactions of a list.
const BYTE_WEIGHT: u64 = 1024;

// The lowest and the highest start, and the first register past the highest.
const LOWEST: u32 = 0x04;

const HIGHEST: u32 = 0x09;

const END: u32 = HIGHEST + 1;

// What the plan weighs whose first transaction starts at a.
fn flip_weight(changed: u64, restored: bool, a: u32) -> u64
    requires { a ≤ mode_register6 }
    ensures answer { (image wanted : List ℕ) → Told image wanted changed restored → result ≡ weights (flip_plan image wanted a) }
{
    let taken = covered(beside(changed, restored, a), WRITABLE);
    let begun = starts(taken);
    let data_bytes = bits::maps::count(taken) + (END - a);
    let transactions = bits::maps::count(begun) + 1;
    BYTE_WEIGHT * bus_bytes(transactions, data_bytes) + transactions as u64
}

// The lowest start with which all weighs least.
pub fn preparing_start(changed: u64, restored: bool) -> u32
    ensures range { (first_start ≤ result) × (result ≤ mode_register6) }
    ensures answer { (image wanted : List ℕ) → Told image wanted changed restored → result ≡ preparing_start image wanted }
{
    let mut best = LOWEST;
    let mut least = flip_weight(changed, restored, LOWEST);
    for a in LOWEST + 1..END {
        let weight = flip_weight(changed, restored, a);
        if weight < least {
            best = a;
            least = weight;
        }
    }
    best
}
