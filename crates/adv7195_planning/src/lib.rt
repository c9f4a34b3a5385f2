// Planning for the ADV7195: the fewest register writes that turn an image into what settings mean, packed into a lent plan.
#![tactic(auto)]

ghost use Rattle.std.specs.Prelude.{◌≡◌, ℕ, ◌<◌, length, take};
ghost use Rattle.refusals.specs.Verdict.{refused_at};
ghost use Rattle.refusals.specs.Order.{Exactly};
ghost use Rattle.packing.specs.Packing.{anywhere};
ghost use Rattle.unpacking.specs.Unpacking.{CountedBy};
ghost use Rattle.planning.specs.Plan.{counts_of, packing_of, plan_after, done, answer_of};
ghost use Rattle.adv7195_settings.specs.Wanted.{wanted_by, Demanded};
ghost use Rattle.adv7195_least.specs.Reaching.{Change};
ghost use Rattle.adv7195_least.specs.Plan.{plan_of};
ghost use Rattle.adv7195_least.specs.Played.{Played};
ghost use Rattle.adv7195_least.specs.Demands.{Least, First, most_bytes};
ghost use Rattle.adv7195_planning.specs.Planning.{list_of, row_planned, plan_order, planning_of, plan_left};

use crate::registers::{beside, changed_registers};
use crate::start::preparing_start;
use adv7195_bus::{MODE_REGISTER_3, MODE_REGISTER_6, PREPARING_BYTE, REGISTERS, WRITABLE, flips};
use adv7195_settings::{NUMBERS, want};
use bus::address::address_right;
use bus::image::copied;
use planning::plan::{Packed, pack, pack_after};
use refusals::{Fault, NO_FIELD, Refusal};

mod registers;
mod start;

// No register before which a transaction may not end.
const NONE_HELD: u64 = 0;

// The first register past Mode Register 6, where the first transaction of a plan that flips the interpolation bit ends.
const PREPARED: usize = MODE_REGISTER_6 + 1;

// Plans the change from an image to a wanted one, into the lent plan.
fn plan_change(image: &[u8], wanted: &[u8], plan: &mut [u8]) -> Result<Packed, Fault>
    requires { Change image.now wanted.now }
    ensures answer { answer_of result ≡ packing_of (plan_of image.now wanted.now) (length plan.old) }
    ensures memory { plan.new ≡ plan_after (plan_of image.now wanted.now) plan.old }
{
    let changed = changed_registers(image, wanted);
    if !flips(image[MODE_REGISTER_3], wanted[MODE_REGISTER_3]) {
        return pack(
            plan,
            changed,
            WRITABLE,
            NONE_HELD,
            REGISTERS as usize,
            wanted,
        );
    }
    let restored = wanted[MODE_REGISTER_6] != PREPARING_BYTE;
    let start = preparing_start(changed, restored);
    let needed = beside(changed, restored, start);
    let mut bytes: [u8; REGISTERS as usize] = copied(wanted);
    bytes[MODE_REGISTER_6] = PREPARING_BYTE;
    let from = start as usize;
    pack_after(
        plan,
        start as u8,
        &bytes[from..PREPARED],
        needed,
        WRITABLE,
        wanted,
    )
}

// Plans the settings over an image, for the chip at a bus address, into the lent plan.
pub fn plan(image: &[u8], numbers: &[i32], address: u32, plan: &mut [u8]) -> Result<Packed, Fault>
    ensures answer { answer_of result ≡ planning_of image.now numbers.now address (length plan.old) }
    ensures memory { plan.new ≡ plan_left image.now numbers.now address plan.old }
    ensures counted { (l t b : ℕ) → answer_of result ≡ done l t b → CountedBy anywhere (take l plan.new) l t b }
    ensures demanded { (l t b : ℕ) → answer_of result ≡ done l t b → Demanded image.now numbers.now (wanted_by image.now numbers.now) }
    ensures played { (l t b : ℕ) → answer_of result ≡ done l t b → Played image.now (wanted_by image.now numbers.now) (take l plan.new) }
    ensures least { (l t b : ℕ) → answer_of result ≡ done l t b → Least image.now (wanted_by image.now numbers.now) t b }
    ensures first { (l t b : ℕ) → answer_of result ≡ done l t b → First image.now (wanted_by image.now numbers.now)
        (list_of image.now numbers.now) }
    ensures room { (f : ℕ) → answer_of result ≡ refused_at 10 f → length plan.old < most_bytes }
    ensures judged { Exactly (row_planned image.now numbers.now address (length plan.old)) plan_order
        (counts_of (list_of image.now numbers.now)) (answer_of result) }
{
    if image.len() != REGISTERS as usize {
        return Err(Refusal::ImageLength.at(NO_FIELD));
    }
    if !address_right(address) {
        return Err(Refusal::BusAddress.at(NO_FIELD));
    }
    if numbers.len() != NUMBERS {
        return Err(Refusal::OutOfRange.at(NO_FIELD));
    }
    let mut wanted: [u8; REGISTERS as usize] = copied(image);
    want(numbers, &mut wanted)?;
    plan_change(image, &wanted, plan)
}
