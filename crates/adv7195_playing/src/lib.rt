// Playing a packed plan against the ADV7195 in progressive-scan mode.
#![tactic(auto)]

ghost use Rattle.std.specs.Prelude.{◌≡◌, true, length};
ghost use Rattle.bus.specs.Address.{address_right};
ghost use Rattle.refusals.specs.Refusal.{judged_as};
ghost use Rattle.refusals.specs.Order.{Exactly};
ghost use Rattle.unpacking.specs.Unpacking.{counted};
ghost use Rattle.playing.specs.Playing.{judged_if, JudgedBy, row_played, play_order, acknowledged, play_of, registers_left};
ghost use Rattle.adv7195_bus.specs.Kind.{register_count};
ghost use Rattle.adv7195_playing.specs.Playing.{unpacked, Takes, takes, call_of, answer_of};
ghost use Rattle.adv7195_playing.specs.Written.{Written, prepared_after};

use adv7195_bus::{
    MODE_REGISTER_3, MODE_REGISTER_6, PREPARING_BYTE, REGISTERS, flips, keeps_rules,
};
use bus::image::copied;
use playing::check_call;
use refusals::Refusal;
use unpacking::places::copy_data;
use unpacking::steps::{Order, begin, next};

// Whether 3E was the last byte for Mode Register 6 after data from a subaddress on, which registers hold, where it was so before them or not.
fn prepared_after(prepared: bool, registers: &[u8], subaddress: u8, count: u8) -> bool
    requires { length registers.now ≡ register_count }
    ensures answer { result ≡ prepared_after prepared registers.now subaddress count }
{
    let first = subaddress as usize;
    if (first..first + count as usize).contains(&MODE_REGISTER_6) {
        return registers[MODE_REGISTER_6] == PREPARING_BYTE;
    }
    prepared
}

// Writes the data of every transaction of a plan into registers, as long as its bytes keep the packing and the transactions keep the rule and the order, and
// answers how many there are; the registers are no image of a chip's where the plan is refused.
fn write_plan(plan: &[u8], registers: &mut [u8]) -> Result<u8, Refusal>
    requires { length registers.old ≡ register_count }
    ensures answer { judged_as result ≡ counted (judged_if (takes registers.old) (unpacked plan.now)) }
    ensures memory { Written (judged_if (takes registers.old) (unpacked plan.now)) registers.old registers.new }
{
    let mut cursor = begin(plan, Order::Any);
    let mut transactions: u8 = 0;
    let mut prepared = false;
    while let Some(found) = next(plan, cursor)? {
        if !keeps_rules(found.subaddress, found.count) {
            return Err(Refusal::PlanBytes);
        }
        let before = registers[MODE_REGISTER_3];
        copy_data(plan, found.data, registers, found.subaddress, found.count);
        let flipped = flips(before, registers[MODE_REGISTER_3]);
        let prepared_now = prepared_after(prepared, registers, found.subaddress, found.count);
        if flipped & !prepared {
            return Err(Refusal::PlanBytes);
        }
        prepared = prepared_now;
        cursor = found.after;
        transactions += 1;
    }
    Ok(transactions)
}

// Plays a packed plan once image and addresses are checked: its data are written into a copy of the image; where the plan is accepted and was sent to
// the chip's own address, the image becomes that copy.
// Beside adv7194_playing's, which answers the known registers too: one function for both would carry a map that means nothing here.
fn play_checked(image: &mut [u8], used: u32, own: u32, plan: &[u8]) -> Result<bool, Refusal>
    requires { (length image.old ≡ register_count) × (address_right used ≡ true) × (address_right own ≡ true) }
    ensures answer { answer_of result ≡ play_of (call_of image.old used own plan.now) }
    ensures memory { image.new ≡ registers_left (call_of image.old used own plan.now) }
{
    let mut registers: [u8; REGISTERS as usize] = copied(image);
    let transactions = write_plan(plan, &mut registers)?;
    if used != own {
        return Ok(transactions == 0);
    }
    image.copy_from_slice(&registers);
    Ok(true)
}

// Plays a packed plan, sent at the address used, against a fresh chip of its own address that holds the image.
pub fn play(image: &mut [u8], used: u32, own: u32, plan: &[u8]) -> Result<bool, Refusal>
    ensures answer { answer_of result ≡ play_of (call_of image.old used own plan.now) }
    ensures memory { image.new ≡ registers_left (call_of image.old used own plan.now) }
    ensures exactly { Exactly (row_played (call_of image.old used own plan.now)) play_order
        (acknowledged (call_of image.old used own plan.now)) (answer_of result) }
    ensures taken { length image.old ≡ register_count → JudgedBy (Takes own image.old) (call_of image.old used own plan.now) }
{
    check_call(image.len(), REGISTERS as usize, used, own)?;
    play_checked(image, used, own, plan)
}
