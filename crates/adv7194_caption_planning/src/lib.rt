// Planning captions: one or both pairs of characters, each a transaction of its own, packed into a lent plan.
#![tactic(auto)]

ghost use Rattle.std.specs.Prelude.{◌≡◌, true, ℕ, ◌<◌, length, take};
ghost use Rattle.refusals.specs.Verdict.{refused_at};
ghost use Rattle.refusals.specs.Order.{Exactly};
ghost use Rattle.planning.specs.Plan.{counts_of, packing_of, plan_after, done, answer_of};
ghost use Rattle.adv7194_captions.specs.Pairs.{pairs_right, caption_list};
ghost use Rattle.adv7194_captions.specs.Planning.{caption_row, caption_order, caption_planning, caption_plan_left};
ghost use Rattle.adv7194_caption_planning.specs.Demands.{CaptionsPlayed, caption_bytes};

use crate::pairs::{pack_pairs, pairs_right};
use adv7194_captions::{FIELD, PAIR};
use bus::address::address_right;
use bus::cost::bus_bytes;
use planning::plan::{Packed, packed_length};
use refusals::{Fault, NO_FIELD, Refusal};

mod pairs;

// Plans the pairs, once they and the address are checked, into the lent plan where it has room.
fn plan_pairs(extended: &[i32], ordinary: &[i32], plan: &mut [u8]) -> Result<Packed, Fault>
    requires { pairs_right extended.now ordinary.now ≡ true }
    ensures answer { answer_of result ≡ packing_of (caption_list extended.now ordinary.now) (length plan.old) }
    ensures memory { plan.new ≡ plan_after (caption_list extended.now ordinary.now) plan.old }
{
    let data_bytes = (extended.len() + ordinary.len()) as u32;
    let transactions = data_bytes / PAIR as u32;
    let length = packed_length(transactions, data_bytes);
    if (plan.len() as u64) < length {
        return Err(Refusal::PlanRoom.at(NO_FIELD));
    }
    pack_pairs(plan, transactions as u8, extended, ordinary);
    Ok(Packed {
        length: length as u32,
        transactions,
        bus_bytes: bus_bytes(transactions, data_bytes) as u32,
    })
}

// Plans one or both pairs of characters, for the chip at a bus address, into the lent plan. A pair that is not given is empty.
pub fn plan_captions(
    extended: &[i32],
    ordinary: &[i32],
    address: u32,
    plan: &mut [u8],
) -> Result<Packed, Fault>
    ensures answer { answer_of result ≡ caption_planning extended.now ordinary.now address (length plan.old) }
    ensures memory { plan.new ≡ caption_plan_left extended.now ordinary.now address plan.old }
    ensures exactly { Exactly (caption_row extended.now ordinary.now address (length plan.old)) caption_order
        (counts_of (caption_list extended.now ordinary.now)) (answer_of result) }
    ensures played { (l t b : ℕ) → answer_of result ≡ done l t b
        → CaptionsPlayed extended.now ordinary.now (take l plan.new) }
    ensures room { (f : ℕ) → answer_of result ≡ refused_at 10 f → length plan.old < caption_bytes }
{
    if !address_right(address) {
        return Err(Refusal::BusAddress.at(NO_FIELD));
    }
    if !pairs_right(extended, ordinary) {
        return Err(Refusal::OutOfRange.at(FIELD));
    }
    plan_pairs(extended, ordinary, plan)
}
