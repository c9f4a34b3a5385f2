// Why a register is in the plan: the first reason that is true, in document 02's order.
#![tactic(auto)]

ghost use Rattle.std.specs.Prelude.{◌≡◌};
ghost use Rattle.refusals.specs.Verdict.{good};
ghost use Rattle.refusals.specs.Order.{Exactly};
ghost use Rattle.adv7194_bus.specs.Board.{board_of};
ghost use Rattle.adv7194_least.specs.Aim.{aim_of};
ghost use Rattle.adv7194_planning.specs.Rows.{list_of};
ghost use Rattle.adv7194_reasons.specs.First.{FirstTrue};
ghost use Rattle.adv7194_reasons.specs.Reasons.{Reason as Given, holds, answers};
ghost use Rattle.adv7194_reasons.specs.Why.{why_order, row_why, reason_in, why_of, why_as};

use crate::reasons::reason;
use adv7194_bus::REGISTERS;
use adv7194_bus::board::board_of;
use adv7194_planning::check;
use adv7194_planning::registers::fixed_registers;
use refusals::{Fault, NO_FIELD, Refusal};

mod changes;
mod nearest;
mod reasons;

// That the register isn't sent; or the reason: it was unknown, a field's bits there change, a must-be-zero bit was set, another of the subcarrier word's
// registers is needed, or it lies between two needed registers.
#[derive(Clone, Copy, PartialEq, Eq)]
pub enum Reason {
    NotSent,
    Unknown,
    Changed { field: u8 },
    Zeroed,
    Companion,
    Bridge { below: u8, above: u8 },
}

// Why the plan that brings an image, of which the registers in a map are known, to settings, with a limit on the data of a transaction, has a register.
pub fn why(
    image: &[u8],
    known: u64,
    numbers: &[i32],
    limit: u32,
    register: u32,
) -> Result<Reason, Fault>
    ensures answer { why_as result ≡ why_of (board_of image.now known) numbers.now limit register }
    ensures reason { (k : Given) → why_as result ≡ good k → FirstTrue
        (holds (aim_of (board_of image.now known) numbers.now limit)
        (list_of (board_of image.now known) numbers.now limit) register)
        (answers (aim_of (board_of image.now known) numbers.now limit) register) k }
    ensures judged { Exactly (row_why (board_of image.now known) numbers.now limit) why_order
        (reason_in (board_of image.now known) numbers.now limit register) (why_as result) }
{
    if image.len() != REGISTERS as usize {
        return Err(Refusal::ImageLength.at(NO_FIELD));
    }
    let board = board_of(image, known);
    let mut wanted = board.registers;
    check(known, numbers, limit, &mut wanted)?;
    Ok(reason(board, fixed_registers(numbers), &wanted, limit, register))
}
