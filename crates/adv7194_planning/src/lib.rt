// Planning: the fewest register writes that turn a board into what settings mean, packed into a lent plan.
#![tactic(auto)]

ghost use Rattle.std.specs.Prelude.{◌≡◌, ℕ, ◌≤◌, ◌<◌, length, take};
ghost use Rattle.refusals.specs.Verdict.{refused_at};
ghost use Rattle.refusals.specs.Order.{Exactly};
ghost use Rattle.unpacking.specs.Unpacking.{CountedBy};
ghost use Rattle.planning.specs.Plan.{counts_of, packing_of, plan_after, done, answer_of};
ghost use Rattle.adv7194_bus.specs.Board.{board_of};
ghost use Rattle.adv7194_settings.specs.Wanted.{wanted_by};
ghost use Rattle.adv7194_settings.specs.Demand.{Demanded};
ghost use Rattle.adv7194_least.specs.Aim.{aim_of};
ghost use Rattle.adv7194_least.specs.Change.{Change};
ghost use Rattle.adv7194_least.specs.Plan.{plan_of};
ghost use Rattle.adv7194_least.specs.Played.{Played};
ghost use Rattle.adv7194_least.specs.Demands.{Least, First, Only, most_bytes, wide_limit, wide_bytes};
ghost use Rattle.adv7194_planning.specs.Aims.{aim_by};
ghost use Rattle.adv7194_planning.specs.Rows.{list_of, row_planned, plan_order};
ghost use Rattle.adv7194_planning.specs.Planning.{planning_of, plan_left};
ghost use Rattle.packing.specs.Packing.{behind};

use crate::registers::{fixed_registers, register_maps};
use adv7194_bus::REGISTERS;
use adv7194_bus::board::{Board, board_of};
use bus::address::address_right;
use planning::plan::{Packed, pack};
use refusals::{Fault, NO_FIELD, Refusal};

mod checks;
pub mod registers;

pub use checks::check;

// Plans the change from a board to a wanted image, of which every bit of the registers of a map is fixed, with a limit, into the lent plan.
fn plan_change(
    board: Board,
    fixed: u64,
    wanted: &[u8],
    limit: u32,
    plan: &mut [u8],
) -> Result<Packed, Fault>
    requires { Change (aim_by board wanted.now fixed limit) }
    ensures answer { answer_of result ≡ packing_of (plan_of (aim_by board wanted.now fixed limit)) (length plan.old) }
    ensures memory { plan.new ≡ plan_after (plan_of (aim_by board wanted.now fixed limit)) plan.old }
{
    let maps = register_maps(board, fixed, wanted);
    pack(
        plan,
        maps.needed,
        maps.allowed,
        maps.held,
        limit as usize,
        wanted,
    )
}

// Plans the settings over an image of which the registers in a map are known, for the chip at a bus address, with a limit on the data of a transaction, into
// the lent plan.
pub fn plan(
    image: &[u8],
    known: u64,
    numbers: &[i32],
    address: u32,
    limit: u32,
    plan: &mut [u8],
) -> Result<Packed, Fault>
    ensures answer { answer_of result ≡ planning_of (board_of image.now known) numbers.now address limit (length plan.old) }
    ensures memory { plan.new ≡ plan_left (board_of image.now known) numbers.now address limit plan.old }
    ensures counted { (l t b : ℕ) → answer_of result ≡ done l t b → CountedBy behind (take l plan.new) l t b }
    ensures demanded { (l t b : ℕ) → answer_of result ≡ done l t b → Demanded image.now numbers.now (wanted_by image.now numbers.now) }
    ensures played { (l t b : ℕ) → answer_of result ≡ done l t b → Played (aim_of (board_of image.now known) numbers.now limit) (take l plan.new) }
    ensures least { (l t b : ℕ) → answer_of result ≡ done l t b → Least (aim_of (board_of image.now known) numbers.now limit) t b }
    ensures first { (l t b : ℕ) → answer_of result ≡ done l t b → First (aim_of (board_of image.now known) numbers.now limit)
        (list_of (board_of image.now known) numbers.now limit) }
    ensures only { (l t b : ℕ) → answer_of result ≡ done l t b → Only (aim_of (board_of image.now known) numbers.now limit)
        (list_of (board_of image.now known) numbers.now limit) }
    ensures room { (f : ℕ) → answer_of result ≡ refused_at 10 f → (length plan.old < most_bytes) × (wide_limit ≤ limit → length plan.old < wide_bytes) }
    ensures judged { Exactly (row_planned (board_of image.now known) numbers.now address limit (length plan.old)) plan_order
        (counts_of (list_of (board_of image.now known) numbers.now limit)) (answer_of result) }
{
    if image.len() != REGISTERS as usize {
        return Err(Refusal::ImageLength.at(NO_FIELD));
    }
    if !address_right(address) {
        return Err(Refusal::BusAddress.at(NO_FIELD));
    }
    let board = board_of(image, known);
    let mut wanted = board.registers;
    check(known, numbers, limit, &mut wanted)?;
    plan_change(board, fixed_registers(numbers), &wanted, limit, plan)
}
