// The reason of a register: the tests in their order.
ghost use Rattle.std.specs.Prelude.{◌≡◌, ◌<◌};
ghost use Rattle.bits.specs.Maps.{has};
ghost use Rattle.adv7194_bus.specs.Kind.{register_count};
ghost use Rattle.adv7194_least.specs.Plan.{plan_of};
ghost use Rattle.adv7194_planning.specs.Aims.{aim_by};
ghost use Rattle.adv7194_reasons.specs.Reasons.{reason_of};
ghost use Rattle.adv7194_reasons.specs.Known.{known_reason, Answered};
ghost use Rattle.adv7194_reasons.specs.Why.{reason_as};

use crate::Reason;
use crate::changes::changed_field;
use crate::nearest::{next_above, next_below, with_other};
use adv7194_bus::board::Board;
use adv7194_planning::registers::register_maps;
use adv7194_table::zero_bits;
use planning::spans::plan_spans;
use refusals::NO_FIELD;

// The reason of a known register of the plan, of which the registers in a map are needed.
fn known_reason(found: &[u8], wanted: &[u8], must: u64, register: usize) -> Reason
    requires { register < register_count }
    ensures answer { reason_as result ≡ known_reason found.now wanted.now (has must) register }
{
    let field = changed_field(found, wanted, register);
    if field != NO_FIELD {
        return Reason::Changed { field };
    }
    if zero_bits(found, register) != 0 {
        return Reason::Zeroed;
    }
    if with_other(must, register) {
        return Reason::Companion;
    }
    Reason::Bridge {
        below: next_below(must, register),
        above: next_above(must, register),
    }
}

// The reason of a register in the plan from a board to a wanted image, of which every bit of the registers of a map is fixed, with a limit; or that it isn't
// sent.
pub fn reason(board: Board, fixed: u64, wanted: &[u8], limit: u32, register: u32) -> Reason
    requires { Answered (aim_by board wanted.now fixed limit) register }
    ensures answer { reason_as result ≡ reason_of (aim_by board wanted.now fixed limit) (plan_of (aim_by board wanted.now fixed limit)) register }
{
    let registers = board.registers;
    let known = board.known;
    let maps = register_maps(board, fixed, wanted);
    let sent = plan_spans(maps.needed, maps.allowed, maps.held, limit as usize);
    if !bits::maps::has(sent.taken, register as u64) {
        return Reason::NotSent;
    }
    if !bits::maps::has(known, register as u64) {
        return Reason::Unknown;
    }
    known_reason(&registers, wanted, maps.must, register as usize)
}
