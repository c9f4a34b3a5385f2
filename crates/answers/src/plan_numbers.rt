// Planning's answer as numbers.
ghost use Rattle.std.specs.Prelude.{◌≡◌};
ghost use Rattle.planning.specs.Plan.{answer_of};
ghost use Rattle.answers.specs.Answers.{plan_answer};

use planning::plan::Packed;
use refusals::Fault;

// The refusal and the field where there is none, and every other number after a refusal.
const NONE: u32 = 0;

// A refusal with its field, or 0 and 0; the packed plan's bytes, its transactions and its bus bytes.
#[repr(C)]
#[derive(Clone, Copy)]
pub struct PlanAnswer {
    pub refusal: u32,
    pub field: u32,
    pub length: u32,
    pub transactions: u32,
    pub bus_bytes: u32,
}

// Planning's answer.
pub fn plan_answer(planned: Result<Packed, Fault>) -> PlanAnswer
    ensures answer { result ≡ plan_answer (answer_of planned) }
{
    match planned {
        Ok(packed) => PlanAnswer {
            refusal: NONE,
            field: NONE,
            length: packed.length,
            transactions: packed.transactions,
            bus_bytes: packed.bus_bytes,
        },
        Err(fault) => PlanAnswer {
            refusal: fault.refusal.number() as u32,
            field: fault.field as u32,
            length: NONE,
            transactions: NONE,
            bus_bytes: NONE,
        },
    }
}
