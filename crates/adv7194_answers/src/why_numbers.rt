// Why a register is sent, as numbers.
ghost use Rattle.std.specs.Prelude.{◌≡◌};
ghost use Rattle.adv7194_reasons.specs.Why.{reason_as, why_as};
ghost use Rattle.adv7194_answers.specs.Answers.{numbered, reason_answer, why_answer};

use adv7194_reasons::Reason;
use refusals::Fault;

// The refusal and the field where there is none, what a reason doesn't name, and every other number after a refusal.
const NONE: u32 = 0;

// The register isn't sent.
const NOT_SENT: u32 = 0;

// It was unknown.
const UNKNOWN: u32 = 1;

// A field's bits there change.
const CHANGED: u32 = 2;

// A must-be-zero bit was set.
const ZEROED: u32 = 3;

// Another of the subcarrier word's registers is needed.
const COMPANION: u32 = 4;

// It lies between two needed registers.
const BRIDGE: u32 = 5;

// A refusal with its field, or 0 and 0; the reason, and what it names: a field, or the needed registers below and above.
#[repr(C)]
#[derive(Clone, Copy)]
pub struct WhyAnswer {
    pub refusal: u32,
    pub field: u32,
    pub reason: u32,
    pub first: u32,
    pub second: u32,
}

// The answer that is a reason by its number, with what it names.
fn numbered(reason: u32, first: u32, second: u32) -> WhyAnswer
    ensures answer { result ≡ numbered reason first second }
{
    WhyAnswer {
        refusal: NONE,
        field: NONE,
        reason,
        first,
        second,
    }
}

// The answer that is this reason.
fn reason_answer(reason: Reason) -> WhyAnswer
    ensures answer { result ≡ reason_answer (reason_as reason) }
{
    match reason {
        Reason::NotSent => numbered(NOT_SENT, NONE, NONE),
        Reason::Unknown => numbered(UNKNOWN, NONE, NONE),
        Reason::Changed { field } => numbered(CHANGED, field as u32, NONE),
        Reason::Zeroed => numbered(ZEROED, NONE, NONE),
        Reason::Companion => numbered(COMPANION, NONE, NONE),
        Reason::Bridge { below, above } => numbered(BRIDGE, below as u32, above as u32),
    }
}

// The answer to why a register is sent.
pub fn why_answer(explained: Result<Reason, Fault>) -> WhyAnswer
    ensures answer { result ≡ why_answer (why_as explained) }
{
    match explained {
        Ok(reason) => reason_answer(reason),
        Err(fault) => WhyAnswer {
            refusal: fault.refusal.number() as u32,
            field: fault.field as u32,
            reason: NONE,
            first: NONE,
            second: NONE,
        },
    }
}
