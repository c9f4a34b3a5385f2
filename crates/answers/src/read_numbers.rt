// Reading's answer as numbers.
ghost use Rattle.std.specs.Prelude.{◌≡◌};
ghost use Rattle.refusals.specs.Verdict.{verdict_as};
ghost use Rattle.answers.specs.Answers.{read_answer};

use refusals::Fault;

// The refusal and the field where there is none.
const NONE: u32 = 0;

// A refusal with its field, or 0 and 0.
#[repr(C)]
#[derive(Clone, Copy)]
pub struct ReadAnswer {
    pub refusal: u32,
    pub field: u32,
}

// Reading's answer.
pub fn read_answer(taken: Result<(), Fault>) -> ReadAnswer
    ensures answer { result ≡ read_answer (verdict_as taken) }
{
    match taken {
        Ok(()) => ReadAnswer {
            refusal: NONE,
            field: NONE,
        },
        Err(fault) => ReadAnswer {
            refusal: fault.refusal.number() as u32,
            field: fault.field as u32,
        },
    }
}
