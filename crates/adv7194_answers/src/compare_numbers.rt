// What two images are side by side, as numbers.
ghost use Rattle.std.specs.Prelude.{◌≡◌};
ghost use Rattle.adv7194_compare.specs.Compare.{compared_as};
ghost use Rattle.adv7194_answers.specs.Answers.{compare_answer};

use adv7194_compare::Differences;
use refusals::Fault;

// The refusal and the field where there is none, and every other number after a refusal.
const NONE: u32 = 0;

// No register, which is also what is answered after a refusal.
const NO_REGISTERS: u64 = 0;

// A refusal, or 0; a field, which is always 0; whether both images can be read; the fields that differ, and the registers that differ in bits outside all
// fields, as maps: bit n is set for field or register n.
#[repr(C)]
#[derive(Clone, Copy)]
pub struct CompareAnswer {
    pub refusal: u32,
    pub field: u32,
    pub readable: u32,
    pub fields: u32,
    pub registers: u64,
}

// What two images are side by side.
pub fn compare_answer(compared: Result<Differences, Fault>) -> CompareAnswer
    ensures answer { result ≡ compare_answer (compared_as compared) }
{
    match compared {
        Ok(differences) => CompareAnswer {
            refusal: NONE,
            field: NONE,
            readable: differences.readable as u32,
            fields: differences.fields,
            registers: differences.registers,
        },
        Err(fault) => CompareAnswer {
            refusal: fault.refusal.number() as u32,
            field: fault.field as u32,
            readable: NONE,
            fields: NONE,
            registers: NO_REGISTERS,
        },
    }
}
