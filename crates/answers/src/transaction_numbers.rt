// A transaction's answer as numbers.
ghost use Rattle.std.specs.Prelude.{◌≡◌};
ghost use Rattle.unpacking.specs.Indexed.{answer_of};
ghost use Rattle.answers.specs.Answers.{transaction_answer};

use refusals::Refusal;
use unpacking::indexed::Header;

// The refusal where there is none, the field of every refusal, and what is answered after one.
const NONE: u32 = 0;

// A refusal, or 0; a field, which is always 0; the transaction's subaddress and its data count.
#[repr(C)]
#[derive(Clone, Copy)]
pub struct TransactionAnswer {
    pub refusal: u32,
    pub field: u32,
    pub subaddress: u32,
    pub count: u32,
}

// A transaction's answer.
pub fn transaction_answer(taken: Result<Header, Refusal>) -> TransactionAnswer
    ensures answer { result ≡ transaction_answer (answer_of taken) }
{
    match taken {
        Ok(header) => TransactionAnswer {
            refusal: NONE,
            field: NONE,
            subaddress: header.subaddress as u32,
            count: header.count as u32,
        },
        Err(refusal) => TransactionAnswer {
            refusal: refusal.number() as u32,
            field: NONE,
            subaddress: NONE,
            count: NONE,
        },
    }
}
