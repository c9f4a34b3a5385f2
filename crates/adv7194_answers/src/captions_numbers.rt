// What reading a pair of captions answers, as numbers.
ghost use Rattle.std.specs.Prelude.{◌≡◌};
ghost use Rattle.adv7194_caption_reading.specs.Answers.{read_as};
ghost use Rattle.adv7194_answers.specs.Answers.{captions_answer};

use adv7194_caption_reading::Captions;
use refusals::Fault;

// The refusal and the field where there is none, and both characters after a refusal.
const NONE: u32 = 0;

// A refusal with its field, or 0 and 0; the pair's characters.
#[repr(C)]
#[derive(Clone, Copy)]
pub struct CaptionsAnswer {
    pub refusal: u32,
    pub field: u32,
    pub first: u32,
    pub second: u32,
}

// What reading a pair answers.
pub fn captions_answer(taken: Result<Captions, Fault>) -> CaptionsAnswer
    ensures answer { result ≡ captions_answer (read_as taken) }
{
    match taken {
        Ok(pair) => CaptionsAnswer {
            refusal: NONE,
            field: NONE,
            first: pair.first as u32,
            second: pair.second as u32,
        },
        Err(fault) => CaptionsAnswer {
            refusal: fault.refusal.number() as u32,
            field: fault.field as u32,
            first: NONE,
            second: NONE,
        },
    }
}
