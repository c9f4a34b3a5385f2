// Playing's answer as numbers.
ghost use Rattle.std.specs.Prelude.{◌≡◌};
ghost use Rattle.adv7195_playing.specs.Playing.{answer_of};
ghost use Rattle.adv7195_c.specs.Answers.{play_answer};

use refusals::Refusal;

// The refusal where there is none, the field of every refusal, and what is answered after one.
const NONE: u32 = 0;

// A refusal, or 0; a field, which is always 0; whether every byte was acknowledged. C knows this layout and that of the ADV7194's answer, so that they are two.
#[repr(C)]
#[derive(Clone, Copy)]
pub struct PlayAnswer {
    pub refusal: u32,
    pub field: u32,
    pub acknowledged: u32,
}

// Playing's answer.
pub fn play_answer(played: Result<bool, Refusal>) -> PlayAnswer
    ensures answer { result ≡ play_answer (answer_of played) }
{
    match played {
        Ok(acknowledged) => PlayAnswer {
            refusal: NONE,
            field: NONE,
            acknowledged: acknowledged as u32,
        },
        Err(refusal) => PlayAnswer {
            refusal: refusal.number() as u32,
            field: NONE,
            acknowledged: NONE,
        },
    }
}
