// Playing's answer as numbers.
ghost use Rattle.std.specs.Prelude.{◌≡◌};
ghost use Rattle.adv7194_playing.specs.Playing.{answer_of, known_of};
ghost use Rattle.adv7194_answers.specs.Answers.{play_answer};

use adv7194_playing::Played;
use refusals::Refusal;

// The refusal where there is none, the field of every refusal, and what is answered after one.
const NONE: u32 = 0;

// A refusal, or 0; a field, which is always 0; whether every byte was acknowledged; the map of the registers known after the call, which is as it was
// handed in after a refusal.
#[repr(C)]
#[derive(Clone, Copy)]
pub struct PlayAnswer {
    pub refusal: u32,
    pub field: u32,
    pub acknowledged: u32,
    pub known: u64,
}

// Playing's answer, where this map of known registers was handed in.
pub fn play_answer(played: Result<Played, Refusal>, known: u64) -> PlayAnswer
    ensures answer { result ≡ play_answer (answer_of played) (known_of known played) }
{
    match played {
        Ok(played) => PlayAnswer {
            refusal: NONE,
            field: NONE,
            acknowledged: played.acknowledged as u32,
            known: played.known,
        },
        Err(refusal) => PlayAnswer {
            refusal: refusal.number() as u32,
            field: NONE,
            acknowledged: NONE,
            known,
        },
    }
}
