// The kinds of signalling: as numbers of a setting, and in register 19.
ghost use Rattle.std.specs.Prelude.{◌≡◌, pos};
ghost use Rattle.adv7194_signalling.specs.Kind.{kind_number, kind_named, kind_of, kind_as};

use refusals::Refusal;

// A kind of signalling.
#[derive(Clone, Copy, PartialEq, Eq)]
pub enum SignallingKind {
    Off,
    Cgms,
    Wss,
}

// The number of each kind in a setting.
const OFF: i32 = 0;

const CGMS: i32 = 1;

const WSS: i32 = 2;

impl From<SignallingKind> for i32 {
    ghost from_gives = { λ kind number. number ≡ pos (kind_number kind) };

    // A kind's number.
    fn from(kind: SignallingKind) -> i32 {
        match kind {
            SignallingKind::Off => OFF,
            SignallingKind::Cgms => CGMS,
            SignallingKind::Wss => WSS,
        }
    }
}

impl TryFrom<i32> for SignallingKind {
    type Error = Refusal;

    ghost try_from_gives = { λ number answer. kind_as answer ≡ kind_named number };

    // The kind that has a number, or refusal 3.
    fn try_from(number: i32) -> Result<Self, Refusal> {
        match number {
            OFF => Ok(SignallingKind::Off),
            CGMS => Ok(SignallingKind::Cgms),
            WSS => Ok(SignallingKind::Wss),
            _ => Err(Refusal::OutOfRange),
        }
    }
}

// The kind that register 19 holds, or its refusal: bit 7 sends WSS, bits 6 and 5 send CGMS, bit 4 belongs to CGMS.
pub fn kind(r19: u8) -> Result<SignallingKind, Refusal>
    ensures answer { kind_as result ≡ kind_of r19 }
{
    let fields = r19 / 32 % 4;
    if r19 / 128 == 1 {
        if fields == 0 {
            return Ok(SignallingKind::Wss);
        }
        return Err(Refusal::SignallingConflict);
    }
    if fields != 0 {
        return Ok(SignallingKind::Cgms);
    }
    if r19 / 16 % 2 == 1 {
        return Err(Refusal::Reserved);
    }
    Ok(SignallingKind::Off)
}
