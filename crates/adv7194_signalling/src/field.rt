// Field 11's setting as five numbers: coded in registers 19, 1A and 1B, read back, and checked against the television standard.
ghost use Rattle.std.specs.Prelude.{◌≡◌, [], ◌∷◌, pos};
ghost use Rattle.adv7194_signalling.specs.Word.{three_bytes};
ghost use Rattle.adv7194_signalling.specs.Kind.{kind_number};
ghost use Rattle.adv7194_signalling.specs.Signalling.{signalling_codes, signalling_held, signalling_conflict, held_conflict};
ghost use Rattle.adv7194_signalling.specs.Answers.{numbers_of, cgms_setting_numbers, code_as, read_as};

use crate::cgms::{CgmsSetting, cgms_code, cgms_setting};
use crate::kind::{SignallingKind, kind};
use crate::registers::Registers;
use crate::wss::{wss_code, wss_setting};
use refusals::Refusal;

// A setting: its kind, the payload of CGMS or the number of WSS, and three yes/no numbers of CGMS. What a kind doesn't use is 0 when read.
#[derive(Clone, Copy)]
pub struct Signalling {
    pub kind: i32,
    pub number: i32,
    pub odd: i32,
    pub even: i32,
    pub chip_check: i32,
}

// The television standards, as the setting has them: any number can be handed in, and one that is neither is in no conflict.
const NTSC: i32 = 0;

const PAL: i32 = 1;

// A no.
const NO: i32 = 0;

impl From<CgmsSetting> for Signalling {
    ghost from_gives = { λ held setting. numbers_of setting ≡ cgms_setting_numbers held };

    // A CGMS setting as the field's.
    fn from(held: CgmsSetting) -> Self {
        Signalling {
            kind: i32::from(SignallingKind::Cgms),
            number: held.payload,
            odd: held.odd,
            even: held.even,
            chip_check: held.chip_check,
        }
    }
}

// A setting that has no yes.
fn plain(kind: SignallingKind, number: i32) -> Signalling
    ensures answer { numbers_of result ≡ pos (kind_number kind) ∷ number ∷ pos 0 ∷ pos 0 ∷ pos 0 ∷ [] }
{
    Signalling {
        kind: i32::from(kind),
        number,
        odd: NO,
        even: NO,
        chip_check: NO,
    }
}

// The registers of a setting, none for off, or its refusal.
pub fn signalling_code(setting: Signalling) -> Result<Option<Registers>, Refusal>
    ensures answer { code_as result ≡ signalling_codes (numbers_of setting) }
{
    match SignallingKind::try_from(setting.kind)? {
        SignallingKind::Off => Ok(None),
        SignallingKind::Cgms => cgms_code(
            setting.number,
            setting.odd,
            setting.even,
            setting.chip_check,
        )
        .map(Some),
        SignallingKind::Wss => wss_code(setting.number).map(Some),
    }
}

// The setting that the registers hold, or its refusal: the kind, then its reader.
pub fn signalling_setting(registers: Registers) -> Result<Signalling, Refusal>
    ensures answer { read_as result ≡ signalling_held (three_bytes registers) }
{
    match kind(registers.r19)? {
        SignallingKind::Off => Ok(plain(SignallingKind::Off, 0)),
        SignallingKind::Cgms => cgms_setting(registers).map(|held| Signalling::from(held)),
        SignallingKind::Wss => wss_setting(registers).map(|number| plain(
            SignallingKind::Wss,
            number,
        )),
    }
}

// Whether a setting doesn't go with a standard, or is CGMS for neither field.
pub fn signalling_conflict(standard: i32, setting: Signalling) -> bool
    ensures answer { result ≡ signalling_conflict standard (numbers_of setting) }
{
    match SignallingKind::try_from(setting.kind) {
        Ok(SignallingKind::Cgms) => {
            (standard == PAL) | ((setting.odd == NO) & (setting.even == NO))
        }
        Ok(SignallingKind::Wss) => standard == NTSC,
        Ok(SignallingKind::Off) | Err(_) => false,
    }
}

// Whether the kind that register 19 holds is two at once, or doesn't go with a standard.
pub fn held_conflict(standard: i32, r19: u8) -> bool
    ensures answer { result ≡ held_conflict standard (r19 ∷ []) }
{
    match kind(r19) {
        Ok(held) => match held {
            SignallingKind::Off => false,
            SignallingKind::Cgms => standard == PAL,
            SignallingKind::Wss => standard == NTSC,
        },
        Err(why) => why == Refusal::SignallingConflict,
    }
}
