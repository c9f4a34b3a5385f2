// The verdict of reading on a board that is known in part.
ghost use Rattle.std.specs.Prelude.{◌≡◌};
ghost use Rattle.refusals.specs.Verdict.{verdict_as};
ghost use Rattle.adv7194_settings.specs.Reading.{with_unknown};

use refusals::{Fault, NO_FIELD, Refusal};

// The verdict on an image of which a field is the first with an unknown register, 0 where none is: a fault of an earlier field comes first.
// Kept: 0 in place of an option. (a) the definition `with_unknown`, which may not change, takes 0 for no field, as `lowest_field` answers it.
pub(crate) fn with_unknown(judged: Result<(), Fault>, unknown: u8) -> Result<(), Fault>
    ensures answer { verdict_as result ≡ with_unknown unknown (verdict_as judged) }
{
    if unknown == NO_FIELD {
        return judged;
    }
    if let Err(fault) = judged {
        if fault.field < unknown {
            return judged;
        }
    }
    Err(Refusal::RegisterUnknown.at(unknown))
}
