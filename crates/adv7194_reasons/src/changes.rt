// The lowest field of which bits change in a register.
ghost use Rattle.std.specs.Prelude.{◌≡◌, ◌<◌};
ghost use Rattle.adv7194_bus.specs.Kind.{register_count};
ghost use Rattle.adv7194_reasons.specs.Known.{lowest_changed};

use adv7194_table::setting_bits;
use refusals::NO_FIELD;

// How many numbers of fields there are: 0, which is none's, to 28.
const FIELDS: u8 = 29;

// The lowest field whose bits in a register, must-be-zero bits apart, differ between two images, or 0. It is a number, and no Option: the clause names
// `lowest_changed`, which is 0 where there is none.
pub fn changed_field(found: &[u8], wanted: &[u8], register: usize) -> u8
    requires { register < register_count }
    ensures answer { result ≡ lowest_changed found.now wanted.now register }
{
    (1..FIELDS)
        .find(|field| setting_bits(found, *field, register)
            != setting_bits(wanted, *field, register))
        .unwrap_or(NO_FIELD)
}
