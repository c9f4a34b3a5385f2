// The fields one after the other: an image judged, and its settings stored.
ghost use Rattle.std.specs.Prelude.{◌≡◌, length};
ghost use Rattle.refusals.specs.Verdict.{after, verdict_as};
ghost use Rattle.adv7194_bus.specs.Kind.{register_count};
ghost use Rattle.adv7194_settings.specs.Held.{no_numbers, settings_held};
ghost use Rattle.adv7194_reading.specs.Steps.{first_fields, last_fields, fault_in, first_numbers};

use adv7194_reading_blocks::{read_curve, read_signalling, read_word};
use adv7194_reading_rows::{read_dnr, read_output, read_picture, read_timing};
use adv7194_settings::{pedestal_with_pal, square_with_oversampling};
use adv7194_table::blocks::{CURVE_A, CURVE_B};
use adv7194_table::rows::PEDESTAL;
use field_table::read_row;
use refusals::Fault;

// Fields 1 to 10.
pub(crate) fn read_first(image: &[u8], numbers: &mut [i32]) -> Result<(), Fault>
    requires { numbers.old ≡ no_numbers }
    ensures answer { verdict_as result ≡ fault_in image.now first_fields }
    ensures memory { numbers.new ≡ first_numbers image.now }
{
    let timing = read_timing(Ok(()), image, numbers);
    let square = square_with_oversampling(timing, numbers);
    let pedestal = read_row(square, PEDESTAL, image, numbers);
    let pal = pedestal_with_pal(pedestal, numbers);
    read_output(pal, image, numbers)
}

// Fields 11 to 28, after those before.
pub(crate) fn read_last(
    before: Result<(), Fault>,
    image: &[u8],
    numbers: &mut [i32],
) -> Result<(), Fault>
    requires { (length image.now ≡ register_count) × (numbers.old ≡ first_numbers image.now) }
    ensures answer { verdict_as result ≡ after (verdict_as before) (fault_in image.now last_fields) }
    ensures memory { numbers.new ≡ settings_held image.now }
{
    let signalling = read_signalling(before, image, numbers);
    let picture = read_picture(signalling, image, numbers);
    let dnr = read_dnr(picture, image, numbers);
    let curve_a = read_curve(dnr, CURVE_A, image, numbers);
    let curve_b = read_curve(curve_a, CURVE_B, image, numbers);
    read_word(curve_b, image, numbers)
}
