// All fields, in the checking order.
ghost use Rattle.std.specs.Prelude.{◌≡◌, length};
ghost use Rattle.refusals.specs.Verdict.{after, verdict_as};
ghost use Rattle.refusals.specs.Order.{Exactly};
ghost use Rattle.field_table.specs.Writes.{puts};
ghost use Rattle.adv7194_bus.specs.Kind.{register_count};
ghost use Rattle.adv7194_table.specs.Fields.{number_count};
ghost use Rattle.adv7194_settings.specs.Wanted.{writes_of, wanted_by};
ghost use Rattle.adv7194_settings.specs.Demand.{Demanded};
ghost use Rattle.adv7194_settings.specs.Order.{order};
ghost use Rattle.adv7194_settings.specs.Rows.{row_holds, check_of};
ghost use Rattle.adv7194_wanted.specs.Parts.{first_part, second_part, fault_in};

use crate::curves::want_curve;
use crate::signals::want_signalling;
use crate::words::want_word;
use adv7194_setting_rows::{want_dnr, want_output, want_picture, want_timing};
use adv7194_settings::{pedestal_with_pal, square_with_oversampling};
use adv7194_table::blocks::{CURVE_A, CURVE_B};
use adv7194_table::rows::PEDESTAL;
use field_table::want_row;
use refusals::Fault;

// Fields 1 to 10, after the fields before.
fn want_first(before: Result<(), Fault>, numbers: &[i32], image: &mut [u8]) -> Result<(), Fault>
    ensures answer { verdict_as result ≡ after (verdict_as before) (fault_in numbers.now first_part) }
    ensures memory { image.new ≡ puts image.old (writes_of numbers.now first_part) }
{
    let timing = want_timing(before, numbers, image);
    let square = square_with_oversampling(timing, numbers);
    let pedestal = want_row(square, PEDESTAL, numbers, image);
    let pal = pedestal_with_pal(pedestal, numbers);
    want_output(pal, numbers, image)
}

// Fields 11 to 28, after the fields before.
fn want_second(before: Result<(), Fault>, numbers: &[i32], image: &mut [u8]) -> Result<(), Fault>
    requires { length numbers.now ≡ number_count }
    ensures answer { verdict_as result ≡ after (verdict_as before) (fault_in numbers.now second_part) }
    ensures memory { image.new ≡ puts image.old (writes_of numbers.now second_part) }
{
    let signalling = want_signalling(before, numbers, image);
    let picture = want_picture(signalling, numbers, image);
    let dnr = want_dnr(picture, numbers, image);
    let curve_a = want_curve(dnr, CURVE_A, numbers, image);
    let curve_b = want_curve(curve_a, CURVE_B, numbers, image);
    want_word(numbers, image);
    curve_b
}

// Settings checked, and placed in an image. Where they are refused, what is placed doesn't count.
pub fn want(numbers: &[i32], image: &mut [u8]) -> Result<(), Fault>
    requires { (length numbers.now ≡ number_count) × (length image.old ≡ register_count) }
    ensures answer { verdict_as result ≡ check_of numbers.now }
    ensures memory { image.new ≡ wanted_by image.old numbers.now }
    ensures exactly { Exactly (row_holds numbers.now) order tt (verdict_as result) }
    ensures demanded { Demanded image.old numbers.now image.new }
{
    let first = want_first(Ok(()), numbers, image);
    want_second(first, numbers, image)
}
