// Fields 26 and 27, the gamma curves.
ghost use Rattle.std.specs.Prelude.{◌≡◌, ◌+◌, ◌≤◌, length, []};
ghost use Rattle.refusals.specs.Verdict.{after, fault_of, verdict_as};
ghost use Rattle.field_table.specs.Writes.{puts};
ghost use Rattle.field_table.specs.Blocks.{byte_writes};
ghost use Rattle.adv7194_table.specs.Blocks.{block_of};
ghost use Rattle.adv7194_table.specs.Table.{curve, whole};
ghost use Rattle.adv7194_gamma.specs.Answer.{judged};
ghost use Rattle.adv7194_gamma.specs.Curve.{curve_codes};
ghost use Rattle.adv7194_settings.specs.Codes.{numbers_in};
ghost use Rattle.adv7194_settings.specs.Wanted.{entry_writes};
ghost use Rattle.refusals.specs.Refusal.{value_or};

use crate::placing::put_bytes;
use adv7194_gamma::Points;
use adv7194_gamma::field::curve_code;
use adv7194_table::blocks::block_of;
use refusals::{Fault, Refusal};

// How many numbers a curve's setting is.
const NUMBERS: usize = 10;

// The coding of a curve's numbers.
fn code_in(packed: u64, numbers: &[i32]) -> Result<Points, Refusal>
    requires { ((block_of packed).numbers ≡ 10) × ((block_of packed).index + 10 ≤ length numbers.now) }
    ensures answer { judged result ≡ curve_codes (numbers_in numbers.now (block_of packed)) }
{
    let first = block_of(packed).index;
    let end = first + NUMBERS;
    curve_code(&numbers[first..end])
}

// The bytes of a coding put in its block's registers.
fn put_code(packed: u64, code: Result<Points, Refusal>, image: &mut [u8])
    ensures memory { image.new ≡ puts image.old (byte_writes (block_of packed).register (value_or [] (judged code))) }
{
    if let Ok(p) = code {
        let bytes = [p.b0, p.b1, p.b2, p.b3, p.b4, p.b5, p.b6];
        put_bytes(packed, &bytes, image);
    }
}

// A curve checked, and its bytes put in its registers, after the fields before.
pub(crate) fn want_curve(
    before: Result<(), Fault>,
    packed: u64,
    numbers: &[i32],
    image: &mut [u8],
) -> Result<(), Fault>
    requires { ((block_of packed).numbers ≡ 10) × ((block_of packed).index + 10 ≤ length numbers.now) }
    ensures answer { verdict_as result ≡ after (verdict_as before) (fault_of (block_of packed).field (curve_codes (numbers_in numbers.now (block_of packed)))) }
    ensures memory { image.new ≡ puts image.old (entry_writes numbers.now (whole curve (block_of packed))) }
{
    let code = code_in(packed, numbers);
    put_code(packed, code, image);
    before?;
    code.map_err(|refusal| refusal.at(block_of(packed).field))?;
    Ok(())
}
