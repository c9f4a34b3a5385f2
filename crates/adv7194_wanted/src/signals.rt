// Field 11, signalling.
ghost use Rattle.std.specs.Prelude.{◌≡◌, [], length};
ghost use Rattle.refusals.specs.Verdict.{after, fault_of, fault_where, verdict_as};
ghost use Rattle.field_table.specs.Writes.{puts};
ghost use Rattle.field_table.specs.Walk.{given as given_of};
ghost use Rattle.adv7194_table.specs.Fields.{number_count, standard};
ghost use Rattle.adv7194_table.specs.Blocks.{signalling};
ghost use Rattle.adv7194_table.specs.Table.{signals, whole};
ghost use Rattle.adv7194_signalling.specs.Signalling.{signalling_codes, signalling_conflict};
ghost use Rattle.adv7194_signalling.specs.Answers.{numbers_of, code_as};
ghost use Rattle.adv7194_settings.specs.Codes.{numbers_in};
ghost use Rattle.adv7194_settings.specs.Wanted.{entry_writes, block_writes};
ghost use Rattle.refusals.specs.Refusal.{value_or};

use crate::placing::{put, put_bytes};
use adv7194_settings::fault;
use adv7194_signalling::field::{Signalling, signalling_code, signalling_conflict};
use adv7194_signalling::registers::Registers;
use adv7194_table::blocks::{SIGNALLING, block_of};
use adv7194_table::rows::STANDARD;
use field_table::given;
use field_table::row::row_of;
use refusals::{Fault, Refusal};

// How many numbers the setting is.
const NUMBERS: usize = 5;

// Bits 7-4 of the first register, which off clears.
const KIND_BIT: u8 = 4;

const KIND_WIDTH: u8 = 4;

// A setting of five numbers.
fn of_five(numbers: &[i32]) -> Signalling
    requires { length numbers.now ≡ 5 }
    ensures answer { numbers_of result ≡ numbers.now }
{
    Signalling {
        kind: numbers[0],
        number: numbers[1],
        odd: numbers[2],
        even: numbers[3],
        chip_check: numbers[4],
    }
}

// The setting among the settings' numbers.
fn signalling_in(numbers: &[i32]) -> Signalling
    requires { length numbers.now ≡ number_count }
    ensures answer { numbers_of result ≡ numbers_in numbers.now signalling }
{
    let first = block_of(SIGNALLING).index;
    let end = first + NUMBERS;
    of_five(&numbers[first..end])
}

// Bits 7-4 of the first register cleared.
fn clear_kind(image: &mut [u8])
    ensures memory { image.new ≡ puts image.old (block_writes signals signalling []) }
{
    put(
        image,
        block_of(SIGNALLING).register,
        KIND_BIT,
        KIND_WIDTH,
        0,
    );
}

// The registers of a coding set; bits 7-4 of the first cleared where it has none.
fn put_code(code: Result<Option<Registers>, Refusal>, image: &mut [u8])
    ensures memory { image.new ≡ puts image.old (block_writes signals signalling (value_or [] (code_as code))) }
{
    if let Ok(Some(r)) = code {
        let bytes = [r.r19, r.r1a, r.r1b];
        put_bytes(SIGNALLING, &bytes, image);
    } else {
        clear_kind(image);
    }
}

// The conflict of row 7, after the fields before.
fn signalling_with_standard(
    before: Result<(), Fault>,
    setting: Signalling,
    numbers: &[i32],
) -> Result<(), Fault>
    ensures answer { verdict_as result ≡ after (verdict_as before) (fault_where (signalling_conflict (given_of numbers.now standard.row) (numbers_of setting)) 7 11) }
{
    before?;
    fault(
        signalling_conflict(given(numbers, row_of(STANDARD)), setting),
        Refusal::SignallingConflict,
        block_of(SIGNALLING).field,
    )
}

// The setting checked, its conflict first, and its code put in its registers, after the fields before.
pub(crate) fn want_signalling(
    before: Result<(), Fault>,
    numbers: &[i32],
    image: &mut [u8],
) -> Result<(), Fault>
    requires { length numbers.now ≡ number_count }
    ensures answer { verdict_as result ≡ after (verdict_as before) (after (fault_where (signalling_conflict (given_of numbers.now standard.row) (numbers_in numbers.now signalling)) 7 11) (fault_of 11 (signalling_codes (numbers_in numbers.now signalling)))) }
    ensures memory { image.new ≡ puts image.old (entry_writes numbers.now (whole signals signalling)) }
{
    let setting = signalling_in(numbers);
    let code = signalling_code(setting);
    put_code(code, image);
    signalling_with_standard(before, setting, numbers)?;
    code.map_err(|refusal| refusal.at(block_of(SIGNALLING).field))?;
    Ok(())
}
