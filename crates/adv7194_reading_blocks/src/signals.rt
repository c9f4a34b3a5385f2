// Field 11, signalling: its registers judged and read, its five numbers stored.
ghost use Rattle.std.specs.Prelude.{◌≡◌, [], ◌∷◌, pos};
ghost use Rattle.refusals.specs.Refusal.{value_or};
ghost use Rattle.refusals.specs.Verdict.{after, fault_of, fault_where, verdict_as};
ghost use Rattle.field_table.specs.Walk.{given as given_of};
ghost use Rattle.field_table.specs.Blocks.{store_from, slice};
ghost use Rattle.adv7194_table.specs.Fields.{standard};
ghost use Rattle.adv7194_table.specs.Blocks.{signalling};
ghost use Rattle.adv7194_table.specs.Table.{signals, whole};
ghost use Rattle.adv7194_signalling.specs.Word.{three_bytes};
ghost use Rattle.adv7194_signalling.specs.Signalling.{no_signalling, held_conflict};
ghost use Rattle.adv7194_signalling.specs.Answers.{numbers_of, read_as};
ghost use Rattle.adv7194_settings.specs.Held.{bytes_in, block_reading, store_entry};

use crate::places::{byte, keep};
use adv7194_signalling::field::{Signalling, held_conflict, signalling_setting};
use adv7194_signalling::registers::Registers;
use adv7194_table::blocks::SIGNALLING;
use adv7194_table::rows::STANDARD;
use field_table::given;
use field_table::row::row_of;
use refusals::{Fault, Refusal};

// Its registers and the index of its numbers, by the table.
const R19: usize = (SIGNALLING / 0x100 % 0x100) as usize;

const R1A: usize = R19 + 1;

const R1B: usize = R19 + 2;

const KIND: usize = (SIGNALLING / 0x100_0000 % 0x100) as usize;

// Its number.
const FIELD: u8 = (SIGNALLING / 0x1_0000_0000) as u8;

// The bytes of its registers.
#[tactic(auto, unfolding(field_table::specs::Blocks::slice))]
fn registers(image: &[u8]) -> Registers
    ensures answer { three_bytes result ≡ bytes_in image.now signalling }
{
    Registers {
        r19: byte(image, R19),
        r1a: byte(image, R1A),
        r1b: byte(image, R1B),
    }
}

// The fault that the kind in register 19 is with the standard read before.
fn conflict(r19: u8, numbers: &[i32]) -> Result<(), Fault>
    ensures answer { verdict_as result ≡ fault_where (held_conflict (given_of numbers.now standard.row) (r19 ∷ [])) 7 11 }
{
    if held_conflict(given(numbers, row_of(STANDARD)), r19) {
        return Err(Refusal::SignallingConflict.at(FIELD));
    }
    Ok(())
}

// No signalling.
fn none() -> Signalling
    ensures answer { numbers_of result ≡ no_signalling }
{
    Signalling {
        kind: 0,
        number: 0,
        odd: 0,
        even: 0,
        chip_check: 0,
    }
}

// The five numbers read stored; zeros where the registers are refused.
fn keep_signalling(numbers: &mut [i32], read: Result<Signalling, Refusal>)
    ensures memory { numbers.new ≡ store_from numbers.old signalling.index (slice (pos 0) (value_or [] (read_as read)) 0 signalling.numbers) }
{
    let setting = read.unwrap_or(none());
    let values = [
        setting.kind,
        setting.number,
        setting.odd,
        setting.even,
        setting.chip_check,
    ];
    keep(numbers, KIND, &values);
}

// The field judged and read, after the fields before: row 7 first.
pub fn read_signalling(
    before: Result<(), Fault>,
    image: &[u8],
    numbers: &mut [i32],
) -> Result<(), Fault>
    ensures answer { verdict_as result ≡ after (verdict_as before) (after (fault_where (held_conflict (given_of numbers.old standard.row) (bytes_in image.now signalling)) 7 11) (fault_of 11 (block_reading image.now signals signalling))) }
    ensures memory { numbers.new ≡ store_entry image.now numbers.old (whole signals signalling) }
{
    let held = registers(image);
    let conflict = conflict(held.r19, numbers);
    let read = signalling_setting(held);
    keep_signalling(numbers, read);
    before?;
    conflict?;
    // Kept: document 01 names `let .. else` for a field's reader, the refusal returned with its field.
    let Ok(_) = read else {
        return read.map_err(|refusal| refusal.at(FIELD)).and(Ok(()));
    };
    Ok(())
}
