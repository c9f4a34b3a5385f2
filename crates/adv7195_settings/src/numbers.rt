// The settings' 58 numbers and the table's 60: the CGMS data are one number of the settings, and three of the table's.
ghost use Rattle.std.specs.Prelude.{◌≡◌, ◌+◌, ◌*◌, ◌^◌, ◌<◌, T, pos, length, get_or};
ghost use Rattle.adv7195_settings.specs.Numbers.{number_count, part_count, part_of, parts_of, joins, numbers_of};

// How many numbers settings are.
pub const NUMBERS: usize = 58;

// How many numbers the table has.
pub const PARTS: usize = 60;

// The index of the CGMS data, and of the first of its parts.
const CGMS: usize = 34;

// The index of its second part.
const SECOND: usize = 35;

// The index of its third part.
const THIRD: usize = 36;

// The first index past the CGMS data among the settings' numbers, and past its parts among the table's.
const PAST: usize = CGMS + 1;

const PAST_PARTS: usize = THIRD + 1;

// The lowest bit of the second part.
const SECOND_FROM: u32 = 8;

// The lowest bit of the third part.
const THIRD_FROM: u32 = 16;

// How many bits the first and the second part have.
const BITS: u32 = 8;

// How many the third has.
const THIRD_BITS: u32 = 4;

// One past the largest number of its 20 bits.
const CGMS_END: i32 = 0x10_0000;

// No setting of any row.
const NO_SETTING: i32 = -1;

// The part of the CGMS data that is some bits of them.
fn part_of(cgms: i32, lowest: u32, width: u32) -> i32
    requires { (lowest < 32) × (width < 16) }
    ensures answer { result ≡ part_of lowest width cgms }
{
    if !(0..CGMS_END).contains(&cgms) {
        return NO_SETTING;
    }
    ((cgms as u32 >> lowest) % (1 << width)) as i32
}

// The table's numbers of settings.
pub(crate) fn parts_of(numbers: &[i32]) -> [i32; PARTS]
    requires { length numbers.now ≡ number_count }
    ensures answer { result ≡ parts_of numbers.now }
{
    let cgms = numbers[CGMS];
    let mut parts = [0i32; PARTS];
    parts[..CGMS].copy_from_slice(&numbers[..CGMS]);
    parts[CGMS] = part_of(cgms, 0, BITS);
    parts[SECOND] = part_of(cgms, SECOND_FROM, BITS);
    parts[THIRD] = part_of(cgms, THIRD_FROM, THIRD_BITS);
    parts[PAST_PARTS..].copy_from_slice(&numbers[PAST..]);
    parts
}

// One number from its parts, lowest first.
fn joined(first: u32, second: u32, third: u32) -> i32
    requires { (first < 2 ^ 8) × ((second < 2 ^ 8) × (third < 2 ^ 8)) }
    ensures answer { result ≡ pos (first + 2 ^ 8 * second + 2 ^ 16 * third) }
{
    (first + (second << SECOND_FROM) + (third << THIRD_FROM)) as i32
}

// The settings of the table's numbers, left in the lent ones.
pub fn numbers_of(parts: &[i32], numbers: &mut [i32])
    requires { (length parts.now ≡ part_count) × ((length numbers.old ≡ number_count) × T (joins parts.now)) }
    ensures memory { numbers.new ≡ numbers_of parts.now }
{
    numbers[..CGMS].copy_from_slice(&parts[..CGMS]);
    numbers[CGMS] = joined(
        parts[CGMS] as u32,
        parts[SECOND] as u32,
        parts[THIRD] as u32,
    );
    numbers[PAST..].copy_from_slice(&parts[PAST_PARTS..]);
}
