// The table of names and units: a line a field, from number 0 on, which stands for no field. A line has the columns name, word of the setting 0, word of the
// setting 1, and unit.
ghost use Rattle.std.specs.Prelude.{◌≡◌, ◌+◌, ◌≤◌, ◌<◌, length};
ghost use Rattle.adv7194_names.specs.Names.{names as names_of, named};
ghost use Rattle.adv7194_names.specs.Columns.{columns_text, column_of};
ghost use Rattle.writing.specs.Put.{Put};
ghost use Rattle.adv7194_names.specs.Widths.{column_width};

use template::columns::{column_end, column_start};
use text::put;

// How many columns a line has, and which they are. Numbers, since they index the table, and `put_column` takes any below four.
const COLUMNS: usize = 4;

pub const NAME: usize = 0;

pub const ZERO: usize = 1;

pub const ONE: usize = 2;

pub const UNIT: usize = 3;

// The table, of this many bytes.
const SIZE: usize = 575;

const NAMES: [u8; SIZE] = *b"image,,,
standard,NTSC,PAL,
square pixel,no,yes,
4x oversampling,no,yes,
pedestal,no,yes,
Y level,Betacam,SMPTE,
UV level,,,
RGB sync,no,yes,
clamp delay,,, clocks
clamp in back porch,no,yes,
subcarrier phase,,,
signalling,,,
contrast,,, thousandths
U scale,,, thousandths
V scale,,, thousandths
hue,,, tenths of a degree
brightness,,, tenths of an IRE
sharpness,,, steps
DNR border gain,,,
DNR data gain,,,
DNR threshold,,,
DNR border area,no,yes,
DNR block size,no,yes,
DNR input,,,
DNR mode,no,yes,
DNR block offset,,,
gamma curve A,,,
gamma curve B,,,
subcarrier word,,,
";

// The table.
fn names() -> [u8; SIZE]
    ensures answer { result ≡ columns_text names_of }
{
    NAMES
}

// Writes a column of a field's line, and answers the place after it.
pub fn put_column(line: &mut [u8], at: usize, field: u8, column: usize) -> usize
    requires { (at + column_width ≤ length line.old) × (column < 4) }
    ensures written { Put column_width line.old at (column_of (named field) column) line.new result }
{
    let table = names();
    let start = column_start(&table, COLUMNS * (field as usize) + column);
    let end = column_end(&table, start);
    put(line, at, &table[start..end])
}
