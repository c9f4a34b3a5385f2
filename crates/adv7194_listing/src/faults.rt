// What is at fault in an image that is refused, in words. Each function answers the place after what it wrote.
ghost use Rattle.std.specs.Prelude.{◌≡◌, cond, ◌++◌, ◌+◌, ◌≤◌, eqb, length, get_or};
ghost use Rattle.refusals.specs.Refusal.{number_of};
ghost use Rattle.writing.specs.Ascii.{ascii};
ghost use Rattle.adv7194_names.specs.Names.{named};
ghost use Rattle.writing.specs.Put.{Put};
ghost use Rattle.adv7194_names.specs.Widths.{label_width, words_width, line_width};
ghost use Rattle.adv7194_listing.specs.Faults.{field_row, fault_words, fault_text};
ghost use Rattle.adv7194_listing.specs.Words.{word_table, reserved_words, conflict_words, words_of, shown_numbers};
ghost use Rattle.adv7194_lines.specs.Lines.{label_text};

use adv7194_lines::lines::put_label;
use adv7194_names::columns::{NAME, put_column};
use adv7194_signalling::kind::{SignallingKind, kind};
use adv7194_table::rows::rows;
use field_table::held;
use field_table::row::{Row, row_of};
use refusals::{Fault, Refusal};
use template::fill_column;
use text::put;
use writing::put_counted;

// Signalling, its first register, and the subcarrier word.
const SIGNALLING_FIELD: u8 = 11;

const SIGNALLING_REGISTER: usize = 0x19;

const WORD_FIELD: u8 = 28;

// The refusal of a number outside its range, as a row's column has it.
const OUT_OF_RANGE: u8 = 3;

// The words of faults, each after a colon, of this many bytes: templates, whose marks stand for a code or for signalling's bytes.
const SIZE: usize = 259;

const WORDS: [u8; SIZE] = *b": code % out of range
: reserved code %
: reserved code # # #
: must-be-zero bits set
: with square pixel
: with PAL
: CGMS with PAL
: WSS with NTSC
: CGMS and WSS at once
: doesn't agree with standard and square pixel
: check bits don't agree
: not known
: 
";

// Where those of signalling's bytes stand among them, and the empty ones.
const SIGNALLING_BYTES: usize = 2;

const NO_WORDS: usize = 12;

// The row of a field of one number; one of no bits for any other.
pub fn field_row(field: u8) -> Row
    ensures answer { result ≡ field_row field }
{
    for packed in rows() {
        let row = row_of(packed);
        if row.field == field {
            return row;
        }
    }
    Row {
        field: 0,
        index: 0,
        register: 0,
        bit: 0,
        width: 0,
        low: 0,
        high: 0,
        outside: 0,
    }
}

// A register of an image, 0 where it has none.
pub fn byte_at(image: &[u8], register: usize) -> u8
    ensures answer { result ≡ get_or image.now register 0 }
{
    image.get(register).copied().unwrap_or(0)
}

// The table of words.
#[tactic(auto, unfolding(crate::specs::Words::words, template::specs::Columns::words_text))]
fn words() -> [u8; SIZE]
    ensures answer { result ≡ word_table }
{
    WORDS
}

// Which words tell a reserved code: signalling's bytes, must-be-zero bits, or a field's code.
#[tactic(auto, unfolding(crate::specs::Words::reserved_words))]
fn reserved_words(field: u8) -> usize
    ensures answer { result ≡ reserved_words field }
{
    if field == SIGNALLING_FIELD {
        return SIGNALLING_BYTES;
    }
    if field_row(field).outside == OUT_OF_RANGE {
        return 3;
    }
    1
}

// Which words tell the kind of signalling that is at fault.
fn conflict_words(r19: u8) -> usize
    ensures answer { result ≡ conflict_words r19 }
{
    match kind(r19) {
        Ok(SignallingKind::Off) => NO_WORDS,
        Ok(SignallingKind::Cgms) => 6,
        Ok(SignallingKind::Wss) => 7,
        Err(_) => 8,
    }
}

// Which words tell a refusal; none for a wrong length, whose words have a count.
#[tactic(auto, unfolding(crate::specs::Words::words_of))]
fn words_of(refusal: Refusal, field: u8, r19: u8) -> usize
    ensures answer { result ≡ words_of (number_of refusal) field r19 }
{
    match refusal {
        Refusal::OutOfRange => 0,
        Refusal::Reserved => reserved_words(field),
        Refusal::SquarePixelWithOversampling => 4,
        Refusal::PedestalWithPal => 5,
        Refusal::SignallingConflict => conflict_words(r19),
        Refusal::Disagreement => { if field == WORD_FIELD { 9 } else { 10 } }
        Refusal::RegisterUnknown => 11,
        Refusal::ImageLength | Refusal::BusAddress | Refusal::PlanBytes | Refusal::PlanRoom =>
            NO_WORDS,
    }
}

// The numbers that words show: signalling's three bytes, or the code that a field holds.
#[tactic(auto, unfolding(crate::specs::Words::shown_numbers))]
fn shown(image: &[u8], field: u8, column: usize) -> [i32; 3]
    ensures answer { result ≡ shown_numbers image.now field column }
{
    if column == SIGNALLING_BYTES {
        return [
            byte_at(image, SIGNALLING_REGISTER) as i32,
            byte_at(image, SIGNALLING_REGISTER + 1) as i32,
            byte_at(image, SIGNALLING_REGISTER + 2) as i32,
        ];
    }
    [held(image, field_row(field)) as i32, 0, 0]
}

// Writes a refusal in words, after a colon.
fn put_words(line: &mut [u8], at: usize, image: &[u8], fault: Fault) -> usize
    requires { at + words_width ≤ length line.old }
    ensures written { Put words_width line.old at (ascii ": " ++ fault_words image.now (number_of fault.refusal) fault.field) line.new result }
{
    if fault.refusal == Refusal::ImageLength {
        return put_counted(line, at, b": ", image.len() as u64, b" bytes, not 54");
    }
    let column = words_of(
        fault.refusal,
        fault.field,
        byte_at(image, SIGNALLING_REGISTER),
    );
    let numbers = shown(image, fault.field, column);
    let words = words();
    fill_column(line, at, &words, column, &numbers, 0)
}

// Writes where the fault is: a field's number and name, or that it is the image.
fn put_place(line: &mut [u8], at: usize, field: u8) -> usize
    requires { at + label_width ≤ length line.old }
    ensures written { Put label_width line.old at (cond (eqb field 0) (ascii (named field).name) (label_text field)) line.new result }
{
    if field == 0 {
        return put_column(line, at, field, NAME);
    }
    put_label(line, at, field)
}

// Writes the line that says what is at fault.
pub(crate) fn fault_line(line: &mut [u8], at: usize, image: &[u8], fault: Fault) -> usize
    requires { at + line_width ≤ length line.old }
    ensures written { Put line_width line.old at (fault_text image.now (number_of fault.refusal) fault.field) line.new result }
{
    let place = put_place(line, at, fault.field);
    let words = put_words(line, place, image, fault);
    put(line, words, b"\n")
}
