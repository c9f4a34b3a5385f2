// The text of a board: the settings that it holds, or why it is refused.
#![tactic(auto)]

mod faults;

ghost use Rattle.std.specs.Prelude.{◌≡◌, ◌++◌, ◌≤◌, length};
ghost use Rattle.text.specs.Line.{place_after, appended};
ghost use Rattle.listing.specs.Lines.{refused_line};
ghost use Rattle.refusals.specs.Refusal.{number_of};
ghost use Rattle.adv7194_bus.specs.Board.{board_of};
ghost use Rattle.writing.specs.Put.{Put};
ghost use Rattle.adv7194_names.specs.Widths.{text_width};
ghost use Rattle.adv7194_listing.specs.Faults.{fault_text};
ghost use Rattle.adv7194_listing.specs.Listing.{settings_text};

use adv7194_lines::lines::{NUMBERS, setting_lines};
use adv7194_reading::read;
use faults::fault_line;
pub use faults::{byte_at, field_row};
use listing::refused_line;
use refusals::Fault;
use text::{append, put};

// Room for the text of any board.
pub const TEXT_WIDTH: usize = 4096;

// Writes the two lines of a refusal, and answers the place after them.
fn refused_text(line: &mut [u8], image: &[u8], fault: Fault) -> usize
    requires { text_width ≤ length line.old }
    ensures written { Put text_width line.old 0 (refused_line (number_of fault.refusal) fault.field ++ fault_text image.now (number_of fault.refusal) fault.field) line.new result }
{
    let first = refused_line(fault.refusal.number(), fault.field);
    let bytes = first.bytes;
    let end = first.length;
    let second = put(line, 0, &bytes[0..end]);
    fault_line(line, second, image, fault)
}

// Writes the text of a board, and answers the place after it.
fn compose(line: &mut [u8], image: &[u8], known: u64) -> usize
    requires { text_width ≤ length line.old }
    ensures written { Put text_width line.old 0 (settings_text (board_of image.now known)) line.new result }
{
    let mut numbers = [0i32; NUMBERS];
    match read(image, known, &mut numbers) {
        Ok(()) => setting_lines(line, &numbers),
        Err(fault) => refused_text(line, image, fault),
    }
}

// Writes the text of a board at the front of a lent one, or nothing where it does not fit. The board is an image and the map of its known registers.
pub fn settings_text(image: &[u8], known: u64, out: &mut [u8]) -> Option<usize>
    ensures answer { result ≡ place_after out.old 0 (settings_text (board_of image.now known)) }
    ensures memory { out.new ≡ appended out.old 0 (settings_text (board_of image.now known)) }
    ensures most { length (settings_text (board_of image.now known)) ≤ text_width }
{
    let mut composed = [0u8; TEXT_WIDTH];
    let end = compose(&mut composed, image, known);
    append(out, 0, &composed[0..end])
}
