// Two images side by side, as text.
#![tactic(auto)]

ghost use Rattle.std.specs.Prelude.{◌≡◌, ◌&&◌, ◌+◌, ◌≤◌, length};
ghost use Rattle.text.specs.Line.{place_after, appended};
ghost use Rattle.listing.specs.Lines.{refused_line};
ghost use Rattle.writing.specs.Put.{Put};
ghost use Rattle.adv7194_settings.specs.Held.{settings_held};
ghost use Rattle.adv7194_compare.specs.Compare.{can_be_read};
ghost use Rattle.adv7194_compare.specs.Differences.{fields_differing, registers_differing};
ghost use Rattle.compare_listing.specs.Widths.{text_width};
ghost use Rattle.compare_listing.specs.CompareText.{side_text, compare_text};

use adv7194_compare::{fields_differing, registers_differing, taken, whole};
use compare_fields::field_lines;
use lines::register_lines;
use listing::refused_line;
use refusals::{NO_FIELD, Refusal};
use writing::put_counted;

mod lines;

// How many numbers settings are.
const NUMBERS: usize = 49;

// Room for the text of any two images.
const TEXT_ROOM: usize = 16384;

// How many differences there are.
fn count(a: &[u8], b: &[u8]) -> u64
    ensures answer { result ≡ length (fields_differing a.now b.now) + length (registers_differing a.now b.now) }
{
    let fields = bits::maps::count(fields_differing(a, b) as u64);
    let registers = bits::maps::count(registers_differing(a, b));
    fields as u64 + registers as u64
}

// Writes the text of two images of the right length into a line that has room for any, and answers the place after it.
fn write_sides(
    line: &mut [u8],
    readable: bool,
    a: &[u8],
    b: &[u8],
    left: &[i32],
    right: &[i32],
) -> usize
    requires { text_width ≤ length line.old }
    ensures written { Put text_width line.old 0 (side_text readable a.now b.now left.now right.now) line.new result }
{
    let counted = put_counted(line, 0, b"DIFFERENCES ", count(a, b), b"\n");
    let listed = field_lines(line, counted, readable, a, b, left, right);
    register_lines(line, listed, a, b)
}

// Writes the text of two images of the right length at the front of the memory lent.
fn list_sides(
    out: &mut [u8],
    readable: bool,
    a: &[u8],
    b: &[u8],
    left: &[i32],
    right: &[i32],
) -> Option<usize>
    ensures answer { result ≡ place_after out.old 0 (side_text readable a.now b.now left.now right.now) }
    ensures memory { out.new ≡ appended out.old 0 (side_text readable a.now b.now left.now right.now) }
{
    let mut line = [0u8; TEXT_ROOM];
    let end = write_sides(&mut line, readable, a, b, left, right);
    text::append(out, 0, &line[0..end])
}

// Reads two images of the right length, and writes their text at the front of the memory lent.
fn list_images(out: &mut [u8], a: &[u8], b: &[u8]) -> Option<usize>
    ensures answer { result ≡ place_after out.old 0 (side_text (can_be_read a.now && can_be_read b.now) a.now b.now (settings_held a.now) (settings_held b.now)) }
    ensures memory { out.new ≡ appended out.old 0 (side_text (can_be_read a.now && can_be_read b.now) a.now b.now (settings_held a.now) (settings_held b.now)) }
{
    let mut left = [0i32; NUMBERS];
    let mut right = [0i32; NUMBERS];
    let first = taken(a, &mut left);
    let second = taken(b, &mut right);
    list_sides(out, first && second, a, b, &left, &right)
}

// Writes the line of refusal 1 at the front of the memory lent.
fn list_refusal(out: &mut [u8]) -> Option<usize>
    ensures answer { result ≡ place_after out.old 0 (refused_line 1 0) }
    ensures memory { out.new ≡ appended out.old 0 (refused_line 1 0) }
{
    let line = refused_line(Refusal::ImageLength.number(), NO_FIELD);
    let bytes = line.bytes;
    let end = line.length;
    text::append(out, 0, &bytes[0..end])
}

// Writes the text of two images side by side at the front of the memory lent.
#[tactic(auto, unfolding(crate::specs::CompareText::compare_text))]
pub fn compare_listing(out: &mut [u8], a: &[u8], b: &[u8]) -> Option<usize>
    ensures answer { result ≡ place_after out.old 0 (compare_text a.now b.now) }
    ensures memory { out.new ≡ appended out.old 0 (compare_text a.now b.now) }
{
    if !whole(a) || !whole(b) {
        return list_refusal(out);
    }
    list_images(out, a, b)
}
