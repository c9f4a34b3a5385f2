// The lines of a plan, each transaction's with those of its registers. Each function answers the place after what it wrote.
ghost use Rattle.std.specs.Prelude.{◌≡◌, ◌+◌, ◌*◌, ◌≤◌, ◌<◌, ◌^◌, length};
ghost use mathlib.Core.List.{flat_map};
ghost use Rattle.unpacking.specs.Unpacking.{unpack};
ghost use Rattle.unpacking.specs.Listed.{listed, Accepted};
ghost use Rattle.adv7194_bus.specs.Kind.{register_count};
ghost use Rattle.writing.specs.Put.{Put};
ghost use Rattle.adv7194_bus.specs.Limit.{no_limit};
ghost use Rattle.adv7194_settings.specs.House.{house};
ghost use Rattle.adv7194_reasons.specs.Why.{reason_in};
ghost use Rattle.house_listing.specs.HouseText.{board_in};
ghost use Rattle.why_lines.specs.RegisterLine.{register_width};
ghost use Rattle.why_listing.specs.WhyText.{register_lines, transaction_text};
ghost use Rattle.why_listing.specs.Parts.{transaction_width, byte_width};

use plan_listing::put_line;
use unpacking::places::copy_data;
use unpacking::steps::{Order, begin, next};
use why_lines::register_line;

// The most data bytes of a transaction.
const MOST_DATA: usize = 63;

// Writes the lines of so many registers from the first on.
fn register_lines(line: &mut [u8], at: usize, image: &[u8], first: u8, count: u8) -> usize
    requires { (at + register_width * count ≤ length line.old) × ((length image.now ≡ register_count) × (first + count < 2 ^ 8)) }
    ensures written { Put (register_width * count) line.old at (register_lines (reason_in (board_in image.now) house no_limit) count first) line.new result }
{
    let mut place = at;
    for i in 0..count {
        place = register_line(line, place, image, first + i);
    }
    place
}

// Writes a transaction's line and those of its registers.
fn transaction_lines(
    line: &mut [u8],
    at: usize,
    image: &[u8],
    subaddress: u8,
    bytes: &[u8],
) -> usize
    requires { (at + transaction_width (length bytes.now) ≤ length line.old)
        × ((length image.now ≡ register_count) × (subaddress + length bytes.now < 2 ^ 8)) }
    ensures written { Put (transaction_width (length bytes.now)) line.old at
        (transaction_text (reason_in (board_in image.now) house no_limit) (record { subaddress = subaddress; bytes = bytes.now })) line.new result }
{
    let sent = put_line(line, at, subaddress, bytes);
    register_lines(line, sent, image, subaddress, bytes.len() as u8)
}

// Writes the lines of a well-formed plan.
pub(crate) fn plan_lines(line: &mut [u8], at: usize, image: &[u8], plan: &[u8]) -> usize
    requires { Accepted plan.now × ((at + byte_width * length plan.now ≤ length line.old) × (length image.now ≡ register_count)) }
    ensures written { Put (byte_width * length plan.now) line.old at
        (flat_map (transaction_text (reason_in (board_in image.now) house no_limit)) (listed (unpack plan.now))) line.new result }
{
    let mut cursor = begin(plan, Order::Ascending);
    let mut place = at;
    while let Ok(Some(t)) = next(plan, cursor) {
        let mut bytes = [0u8; MOST_DATA];
        copy_data(plan, t.data, &mut bytes, 0, t.count);
        place = transaction_lines(line, place, image, t.subaddress, &bytes[..t.count as usize]);
        cursor = t.after;
    }
    place
}
