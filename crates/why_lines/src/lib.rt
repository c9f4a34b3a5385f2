// The line of a register that the plan of the house setting sends: its number and the reason.
#![tactic(auto)]

mod words;

ghost use Rattle.std.specs.Prelude.{◌≡◌, ◌+◌, ◌≤◌, length};
ghost use Rattle.refusals.specs.Verdict.{good};
ghost use Rattle.adv7194_bus.specs.Kind.{register_count};
ghost use Rattle.writing.specs.Put.{Put};
ghost use Rattle.adv7194_bus.specs.Limit.{no_limit};
ghost use Rattle.adv7194_settings.specs.House.{house};
ghost use Rattle.adv7194_reasons.specs.Why.{reason_in, why_as};
ghost use Rattle.house_listing.specs.HouseText.{board_in};
ghost use Rattle.why_lines.specs.RegisterLine.{register_line, register_width};

use adv7194_bus::NO_LIMIT;
use adv7194_bus::board::ALL_KNOWN;
use adv7194_reasons::{Reason, why};
use adv7194_settings::house;
use refusals::Fault;
use text::put;
use words::put_reason;
use writing::put_hex;

// Why the plan of the house setting over an image has a register.
fn house_reason(image: &[u8], register: u8) -> Result<Reason, Fault>
    requires { length image.now ≡ register_count }
    ensures answer { why_as result ≡ good (reason_in (board_in image.now) house no_limit register) }
{
    let numbers = house();
    why(image, ALL_KNOWN, &numbers, NO_LIMIT, register as u32)
}

// Writes a register's line, and answers the place after it.
pub fn register_line(line: &mut [u8], at: usize, image: &[u8], register: u8) -> usize
    requires { (at + register_width ≤ length line.old) × (length image.now ≡ register_count) }
    ensures written { Put register_width line.old at (register_line register (reason_in (board_in image.now) house no_limit register)) line.new result }
{
    let number = put_hex(line, at, register);
    let spaced = put(line, number, b" ");
    let reason = put_reason(line, spaced, house_reason(image, register));
    put(line, reason, b"\n")
}
