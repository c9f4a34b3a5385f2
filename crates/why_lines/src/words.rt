// A reason in plain words. Each function answers the place after what it wrote.
ghost use Rattle.std.specs.Prelude.{◌+◌, ◌≤◌, length};
ghost use Rattle.writing.specs.Put.{Put};
ghost use Rattle.adv7194_reasons.specs.Reasons.{changed, bridge};
ghost use Rattle.adv7194_reasons.specs.Why.{why_as};
ghost use Rattle.why_lines.specs.RegisterLine.{reason_text, answer_words, reason_width};

use adv7194_names::columns::{NAME, put_column};
use adv7194_reasons::Reason;
use refusals::Fault;
use text::put;
use writing::put_hex;

// Writes which field changed.
fn put_changed(line: &mut [u8], at: usize, field: u8) -> usize
    requires { at + reason_width ≤ length line.old }
    ensures written { Put reason_width line.old at (reason_text (changed field)) line.new result }
{
    let name = put_column(line, at, field, NAME);
    put(line, name, b" changed")
}

// Writes which needed registers a register lies between.
fn put_bridge(line: &mut [u8], at: usize, below: u8, above: u8) -> usize
    requires { at + reason_width ≤ length line.old }
    ensures written { Put reason_width line.old at (reason_text (bridge below above)) line.new result }
{
    let word = put(line, at, b"between ");
    let first = put_hex(line, word, below);
    let and = put(line, first, b" and ");
    put_hex(line, and, above)
}

// Writes a reason; nothing for a refusal.
pub(crate) fn put_reason(line: &mut [u8], at: usize, answer: Result<Reason, Fault>) -> usize
    requires { at + reason_width ≤ length line.old }
    ensures written { Put reason_width line.old at (answer_words (why_as answer)) line.new result }
{
    match answer {
        Err(_) => at,
        Ok(Reason::NotSent) => put(line, at, b"not sent"),
        Ok(Reason::Unknown) => put(line, at, b"not known"),
        Ok(Reason::Changed { field }) => put_changed(line, at, field),
        Ok(Reason::Zeroed) => put(line, at, b"must be zero"),
        Ok(Reason::Companion) => put(line, at, b"sent with the subcarrier word"),
        Ok(Reason::Bridge { below, above }) => put_bridge(line, at, below, above),
    }
}
