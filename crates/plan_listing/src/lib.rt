// The lines of a packed plan: one for each transaction, below a heading.
#![tactic(auto)]

ghost use Rattle.std.specs.Prelude.{◌≡◌, ◌+◌, ◌*◌, ◌≤◌, length};
ghost use mathlib.Core.List.{◌++◌, flat_map};
ghost use Rattle.refusals.specs.Refusal.{judged_as};
ghost use Rattle.bus.specs.Cost.{data_count};
ghost use Rattle.unpacking.specs.Unpacking.{unpack};
ghost use Rattle.unpacking.specs.Listed.{listed, Accepted};
ghost use Rattle.text.specs.Line.{place_after, appended};
ghost use Rattle.plan_listing.specs.PlanText.{transaction_line};
ghost use Rattle.plan_listing.specs.Listing.{listing_of, listing_in};

use refusals::Refusal;
use unpacking::places::copy_data;
use unpacking::steps::{Order, begin, next};

// The digits of a byte.
const HEX_DIGITS: usize = 2;
// The text of a subaddress or a datum: its digits, and a space or the line end.
const BYTE_TEXT: usize = 3;
// The bits of a plan's transaction count, of a transaction's header, and of a byte.
const COUNT_BITS: usize = 6;

const HEADER_BITS: usize = 12;

const BYTE_BITS: usize = 8;
// The most data bytes of a transaction.
const MOST_DATA: usize = 63;

// How many data bytes a well-formed plan with that many transactions has in all: the other bytes hold the count, the headers and the zero bits.
fn data_bytes(plan: &[u8], transactions: u8) -> usize
    requires { Accepted plan.now × (length (listed (unpack plan.now)) ≡ transactions) }
    ensures answer { result ≡ data_count (listed (unpack plan.now)) }
    ensures most { transactions + result ≤ length plan.now }
{
    let others = COUNT_BITS + HEADER_BITS * transactions as usize;
    plan.len() - others.div_ceil(BYTE_BITS)
}

// Writes the line of a transaction, where there is room for it, and answers the place after it.
pub fn put_line(out: &mut [u8], at: usize, subaddress: u8, bytes: &[u8]) -> usize
    requires { at + 3 * (length bytes.now + 1) ≤ length out.old }
    ensures answer { result ≡ at + 3 * (length bytes.now + 1) }
    ensures memory { out.new ≡ appended out.old at (transaction_line (record { subaddress = subaddress; bytes = bytes.now })) }
{
    text::hex_byte(out, at, subaddress);
    let mut end = at + HEX_DIGITS;
    for &byte in bytes {
        out[end] = b' ';
        text::hex_byte(out, end + 1, byte);
        end += BYTE_TEXT;
    }
    out[end] = b'\n';
    end + 1
}

// Writes a line a transaction of a well-formed plan, where there is room for them, and answers the place after them.
fn put_lines(out: &mut [u8], at: usize, plan: &[u8]) -> usize
    requires { Accepted plan.now × (at + length (flat_map transaction_line (listed (unpack plan.now))) ≤ length out.old) }
    ensures answer { result ≡ at + length (flat_map transaction_line (listed (unpack plan.now))) }
    ensures memory { out.new ≡ appended out.old at (flat_map transaction_line (listed (unpack plan.now))) }
{
    let mut cursor = begin(plan, Order::Ascending);
    let mut end = at;
    while let Ok(Some(t)) = next(plan, cursor) {
        let mut bytes = [0u8; MOST_DATA];
        copy_data(plan, t.data, &mut bytes, 0, t.count);
        end = put_line(out, end, t.subaddress, &bytes[..t.count as usize]);
        cursor = t.after;
    }
    end
}

// Writes a heading and the lines of a well-formed plan with that many transactions, or nothing where there is no room for all of it.
fn put_plan(out: &mut [u8], heading: &[u8], plan: &[u8], transactions: u8) -> Option<usize>
    requires { Accepted plan.now × (length (listed (unpack plan.now)) ≡ transactions) }
    ensures answer { result ≡ place_after out.old 0 (heading.now ++ flat_map transaction_line (listed (unpack plan.now))) }
    ensures memory { out.new ≡ appended out.old 0 (heading.now ++ flat_map transaction_line (listed (unpack plan.now))) }
{
    let data = data_bytes(plan, transactions);
    let room = out.len().checked_sub(heading.len())?;
    if room / BYTE_TEXT < transactions as usize + data {
        return None;
    }
    let first = text::put(out, 0, heading);
    Some(put_lines(out, first, plan))
}

// Writes a heading and, after it, a line a transaction of a packed plan at the front of the memory lent, and answers the place after the text; none where the
// memory is too short.
pub fn list_plan(out: &mut [u8], heading: &[u8], plan: &[u8]) -> Result<Option<usize>, Refusal>
    ensures answer { judged_as result ≡ listing_of heading.now (unpack plan.now) out.old }
    ensures memory { out.new ≡ listing_in heading.now (unpack plan.now) out.old }
{
    let transactions = unpacking::check(plan)?;
    Ok(put_plan(out, heading, plan, transactions))
}
