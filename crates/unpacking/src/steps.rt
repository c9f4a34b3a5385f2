// One step through a packed plan: the next transaction with the place of its data, or none at the end, or a refusal. Every walk takes it.
ghost use Rattle.std.specs.Prelude.{◌≡◌, ◌+◌, ◌^◌, ◌<◌};
ghost use Rattle.unpacking.specs.Places.{left_at, Placed};
ghost use Rattle.unpacking.specs.Steps.{start_after, beginning, filling as filling_of, found_at, next_of};

use crate::places::{FIRST_HELD, HEADER_BYTES, ONE_TRANSACTION, Place, header_at, within};
use refusals::Refusal;

// Where a transaction may start: at the end of the one before it or past it, or anywhere.
#[derive(Clone, Copy)]
pub enum Order {
    Ascending,
    Any,
}

// How far a walk has come: its place, how many transactions are still to come, and the first register that the next may start at.
#[derive(Clone, Copy)]
pub struct Cursor {
    pub place: Place,
    pub left: u8,
    pub free: u8,
    pub order: Order,
}

// A transaction that a step finds: its subaddress, its data count, the place of its data, and the cursor past it.
#[derive(Clone, Copy)]
pub struct Transaction {
    pub subaddress: u8,
    pub count: u8,
    pub data: Place,
    pub after: Cursor,
}

// The first register that a transaction may start at, by the end of the one before it.
fn start_after(order: Order, end: u8) -> u8
    ensures answer { result ≡ start_after order end }
{
    match order {
        Order::Ascending => end,
        Order::Any => 0,
    }
}

// Whether nothing but the zero bits that fill the last byte is left at a place.
fn filling(plan: &[u8], place: Place) -> bool
    requires { Placed plan.now place }
    ensures answer { result ≡ filling_of (left_at plan.now place) }
{
    let at = place.at;
    if at < plan.len() {
        return false;
    }
    let last = at - 1;
    plan[last] as u32 % (1 << place.held) == 0
}

// A transaction with its data at a place, and the cursor past it, with so many transactions to come.
fn found(subaddress: u8, count: u8, place: Place, left: u8, order: Order) -> Transaction
    requires { (subaddress + count < 2 ^ 8) × (place.at + count < 2 ^ 64) }
    ensures answer { result ≡ found_at subaddress count place left order }
{
    let after = Place {
        at: place.at + count as usize,
        held: place.held,
    };
    Transaction {
        subaddress,
        count,
        data: place,
        after: Cursor {
            place: after,
            left,
            free: start_after(order, subaddress + count),
            order,
        },
    }
}

// The cursor at a plan's beginning.
pub fn begin(plan: &[u8], order: Order) -> Cursor
    ensures answer { result ≡ beginning plan.now order }
{
    let place = Place {
        at: 1,
        held: FIRST_HELD,
    };
    if plan.len() == 0 {
        return Cursor {
            place,
            left: 0,
            free: 0,
            order,
        };
    }
    Cursor {
        place,
        left: plan[0] / ONE_TRANSACTION,
        free: 0,
        order,
    }
}

// The step at a cursor: the next transaction, or none at the end of a well-formed plan; bytes that break the packing are refused.
#[inline(always)]
pub fn next(plan: &[u8], cursor: Cursor) -> Result<Option<Transaction>, Refusal>
    ensures answer { result ≡ next_of plan.now cursor }
{
    let place = cursor.place;
    if !within(plan, place) {
        return Err(Refusal::PlanBytes);
    }
    if cursor.left == 0 {
        return if filling(plan, place) {
            Ok(None)
        } else {
            Err(Refusal::PlanBytes)
        };
    }
    if plan.len() - place.at < HEADER_BYTES {
        return Err(Refusal::PlanBytes);
    }
    let header = header_at(plan, place);
    let subaddress = header.subaddress;
    let count = header.count;
    let data = header.next;
    if count == 0 {
        return Err(Refusal::PlanBytes);
    }
    if subaddress < cursor.free {
        return Err(Refusal::PlanBytes);
    }
    if plan.len() - data.at < count as usize {
        return Err(Refusal::PlanBytes);
    }
    Ok(Some(found(subaddress, count, data, cursor.left - 1, cursor.order)))
}
