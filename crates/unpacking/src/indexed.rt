// A transaction of a packed plan by its index, for whoever sends a plan one transaction after the other.
ghost use Rattle.std.specs.Prelude.{◌≡◌, length};
ghost use Rattle.unpacking.specs.Unpacking.{unpack_by};
ghost use Rattle.unpacking.specs.Steps.{start_after};
ghost use Rattle.unpacking.specs.Indexed.{looked_up, found_as, FoundPlaced, transaction_of, header_of, data_after, answer_of};

use crate::places::copy_data;
use crate::steps::{Order, Transaction, begin, next};
use refusals::Refusal;

// What asking for a transaction answers: its subaddress and its data count.
#[derive(Clone, Copy)]
pub struct Header {
    pub subaddress: u8,
    pub count: u8,
}

// The transaction with an index, counted from 0, of a plan whose bytes keep the packing in an order; none where the plan has no transaction with that index.
fn find(plan: &[u8], order: Order, index: u32) -> Result<Option<Transaction>, Refusal>
    ensures answer { found_as plan.now result ≡ looked_up (unpack_by (start_after order) plan.now) index }
    ensures placed { FoundPlaced plan.now result }
{
    let mut cursor = begin(plan, order);
    let mut found = None;
    let mut i: u32 = 0;
    while let Some(transaction) = next(plan, cursor)? {
        if i == index {
            found = Some(transaction);
        }
        cursor = transaction.after;
        i += 1;
    }
    Ok(found)
}

// The transaction with an index, counted from 0, of a plan whose bytes keep the packing in an order: its subaddress and data count, with its data at the
// front of the memory lent.
pub fn transaction(
    plan: &[u8],
    order: Order,
    index: u32,
    memory: &mut [u8],
) -> Result<Header, Refusal>
    ensures answer { answer_of result ≡ header_of (transaction_of (unpack_by (start_after order) plan.now) index (length memory.old)) }
    ensures memory { memory.new ≡ data_after (transaction_of (unpack_by (start_after order) plan.now) index (length memory.old)) memory.old }
{
    let Some(found) = find(plan, order, index)? else {
        return Err(Refusal::OutOfRange);
    };
    let subaddress = found.subaddress;
    let count = found.count;
    if memory.len() < count as usize {
        return Err(Refusal::PlanRoom);
    }
    copy_data(plan, found.data, memory, 0, count);
    Ok(Header { subaddress, count })
}
