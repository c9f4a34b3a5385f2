ghost use Rattle.std.specs.Prelude.{◌≡◌, List, ◌∷◌, ◌++◌, ℕ, ◌≤◌, length};
ghost use Rattle.packing.specs.Packing.{packed_length};
ghost use Rattle.packing.specs.Written.{list_bits, written, finished_with};
ghost use Rattle.cutting.specs.Task.{Bounded, Plannable, plan_by};
ghost use Rattle.planning.specs.Plan.{without, Mapped, Packable, Joinable, list_of, joined_by, most_number, numbers_of, answer_of, packing_of, plan_after};

use crate::maps;
use crate::spans::plan_spans;
use cutting::spans::Spans;
use packing::{BYTE_BITS, FIELD_BITS, Pending};
use refusals::{Fault, NO_FIELD, Refusal};

// The width of a transaction's header in a packed plan: subaddress and data count.
const HEADER_BITS: u64 = 12;

// The most zero bits that fill the last byte.
const MOST_FILL: u64 = 7;

// What planning answers: how many bytes and transactions the packed plan has and what it costs on the bus.
#[derive(Clone, Copy)]
pub struct Packed {
    pub length: u32,
    pub transactions: u32,
    pub bus_bytes: u32,
}

// The bytes of a packed plan with that many transactions and that many data bytes in all.
pub fn packed_length(transactions: u32, data_bytes: u32) -> u64
    ensures answer { result ≡ packed_length transactions data_bytes }
{
    let bits = FIELD_BITS + HEADER_BITS * transactions as u64 + BYTE_BITS * data_bytes as u64;
    (bits + MOST_FILL) / BYTE_BITS
}

// The numbers of a packed plan with that many transactions and that many data bytes in all, where the lent plan has room for it.
fn numbers(transactions: u32, data_bytes: u32, room: usize) -> Result<Packed, Fault>
    requires { (transactions ≤ most_number) × (data_bytes ≤ most_number) }
    ensures answer { answer_of result ≡ numbers_of transactions data_bytes room }
{
    let length = packed_length(transactions, data_bytes);
    if (room as u64) < length {
        return Err(Refusal::PlanRoom.at(NO_FIELD));
    }
    Ok(Packed {
        length: length as u32,
        transactions,
        bus_bytes: bus::cost::bus_bytes(transactions, data_bytes) as u32,
    })
}

// Packs the transactions that touch the registers of one map and go on over those of another, with the wanted bytes, after what is written and pending, and
// fills the last byte.
fn pack_spans(plan: &mut [u8], first: Pending, taken: u64, goes: u64, wanted: &[u8])
    requires { Packable taken goes wanted.now plan.old first }
    ensures memory { plan.new ≡ finished_with plan.old (written plan.old first ++ list_bits (list_of taken goes wanted.now)) }
{
    // A `while`, not a `for`: the bits that are left of the map tell where the next run begins and ends.
    let mut pending = first;
    let mut rest = taken;
    let mut from: usize = 0;
    while rest != 0 {
        let start = from + bits::maps::lowest(rest) as usize;
        let more = bits::maps::run((goes >> start) >> 1);
        let end = start + more as usize + 1;
        pending = packing::pack_transaction(plan, pending, start as u8, &wanted[start..end]);
        rest = taken >> end;
        from = end;
    }
    packing::finish(plan, pending);
}

// The transactions of the plan that writes the needed registers: where no more registers are covered than the limit, each run of them is one.
fn plan_maps(needed: u64, allowed: u64, held: u64, limit: usize) -> Spans
    requires { Bounded needed allowed limit }
    ensures answer { (w : List ℕ) → Plannable needed allowed held limit w → Mapped (plan_by needed allowed held limit w) w result.taken result.starts (without result.taken result.starts) }
{
    let covered = maps::covered(needed, allowed);
    if bits::maps::count(covered) as usize <= limit {
        let starts = maps::starts(covered);
        return Spans {
            taken: covered,
            starts,
        };
    }
    plan_spans(needed, allowed, held, limit)
}

// Packs the plan that writes the needed registers, where it fits the lent plan: no transaction ends before a held register or has more data than the limit.
// The three maps and the limit are no struct: each clause and theorem of a plan names the four by themselves.
pub fn pack(
    plan: &mut [u8],
    needed: u64,
    allowed: u64,
    held: u64,
    limit: usize,
    wanted: &[u8],
) -> Result<Packed, Fault>
    requires { Plannable needed allowed held limit wanted.now }
    ensures answer { answer_of result ≡ packing_of (plan_by needed allowed held limit wanted.now) (length plan.old) }
    ensures memory { plan.new ≡ plan_after (plan_by needed allowed held limit wanted.now) plan.old }
{
    let found = plan_maps(needed, allowed, held, limit);
    let taken = found.taken;
    let starts = found.starts;
    let transactions = bits::maps::count(starts);
    let data_bytes = bits::maps::count(taken);
    let packed = numbers(transactions, data_bytes, plan.len())?;
    let first = packing::begin(transactions as u8);
    pack_spans(plan, first, taken, taken & !starts, wanted);
    Ok(packed)
}

// Packs a transaction for the registers from one on, and after it the plan that writes the needed registers, where both fit the lent plan.
pub fn pack_after(
    plan: &mut [u8],
    start: u8,
    bytes: &[u8],
    needed: u64,
    allowed: u64,
    wanted: &[u8],
) -> Result<Packed, Fault>
    requires { Joinable start bytes.now needed allowed wanted.now }
    ensures answer { answer_of result ≡ packing_of (record { subaddress = start; bytes = bytes.now } ∷ joined_by needed allowed wanted.now) (length plan.old) }
    ensures memory { plan.new ≡ plan_after (record { subaddress = start; bytes = bytes.now } ∷ joined_by needed allowed wanted.now) plan.old }
{
    let taken = maps::covered(needed, allowed);
    let starts = maps::starts(taken);
    let transactions = bits::maps::count(starts) + 1;
    let data_bytes = bits::maps::count(taken) + bytes.len() as u32;
    let packed = numbers(transactions, data_bytes, plan.len())?;
    let begun = packing::begin(transactions as u8);
    let first = packing::pack_transaction(plan, begun, start, bytes);
    pack_spans(plan, first, taken, taken & !starts, wanted);
    Ok(packed)
}
