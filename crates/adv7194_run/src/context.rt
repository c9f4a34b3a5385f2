// What a record asks with, and what it gives to those after it: which registers are known, and the limit on the data of a transaction.
use crate::forms::Operation;
use adv7194_bus::NO_LIMIT;
use adv7194_bus::board::ALL_KNOWN;
use records::tokens;
use records::tokens::Tokens;

// A map is below this while one more byte fits.
const MAP_LIMIT: u64 = 0x100_0000_0000_0000;

// What records give to those after them: the map of the known registers, whether a record gave it, and the limit.
#[derive(Clone, Copy)]
pub(crate) struct Given {
    pub(crate) known: u64,
    pub(crate) flags: bool,
    pub(crate) limit: u32,
}

// A record's operation and first numbers, the second as a signed one too; and what those before it gave.
#[derive(Clone, Copy)]
pub(crate) struct Context {
    pub(crate) operation: Operation,
    pub(crate) first: u32,
    pub(crate) second: u32,
    pub(crate) third: u32,
    pub(crate) setting: i32,
    pub(crate) given: Given,
}

// Before the first record: all registers are known and there is no limit where no record says otherwise.
pub(crate) fn initial() -> Given {
    Given {
        known: ALL_KNOWN,
        flags: false,
        limit: NO_LIMIT,
    }
}

// The context of a record of an operation with these tokens.
pub(crate) fn of_record(operation: Operation, tokens: Tokens, before: Given) -> Context {
    let held = tokens.held;
    let second = held[2];
    Context {
        operation,
        first: tokens::unsigned(held[1]),
        second: tokens::unsigned(second),
        third: tokens::unsigned(held[3]),
        setting: tokens::signed(second),
        given: before,
    }
}

// A map with one byte more at its lower end.
fn joined(map: u64, byte: u8) -> u64 {
    map % MAP_LIMIT * 256 + byte as u64
}

// The map of bytes, the highest first.
fn map_of(bytes: &[u8]) -> u64 {
    let mut map = 0;
    for byte in bytes {
        map = joined(map, *byte);
    }
    map
}

// What is given after a record with this image.
pub(crate) fn after(image: &[u8], context: Context) -> Given {
    let before = context.given;
    match context.operation {
        Operation::Known => Given {
            known: map_of(image),
            flags: true,
            ..before
        },
        Operation::Limit => Given {
            limit: context.first,
            ..before
        },
        _ => before,
    }
}
