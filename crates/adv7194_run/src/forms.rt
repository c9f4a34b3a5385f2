// The operations of records, and the form that a record of each has.
use records::tokens::Tokens;

// The words of the operations: their characters as one number.
const PLAN: u64 = 0x706C_616E;

const PLAY: u64 = 0x706C_6179;

const READ: u64 = 0x7265_6164;

const WHY: u64 = 0x77_6879;

const HOUSE: u64 = 0x68_6F75_7365;

const CAPTION: u64 = 0x63_6170_7469_6F6E;

const PLAYCAP: u64 = 0x70_6C61_7963_6170;

const READCAP: u64 = 0x72_6561_6463_6170;

const EVENTS: u64 = 0x6576_656E_7473;

const CODE: u64 = 0x636F_6465;

const SETTING: u64 = 0x73_6574_7469_6E67;

const PLAN7195: u64 = 0x706C_616E_3731_3935;

const PLAY7195: u64 = 0x706C_6179_3731_3935;

const READ7195: u64 = 0x7265_6164_3731_3935;

const KNOWN: u64 = 0x6B_6E6F_776E;

const LIMIT: u64 = 0x6C_696D_6974;

// What a record asks for.
#[derive(Clone, Copy, PartialEq, Eq)]
pub(crate) enum Operation {
    Plan,
    Play,
    Read,
    Why,
    House,
    Caption,
    PlayCaptions,
    ReadCaptions,
    Events,
    Code,
    Setting,
    Plan7195,
    Play7195,
    Read7195,
    Known,
    Limit,
}

// A word that is none of an operation.
#[derive(Clone, Copy)]
pub(crate) struct NoOperation;

impl TryFrom<u64> for Operation {
    type Error = NoOperation;

    // The operation of a word.
    fn try_from(word: u64) -> Result<Operation, NoOperation> {
        match word {
            PLAN => Ok(Operation::Plan),
            PLAY => Ok(Operation::Play),
            READ => Ok(Operation::Read),
            WHY => Ok(Operation::Why),
            HOUSE => Ok(Operation::House),
            CAPTION => Ok(Operation::Caption),
            PLAYCAP => Ok(Operation::PlayCaptions),
            READCAP => Ok(Operation::ReadCaptions),
            EVENTS => Ok(Operation::Events),
            CODE => Ok(Operation::Code),
            SETTING => Ok(Operation::Setting),
            PLAN7195 => Ok(Operation::Plan7195),
            PLAY7195 => Ok(Operation::Play7195),
            READ7195 => Ok(Operation::Read7195),
            KNOWN => Ok(Operation::Known),
            LIMIT => Ok(Operation::Limit),
            _ => Err(NoOperation),
        }
    }
}

// The fewest and the most tokens before the lists of a record with settings: its word, a number, and at most 64 settings.
const FEWEST: usize = 2;

const MOST: usize = 66;

// All tokens of a record of flags: its word and eight bytes; those of a record of a code before its second list.
const FLAGS: usize = 9;

const CODED: usize = 3;

// Whether an operation's records have so many tokens before their lists.
fn numbers_fit(operation: Operation, numbers: usize) -> bool {
    match operation {
        Operation::Known | Operation::Read | Operation::Read7195 => numbers == 1,
        Operation::House
        | Operation::Limit
        | Operation::ReadCaptions
        | Operation::Events
        | Operation::Setting => numbers == 2,
        Operation::Play | Operation::PlayCaptions | Operation::Play7195 | Operation::Code => numbers
            == 3,
        Operation::Plan | Operation::Plan7195 | Operation::Caption | Operation::Why => (FEWEST
            <= numbers)
            & (numbers <= MOST),
    }
}

// Whether an operation's records have these lists: the first from so many tokens to the middle, the second from there to all tokens.
fn lists_fit(operation: Operation, numbers: usize, middle: usize, count: usize) -> bool {
    match operation {
        Operation::House | Operation::Limit => count == numbers,
        Operation::Code | Operation::Caption => middle == numbers,
        Operation::Read | Operation::Read7195 | Operation::ReadCaptions | Operation::Why => middle
            == count,
        Operation::Known => (middle == FLAGS) & (count == FLAGS),
        Operation::Setting => middle == CODED,
        _ => true,
    }
}

// Whether tokens are a record of an operation, but for what its numbers and bytes are.
pub(crate) fn fits(operation: Operation, tokens: Tokens) -> bool {
    tokens.good
        & numbers_fit(operation, tokens.numbers)
        & lists_fit(operation, tokens.numbers, tokens.middle, tokens.count)
}
