// The chip at bus events.
use crate::context::Context;
use crate::print;
use adv7194_bus::board::known_after;
use bus::chip;
use bus::chip::{Acknowledge, Event, Phase, State};
use records::tokens;
use records::tokens::{BYTE, Tokens};
use std::io;

// How many registers the chip has.
const REGISTERS: usize = adv7194_bus::REGISTERS as usize;

// Above every address.
const OWN_LIMIT: u32 = 0x100;

// Events by their letters; any other letter is a byte read and not acknowledged.
const START: u64 = 0x153;

const STOP: u64 = 0x150;

const READ: u64 = 0x152;

// The event of a token.
fn event(token: u64) -> Event {
    if BYTE <= token {
        return Event::FromMaster((token % 256) as u8);
    }
    if token == START {
        return Event::Start;
    }
    if token == STOP {
        return Event::Stop;
    }
    Event::ToMaster(token == READ)
}

// The mark of an acknowledge.
fn mark(answer: Acknowledge) -> u8 {
    match answer {
        Acknowledge::Acknowledged => b'+',
        Acknowledge::NotAcknowledged => b'-',
        Acknowledge::NotAsked => b'.',
    }
}

// The letter of a phase.
fn letter(phase: Phase) -> u8 {
    match phase {
        Phase::Idle => b'I',
        Phase::AwaitAddress => b'A',
        Phase::AwaitSubaddress => b'S',
        Phase::AwaitData => b'D',
        Phase::Sending => b'T',
    }
}

// One event at the chip: what came of it is printed, and the state after it is answered.
fn one(
    rt: &impl Print,
    state: State,
    token: u64,
    own: u8,
    registers: &mut [u8; 54],
) -> io::Result<State> {
    let stepped = adv7194_bus::step(state, event(token), own, registers);
    let acknowledge = stepped.acknowledge;
    print::marked(rt, stepped.byte, mark(acknowledge))?;
    let next = stepped.state;
    Ok(next)
}

// The pointer and the phase of a chip's state.
fn ended(rt: &impl Print, state: State) -> io::Result<()> {
    let phase = state.phase;
    print::marked(rt, (state.pointer % 256) as u8, letter(phase))
}

// The events of a record at a fresh chip: what came of each, and the pointer and the phase after them. The map of the known registers after them is answered.
fn all(
    rt: &impl Print,
    tokens: Tokens,
    own: u8,
    known: u64,
    registers: &mut [u8; 54],
) -> io::Result<u64> {
    let held = tokens.held;
    let count = tokens.count;
    let mut state = chip::fresh();
    let mut map = known;
    for token in held.iter().take(count).skip(tokens.second) {
        map = known_after(state, event(*token), map);
        state = one(rt, state, *token, own, registers)?;
    }
    ended(rt, state)?;
    Ok(map)
}

// The events of a record at a chip with these registers, and the registers after them; those that are known too where flags were given.
fn run(
    rt: &impl Print,
    tokens: Tokens,
    context: Context,
    registers: &mut [u8; 54],
) -> io::Result<()> {
    print::verdict(rt, 0, 0)?;
    let map = all(
        rt,
        tokens,
        (context.first % OWN_LIMIT) as u8,
        context.given.known,
        registers,
    )?;
    print::bytes(rt, registers)?;
    print::known(rt, context.given.flags, map)
}

// Answers a record of events, if its list has all registers.
pub(crate) fn events(rt: &impl Print, tokens: Tokens, context: Context) -> io::Result<()> {
    let mut registers = [0u8; 54];
    let n = tokens::bytes(tokens.held, tokens.first, tokens.middle, &mut registers);
    if (n != REGISTERS) | (OWN_LIMIT <= context.first) {
        return print::no_record(rt);
    }
    run(rt, tokens, context, &mut registers)
}
