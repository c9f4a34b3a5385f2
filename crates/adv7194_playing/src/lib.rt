// Playing a packed plan against the ADV7194.
#![tactic(auto)]

ghost use Rattle.std.specs.Prelude.{◌≡◌, true, cond, length};
ghost use Rattle.refusals.specs.Order.{Exactly};
ghost use Rattle.unpacking.specs.Unpacking.{unpack, counted};
ghost use Rattle.adv7194_bus.specs.Kind.{register_count};
ghost use Rattle.adv7194_bus.specs.Board.{board_of};
ghost use Rattle.adv7194_bus.specs.Rules.{Rules, all_keep_rules};
ghost use Rattle.adv7194_captions.specs.Plans.{Captions, are_captions};
ghost use Rattle.bus.specs.Address.{address_right};
ghost use Rattle.bus.specs.Known.{marks};
ghost use Rattle.adv7194_playing.specs.Kinds.{needs_transaction, takes_header, takes_data, pair_from, PairThere};
ghost use Rattle.playing.specs.Playing.{judged_if, JudgedBy, row_played, play_order, acknowledged, play_of};
ghost use Rattle.adv7194_playing.specs.Playing.{Takes, takes, call_of, played_board, answer_of, known_of};
ghost use Rattle.adv7194_playing.specs.Written.{Written, count_of, map_of};
ghost use Rattle.bits.specs.Lists.{Every};

use adv7194_bus::REGISTERS;
use adv7194_captions::{at_pair, is_odd};
use bus::image::copied;
use playing::check_call;
use refusals::Refusal;
use unpacking::places::copy_data;
use unpacking::steps::{Order, begin, next};

// The map of no register.
const NONE: u64 = 0;

// The map of a pair's registers, from its first on.
const PAIR: u64 = 3;

// The plans that a play call takes.
#[derive(Clone, Copy)]
pub enum PlanKind {
    // Those of settings, which keep the three rules.
    Settings,
    // Those of captions.
    Captions,
}

// What a plan that was played did: whether every byte was acknowledged, and the map of the registers known after it.
#[derive(Clone, Copy)]
pub struct Played {
    pub acknowledged: bool,
    pub known: u64,
}

// What a walk over a plan finds: how many transactions there are, and the map with their registers in it.
#[derive(Clone, Copy)]
struct Walk {
    transactions: u8,
    known: u64,
}

// Whether a plan of this kind must have a transaction.
fn needs_transaction(kind: PlanKind) -> bool
    ensures answer { result ≡ needs_transaction kind }
{
    match kind {
        PlanKind::Settings => false,
        PlanKind::Captions => true,
    }
}

// The map of the registers that a transaction with this subaddress and data count touches, where this kind takes those; else of none.
fn touched(kind: PlanKind, subaddress: u8, count: u8) -> u64
    ensures answer { result ≡ cond (takes_header kind subaddress count) (marks 0 subaddress count) 0 }
{
    match kind {
        PlanKind::Settings => adv7194_bus::touched(subaddress, count),
        PlanKind::Captions => {
            if at_pair(subaddress, count) {
                return PAIR << subaddress;
            }
            NONE
        }
    }
}

// Whether it takes the transaction's data, which registers hold from the subaddress on.
fn takes_data(kind: PlanKind, registers: &[u8], subaddress: u8) -> bool
    requires { PairThere kind subaddress registers.now }
    ensures answer { result ≡ takes_data kind (pair_from subaddress registers.now) }
{
    match kind {
        PlanKind::Settings => true,
        PlanKind::Captions => {
            let first = subaddress as usize;
            let second = first + 1;
            is_odd(registers[first]) & is_odd(registers[second])
        }
    }
}

// Writes the data of every transaction of a plan into registers and marks these in the map, as long as its bytes keep the packing and this kind takes the
// transactions, and answers how many there are; the registers are no image of a chip's where the plan is refused.
fn write_plan(
    kind: PlanKind,
    plan: &[u8],
    registers: &mut [u8],
    known: u64,
) -> Result<Walk, Refusal>
    requires { length registers.old ≡ register_count }
    ensures answer { count_of result ≡ counted (judged_if (takes kind) (unpack plan.now)) }
    ensures memory { Written (judged_if (takes kind) (unpack plan.now)) (board_of registers.old known)
        (board_of registers.new (map_of known result)) }
{
    let mut cursor = begin(plan, Order::Ascending);
    let mut transactions: u8 = 0;
    let mut map = known;
    while let Some(found) = next(plan, cursor)? {
        let written = touched(kind, found.subaddress, found.count);
        if written == NONE {
            return Err(Refusal::PlanBytes);
        }
        copy_data(plan, found.data, registers, found.subaddress, found.count);
        if !takes_data(kind, registers, found.subaddress) {
            return Err(Refusal::PlanBytes);
        }
        map |= written;
        cursor = found.after;
        transactions += 1;
    }
    if (transactions == 0) & needs_transaction(kind) {
        return Err(Refusal::PlanBytes);
    }
    Ok(Walk {
        transactions,
        known: map,
    })
}

// Plays a packed plan once image and addresses are checked: its data are written into a copy of the image; where the plan is accepted and was sent to
// the chip's own address, the image becomes that copy, and the registers written are known.
// Beside adv7195_playing's: that chip has no registers that are unknown, so one function for both would carry a map that means nothing there.
fn play_checked(
    kind: PlanKind,
    image: &mut [u8],
    known: u64,
    used: u32,
    own: u32,
    plan: &[u8],
) -> Result<Played, Refusal>
    requires { (length image.old ≡ register_count) × (address_right used ≡ true) × (address_right own ≡ true) }
    ensures answer { answer_of result ≡ play_of (call_of (takes kind) (board_of image.old known) used own plan.now) }
    ensures memory { board_of image.new (known_of known result) ≡ played_board (takes kind) (board_of image.old known) used own plan.now }
{
    let mut registers: [u8; REGISTERS as usize] = copied(image);
    let walk = write_plan(kind, plan, &mut registers, known)?;
    if used != own {
        return Ok(Played {
            acknowledged: walk.transactions == 0,
            known,
        });
    }
    image.copy_from_slice(&registers);
    Ok(Played {
        acknowledged: true,
        known: walk.known,
    })
}

// Plays a packed plan of this kind, sent at the address used, against a fresh chip of its own address that holds the image, of which the registers in
// the map are known.
fn play_kind(
    kind: PlanKind,
    image: &mut [u8],
    known: u64,
    used: u32,
    own: u32,
    plan: &[u8],
) -> Result<Played, Refusal>
    ensures answer { answer_of result ≡ play_of (call_of (takes kind) (board_of image.old known) used own plan.now) }
    ensures memory { board_of image.new (known_of known result) ≡ played_board (takes kind) (board_of image.old known) used own plan.now }
    ensures exactly { Exactly (row_played (call_of (takes kind) (board_of image.old known) used own plan.now)) play_order
        (acknowledged (call_of (takes kind) (board_of image.old known) used own plan.now)) (answer_of result) }
    ensures taken { JudgedBy (Takes kind) (call_of (takes kind) (board_of image.old known) used own plan.now) }
{
    check_call(image.len(), REGISTERS as usize, used, own)?;
    play_checked(kind, image, known, used, own, plan)
}

// Plays a packed plan of settings, sent at the address used, against a fresh chip of its own address that holds the image, of which the registers in the
// map are known.
pub fn play(
    image: &mut [u8],
    known: u64,
    used: u32,
    own: u32,
    plan: &[u8],
) -> Result<Played, Refusal>
    ensures answer { answer_of result ≡ play_of (call_of all_keep_rules (board_of image.old known) used own plan.now) }
    ensures memory { board_of image.new (known_of known result) ≡ played_board all_keep_rules (board_of image.old known) used own plan.now }
    ensures exactly { Exactly (row_played (call_of all_keep_rules (board_of image.old known) used own plan.now)) play_order
        (acknowledged (call_of all_keep_rules (board_of image.old known) used own plan.now)) (answer_of result) }
    ensures taken { JudgedBy (Every Rules) (call_of all_keep_rules (board_of image.old known) used own plan.now) }
{
    play_kind(PlanKind::Settings, image, known, used, own, plan)
}

// Plays a packed plan of captions, as `play` plays one of settings.
pub fn play_captions(
    image: &mut [u8],
    known: u64,
    used: u32,
    own: u32,
    plan: &[u8],
) -> Result<Played, Refusal>
    ensures answer { answer_of result ≡ play_of (call_of are_captions (board_of image.old known) used own plan.now) }
    ensures memory { board_of image.new (known_of known result) ≡ played_board are_captions (board_of image.old known) used own plan.now }
    ensures exactly { Exactly (row_played (call_of are_captions (board_of image.old known) used own plan.now)) play_order
        (acknowledged (call_of are_captions (board_of image.old known) used own plan.now)) (answer_of result) }
    ensures taken { JudgedBy Captions (call_of are_captions (board_of image.old known) used own plan.now) }
{
    play_kind(PlanKind::Captions, image, known, used, own, plan)
}
