// The functions that adv7194_c_c, which C and Rust link, exports: planning, playing, reading and comparing with settings and answers as numbers, why a register
// is sent, the house setting, planning, playing and reading captions, and a plan's transactions.
#![tactic(auto)]

ghost use Rattle.std.specs.Prelude.{◌≡◌, ◌≤◌, ◌<◌, length, take};
ghost use Rattle.packing.specs.Packing.{behind};
ghost use Rattle.unpacking.specs.Unpacking.{CountedBy, UnpacksBy, unpack};
ghost use Rattle.unpacking.specs.Indexed.{header_of, transaction_of, data_after};
ghost use Rattle.adv7194_bus.specs.Board.{board_of};
ghost use Rattle.adv7194_bus.specs.Rules.{all_keep_rules};
ghost use Rattle.adv7194_settings.specs.Wanted.{wanted_by};
ghost use Rattle.adv7194_settings.specs.Demand.{Demanded};
ghost use Rattle.adv7194_settings.specs.House.{house_of, house_left};
ghost use Rattle.adv7194_settings.specs.Reading.{read_of, read_left};
ghost use Rattle.adv7194_captions.specs.Plans.{are_captions};
ghost use Rattle.adv7194_captions.specs.Planning.{caption_planning, caption_plan_left};
ghost use Rattle.adv7194_captions.specs.Reading.{caption_reading};
ghost use Rattle.adv7194_least.specs.Aim.{aim_of};
ghost use Rattle.adv7194_least.specs.Played.{Played};
ghost use Rattle.adv7194_least.specs.Demands.{Least, First, Only, most_bytes, wide_limit, wide_bytes};
ghost use Rattle.adv7194_planning.specs.Rows.{list_of};
ghost use Rattle.adv7194_planning.specs.Planning.{planning_of, plan_left};
ghost use Rattle.adv7194_reasons.specs.Why.{why_of};
ghost use Rattle.playing.specs.Playing.{play_of};
ghost use Rattle.adv7194_playing.specs.Playing.{call_of, played_board};
ghost use Rattle.adv7194_compare.specs.Differences.{Equal};
ghost use Rattle.adv7194_compare.specs.Compare.{compare_of};
ghost use Rattle.adv7194_caption_planning.specs.Demands.{CaptionsPlayed, caption_bytes};
ghost use Rattle.answers.specs.Answers.{plan_answer, read_answer, transaction_answer};
ghost use Rattle.adv7194_answers.specs.Answers.{play_answer, captions_answer, compare_answer, NothingDiffers, why_answer, TrueReason};

use adv7194_answers::captions_numbers::{CaptionsAnswer, captions_answer};
use adv7194_answers::compare_numbers::{CompareAnswer, compare_answer};
use adv7194_answers::play_numbers::{PlayAnswer, play_answer};
use adv7194_answers::why_numbers::{WhyAnswer, why_answer};
use adv7194_caption_planning::plan_captions;
use adv7194_caption_reading::read_captions;
use adv7194_compare::compare;
use adv7194_playing::{play, play_captions};
use adv7194_reading::{read, read_house};
use adv7194_reasons::why;
use answers::plan_numbers::{PlanAnswer, plan_answer};
use answers::read_numbers::{ReadAnswer, read_answer};
use answers::transaction_numbers::{TransactionAnswer, transaction_answer};
use unpacking::indexed::transaction;
use unpacking::steps::Order;

// Plans the settings over an image of which the registers in a map are known, for the chip at a bus address, with a limit on the data of a transaction, into
// the lent plan.
pub fn adv7194_plan(
    image: &[u8],
    known: u64,
    settings: &[i32],
    address: u32,
    limit: u32,
    plan: &mut [u8],
) -> PlanAnswer
    ensures answer { result ≡ plan_answer (planning_of (board_of image.now known) settings.now address limit (length plan.old)) }
    ensures memory { plan.new ≡ plan_left (board_of image.now known) settings.now address limit plan.old }
    ensures counted { result.refusal ≡ 0 → CountedBy behind (take result.length plan.new) result.length result.transactions result.bus_bytes }
    ensures demanded { result.refusal ≡ 0 → Demanded image.now settings.now (wanted_by image.now settings.now) }
    ensures played { result.refusal ≡ 0 → Played (aim_of (board_of image.now known) settings.now limit) (take result.length plan.new) }
    ensures least { result.refusal ≡ 0 → Least (aim_of (board_of image.now known) settings.now limit) result.transactions result.bus_bytes }
    ensures first { result.refusal ≡ 0 → First (aim_of (board_of image.now known) settings.now limit)
        (list_of (board_of image.now known) settings.now limit) }
    ensures only { result.refusal ≡ 0 → Only (aim_of (board_of image.now known) settings.now limit)
        (list_of (board_of image.now known) settings.now limit) }
    ensures room { result.refusal ≡ 10 → (length plan.old < most_bytes) × (wide_limit ≤ limit → length plan.old < wide_bytes) }
{
    plan_answer(adv7194_planning::plan(image, known, settings, address, limit, plan))
}

// Plays a packed plan of settings, sent at the address used, against a fresh chip of its own address that holds the image, of which the registers in a
// map are known; the answer has the map after it.
pub fn adv7194_play(image: &mut [u8], known: u64, used: u32, own: u32, plan: &[u8]) -> PlayAnswer
    ensures answer { result ≡ play_answer (play_of (call_of all_keep_rules (board_of image.old known) used own plan.now))
        (played_board all_keep_rules (board_of image.old known) used own plan.now).known }
    ensures memory { board_of image.new result.known ≡ played_board all_keep_rules (board_of image.old known) used own plan.now }
{
    play_answer(play(image, known, used, own, plan), known)
}

// Reads an image of which the registers in a map are known into the lent settings.
pub fn adv7194_read(image: &[u8], known: u64, settings: &mut [i32]) -> ReadAnswer
    ensures answer { result ≡ read_answer (read_of (board_of image.now known) (length settings.old)) }
    ensures memory { settings.new ≡ read_left (board_of image.now known) settings.old }
{
    read_answer(read(image, known, settings))
}

// The house setting in the lent settings.
pub fn adv7194_house(settings: &mut [i32]) -> ReadAnswer
    ensures answer { result ≡ read_answer (house_of (length settings.old)) }
    ensures memory { settings.new ≡ house_left settings.old }
{
    read_answer(read_house(settings))
}

// The transaction with an index, counted from 0, of a packed plan: its subaddress and data count, with its data at the front of the memory lent.
pub fn adv7194_transaction(plan: &[u8], index: u32, data: &mut [u8]) -> TransactionAnswer
    ensures answer { result ≡ transaction_answer (header_of (transaction_of (unpack plan.now) index (length «data».old))) }
    ensures memory { «data».new ≡ data_after (transaction_of (unpack plan.now) index (length «data».old)) «data».old }
    ensures unpacked { UnpacksBy behind plan.now (unpack plan.now) }
{
    transaction_answer(transaction(plan, Order::Ascending, index, data))
}

// Two images side by side: the fields that differ, and the registers that differ in bits outside all fields. Register 0x34 is never compared.
pub fn adv7194_compare(a: &[u8], b: &[u8]) -> CompareAnswer
    ensures answer { result ≡ compare_answer (compare_of a.now b.now) }
    ensures empty { Equal a.now b.now → NothingDiffers result }
    ensures only { NothingDiffers result → Equal a.now b.now }
{
    compare_answer(compare(a, b))
}

// Plans one or both pairs of characters, for the chip at a bus address, into the lent plan. A pair is two numbers, or none where it is not given.
pub fn adv7194_plan_captions(
    extended: &[i32],
    ordinary: &[i32],
    address: u32,
    plan: &mut [u8],
) -> PlanAnswer
    ensures answer { result ≡ plan_answer (caption_planning extended.now ordinary.now address (length plan.old)) }
    ensures memory { plan.new ≡ caption_plan_left extended.now ordinary.now address plan.old }
    ensures played { result.refusal ≡ 0 → CaptionsPlayed extended.now ordinary.now (take result.length plan.new) }
    ensures room { result.refusal ≡ 10 → length plan.old < caption_bytes }
{
    plan_answer(plan_captions(extended, ordinary, address, plan))
}

// Plays a packed plan of captions as `adv7194_play` plays one of settings.
pub fn adv7194_play_captions(
    image: &mut [u8],
    known: u64,
    used: u32,
    own: u32,
    plan: &[u8],
) -> PlayAnswer
    ensures answer { result ≡ play_answer (play_of (call_of are_captions (board_of image.old known) used own plan.now))
        (played_board are_captions (board_of image.old known) used own plan.now).known }
    ensures memory { board_of image.new result.known ≡ played_board are_captions (board_of image.old known) used own plan.now }
{
    play_answer(play_captions(image, known, used, own, plan), known)
}

// Reads a pair of characters, 0 the extended and 1 the ordinary one, from an image of which the registers in a map are known.
pub fn adv7194_read_captions(image: &[u8], known: u64, pair: u32) -> CaptionsAnswer
    ensures answer { result ≡ captions_answer (caption_reading (board_of image.now known) pair) }
{
    captions_answer(read_captions(image, known, pair))
}

// Why the plan that brings an image, of which the registers in a map are known, to the settings, with a limit on the data of a transaction, has a register.
pub fn adv7194_why(
    image: &[u8],
    known: u64,
    settings: &[i32],
    limit: u32,
    subaddress: u32,
) -> WhyAnswer
    ensures answer { result ≡ why_answer (why_of (board_of image.now known) settings.now limit subaddress) }
    ensures reason { result.refusal ≡ 0 → TrueReason (aim_of (board_of image.now known) settings.now limit)
        (list_of (board_of image.now known) settings.now limit) subaddress result }
{
    why_answer(why(image, known, settings, limit, subaddress))
}
