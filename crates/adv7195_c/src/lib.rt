// The functions that adv7195_c_c, which C and Rust link, exports for the ADV7195 in progressive-scan mode: planning, playing and reading with settings and
// answers as numbers, and a plan's transactions.
#![tactic(auto)]

ghost use Rattle.std.specs.Prelude.{◌≡◌, ◌<◌, length, take};
ghost use Rattle.packing.specs.Packing.{anywhere};
ghost use Rattle.unpacking.specs.Unpacking.{CountedBy, UnpacksBy, unpack_by};
ghost use Rattle.unpacking.specs.Indexed.{header_of, transaction_of, data_after};
ghost use Rattle.answers.specs.Answers.{plan_answer, read_answer, transaction_answer};
ghost use Rattle.adv7195_settings.specs.Wanted.{wanted_by, Demanded};
ghost use Rattle.adv7195_settings.specs.Reading.{read_of, read_left};
ghost use Rattle.playing.specs.Playing.{play_of, registers_left};
ghost use Rattle.adv7195_playing.specs.Playing.{call_of};
ghost use Rattle.adv7195_least.specs.Played.{Played};
ghost use Rattle.adv7195_least.specs.Demands.{Least, First, most_bytes};
ghost use Rattle.adv7195_planning.specs.Planning.{list_of, planning_of, plan_left};
ghost use Rattle.adv7195_c.specs.Answers.{play_answer};

pub mod play_numbers;

use adv7195_playing::play;
use adv7195_reading::read;
use answers::plan_numbers::{PlanAnswer, plan_answer};
use answers::read_numbers::{ReadAnswer, read_answer};
use answers::transaction_numbers::{TransactionAnswer, transaction_answer};
use play_numbers::{PlayAnswer, play_answer};
use unpacking::indexed::transaction;
use unpacking::steps::Order;

// Plans the settings over an image, for the chip at a bus address, into the lent plan.
pub fn adv7195_plan(image: &[u8], settings: &[i32], address: u32, plan: &mut [u8]) -> PlanAnswer
    ensures answer { result ≡ plan_answer (planning_of image.now settings.now address (length plan.old)) }
    ensures memory { plan.new ≡ plan_left image.now settings.now address plan.old }
    ensures counted { result.refusal ≡ 0 → CountedBy anywhere (take result.length plan.new) result.length result.transactions result.bus_bytes }
    ensures demanded { result.refusal ≡ 0 → Demanded image.now settings.now (wanted_by image.now settings.now) }
    ensures played { result.refusal ≡ 0 → Played image.now (wanted_by image.now settings.now) (take result.length plan.new) }
    ensures least { result.refusal ≡ 0 → Least image.now (wanted_by image.now settings.now) result.transactions result.bus_bytes }
    ensures first { result.refusal ≡ 0 → First image.now (wanted_by image.now settings.now)
        (list_of image.now settings.now) }
    ensures room { result.refusal ≡ 10 → length plan.old < most_bytes }
{
    plan_answer(adv7195_planning::plan(image, settings, address, plan))
}

// Plays a packed plan, sent at the address used, against a fresh chip of its own address that holds the image.
pub fn adv7195_play(image: &mut [u8], used: u32, own: u32, plan: &[u8]) -> PlayAnswer
    ensures answer { result ≡ play_answer (play_of (call_of image.old used own plan.now)) }
    ensures memory { image.new ≡ registers_left (call_of image.old used own plan.now) }
{
    play_answer(play(image, used, own, plan))
}

// Reads an image into the lent settings.
pub fn adv7195_read(image: &[u8], settings: &mut [i32]) -> ReadAnswer
    ensures answer { result ≡ read_answer (read_of image.now (length settings.old)) }
    ensures memory { settings.new ≡ read_left image.now settings.old }
{
    read_answer(read(image, settings))
}

// The transaction with an index, counted from 0, of a packed plan in any order: its subaddress and data count, with its data at the front of the memory lent.
pub fn adv7195_transaction(plan: &[u8], index: u32, data: &mut [u8]) -> TransactionAnswer
    ensures answer { result ≡ transaction_answer (header_of (transaction_of (unpack_by anywhere plan.now) index (length «data».old))) }
    ensures memory { «data».new ≡ data_after (transaction_of (unpack_by anywhere plan.now) index (length «data».old)) «data».old }
    ensures unpacked { UnpacksBy anywhere plan.now (unpack_by anywhere plan.now) }
{
    transaction_answer(transaction(plan, Order::Any, index, data))
}
