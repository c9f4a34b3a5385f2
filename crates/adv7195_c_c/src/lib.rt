// The functions for the ADV7195 in progressive-scan mode as C links them: each is the function of adv7195_c of the same name, with the same contract.
// A slice is a pointer and a length.
#![tactic(auto)]

ghost use Rattle.std.specs.Prelude.{◌≡◌, ◌<◌, length, take};
ghost use Rattle.packing.specs.Packing.{anywhere};
ghost use Rattle.unpacking.specs.Unpacking.{CountedBy, UnpacksBy, unpack_by};
ghost use Rattle.unpacking.specs.Indexed.{header_of, transaction_of, data_after};
ghost use Rattle.answers.specs.Answers.{plan_answer, read_answer, transaction_answer};
ghost use Rattle.adv7195_settings.specs.Wanted.{wanted_by, Demanded};
ghost use Rattle.adv7195_settings.specs.Reading.{read_of, read_left};
ghost use Rattle.playing.specs.Playing.{play_of, registers_left};
ghost use Rattle.adv7195_playing.specs.Playing.{call_of};
ghost use Rattle.adv7195_least.specs.Played.{Played};
ghost use Rattle.adv7195_least.specs.Demands.{Least, First, most_bytes};
ghost use Rattle.adv7195_planning.specs.Planning.{list_of, planning_of, plan_left};
ghost use Rattle.adv7195_c.specs.Answers.{play_answer};

use adv7195_c::play_numbers::PlayAnswer;
use answers::plan_numbers::PlanAnswer;
use answers::read_numbers::ReadAnswer;
use answers::transaction_numbers::TransactionAnswer;

// Plans the settings over an image, for the chip at a bus address, into the lent plan.
#[unsafe(no_mangle)]
pub extern "C" fn adv7195_plan(
    image: &[u8],
    settings: &[i32],
    address: u32,
    plan: &mut [u8],
) -> PlanAnswer
    ensures answer { result ≡ plan_answer (planning_of image.now settings.now address (length plan.old)) }
    ensures memory { plan.new ≡ plan_left image.now settings.now address plan.old }
    ensures counted { result.refusal ≡ 0 → CountedBy anywhere (take result.length plan.new) result.length result.transactions result.bus_bytes }
    ensures demanded { result.refusal ≡ 0 → Demanded image.now settings.now (wanted_by image.now settings.now) }
    ensures played { result.refusal ≡ 0 → Played image.now (wanted_by image.now settings.now) (take result.length plan.new) }
    ensures least { result.refusal ≡ 0 → Least image.now (wanted_by image.now settings.now) result.transactions result.bus_bytes }
    ensures first { result.refusal ≡ 0 → First image.now (wanted_by image.now settings.now)
        (list_of image.now settings.now) }
    ensures room { result.refusal ≡ 10 → length plan.old < most_bytes }
{
    adv7195_c::adv7195_plan(image, settings, address, plan)
}

// Plays a packed plan, sent at the address used, against a fresh chip of its own address that holds the image.
#[unsafe(no_mangle)]
pub extern "C" fn adv7195_play(image: &mut [u8], used: u32, own: u32, plan: &[u8]) -> PlayAnswer
    ensures answer { result ≡ play_answer (play_of (call_of image.old used own plan.now)) }
    ensures memory { image.new ≡ registers_left (call_of image.old used own plan.now) }
{
    adv7195_c::adv7195_play(image, used, own, plan)
}

// Reads an image into the lent settings.
#[unsafe(no_mangle)]
pub extern "C" fn adv7195_read(image: &[u8], settings: &mut [i32]) -> ReadAnswer
    ensures answer { result ≡ read_answer (read_of image.now (length settings.old)) }
    ensures memory { settings.new ≡ read_left image.now settings.old }
{
    adv7195_c::adv7195_read(image, settings)
}

// The transaction with an index, counted from 0, of a packed plan in any order: its subaddress and data count, with its data at the front of the memory lent.
#[unsafe(no_mangle)]
pub extern "C" fn adv7195_transaction(plan: &[u8], index: u32, data: &mut [u8]) -> TransactionAnswer
    ensures answer { result ≡ transaction_answer (header_of (transaction_of (unpack_by anywhere plan.now) index (length «data».old))) }
    ensures memory { «data».new ≡ data_after (transaction_of (unpack_by anywhere plan.now) index (length «data».old)) «data».old }
    ensures unpacked { UnpacksBy anywhere plan.now (unpack_by anywhere plan.now) }
{
    adv7195_c::adv7195_transaction(plan, index, data)
}
