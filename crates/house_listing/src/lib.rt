// The house setting planned over an image that is known in full, as text: the plan with a line a transaction, or the refusal.
#![tactic(auto)]

ghost use Rattle.std.specs.Prelude.{◌≡◌, length};
ghost use Rattle.planning.specs.Plan.{answer_of};
ghost use Rattle.text.specs.Line.{place_after, appended};
ghost use Rattle.adv7194_bus.specs.Kind.{board_address};
ghost use Rattle.adv7194_bus.specs.Limit.{no_limit};
ghost use Rattle.adv7194_settings.specs.House.{house as house_setting};
ghost use Rattle.adv7194_planning.specs.Planning.{planning_of, plan_left};
ghost use Rattle.house_listing.specs.HouseText.{board_in, house_text};

use adv7194_bus::board::ALL_KNOWN;
use adv7194_bus::{BOARD_ADDRESS, NO_LIMIT};
use adv7194_settings::house;
use answer_listing::answer_listing;
use planning::plan::Packed;
use refusals::Fault;

// The most bytes that a packed plan has where there is no limit.
pub const MOST_BYTES: usize = 44;

// Plans the house setting over an image into the lent plan.
pub fn plan_house(image: &[u8], plan: &mut [u8]) -> Result<Packed, Fault>
    ensures answer { answer_of result ≡ planning_of (board_in image.now) house_setting board_address no_limit (length plan.old) }
    ensures memory { plan.new ≡ plan_left (board_in image.now) house_setting board_address no_limit plan.old }
{
    let numbers = house();
    adv7194_planning::plan(image, ALL_KNOWN, &numbers, BOARD_ADDRESS, NO_LIMIT, plan)
}

// Writes the text of the house setting planned over an image at the front of the memory lent.
pub fn house_listing(out: &mut [u8], image: &[u8]) -> Option<usize>
    ensures answer { result ≡ place_after out.old 0 (house_text image.now) }
    ensures memory { out.new ≡ appended out.old 0 (house_text image.now) }
{
    let mut plan = [0u8; MOST_BYTES];
    let planned = plan_house(image, &mut plan);
    answer_listing(out, planned, &plan)
}
