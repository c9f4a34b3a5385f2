// The house setting planned over an image that is known in full, as text, with the reason of each register sent.
#![tactic(auto)]

ghost use Rattle.std.specs.Prelude.{◌≡◌, ◌≤◌, length};
ghost use Rattle.text.specs.Line.{place_after, appended};
ghost use Rattle.listing.specs.Written.{line_width};
ghost use Rattle.planning.specs.Plan.{answer_of};
ghost use Rattle.answer_listing.specs.AnswerText.{first_line, answer_text, list_in};
ghost use Rattle.writing.specs.Put.{Put};
ghost use Rattle.adv7194_bus.specs.Limit.{no_limit};
ghost use Rattle.adv7194_settings.specs.House.{house};
ghost use Rattle.adv7194_reasons.specs.Why.{reason_in};
ghost use Rattle.house_listing.specs.HouseText.{board_in};
ghost use Rattle.why_listing.specs.WhyText.{transaction_text, house_why_text};
ghost use Rattle.why_listing.specs.Parts.{Ready, text_width};

use answer_listing::first_line;
use house_listing::{MOST_BYTES, plan_house};
use lines::plan_lines;
use planning::plan::Packed;
use refusals::Fault;
use text::put;

mod lines;

// Room for any text.
const TEXT_ROOM: usize = 2048;

// Writes the first line of what planning answered at the front of a line that has room for any, and answers the place after it.
fn put_first(line: &mut [u8], planned: Result<Packed, Fault>) -> usize
    requires { line_width ≤ length line.old }
    ensures written { Put line_width line.old 0 (first_line (answer_of planned)) line.new result }
{
    let first = first_line(planned);
    let bytes = first.bytes;
    let end = first.length;
    put(line, 0, &bytes[0..end])
}

// Writes the text of what planning answered, with the plan that it left, at the front of a line that has room for any, and answers the place after it.
fn put_text(line: &mut [u8], image: &[u8], planned: Result<Packed, Fault>, plan: &[u8]) -> usize
    requires { (text_width ≤ length line.old) × Ready image.now plan.now (answer_of planned) }
    ensures written { Put text_width line.old 0
        (answer_text (transaction_text (reason_in (board_in image.now) house no_limit)) (list_in plan.now (answer_of planned)) (answer_of planned)) line.new result }
{
    let first = put_first(line, planned);
    let Ok(packed) = planned else {
        return first;
    };
    let end = packed.length as usize;
    plan_lines(line, first, image, &plan[..end])
}

// Writes the text of the house setting planned over an image, with the reason of each register sent, at the front of the memory lent.
pub fn why_listing(out: &mut [u8], image: &[u8]) -> Option<usize>
    ensures answer { result ≡ place_after out.old 0 (house_why_text image.now) }
    ensures memory { out.new ≡ appended out.old 0 (house_why_text image.now) }
    ensures short { length (house_why_text image.now) ≤ text_width }
{
    let mut plan = [0u8; MOST_BYTES];
    let planned = plan_house(image, &mut plan);
    let mut line = [0u8; TEXT_ROOM];
    let end = put_text(&mut line, image, planned, &plan);
    text::append(out, 0, &line[0..end])
}
