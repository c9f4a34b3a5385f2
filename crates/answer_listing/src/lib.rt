// What a planner answers, as text: the plan with a line a transaction, or the refusal.
#![tactic(auto)]

ghost use Rattle.std.specs.Prelude.{◌≡◌};
ghost use Rattle.unpacking.specs.Unpacking.{unpack};
ghost use Rattle.unpacking.specs.Listed.{listed, Accepted};
ghost use Rattle.text.specs.Line.{place_after, appended};
ghost use Rattle.listing.specs.Written.{line_of, word_of};
ghost use Rattle.plan_listing.specs.PlanText.{transaction_line};
ghost use Rattle.planning.specs.Plan.{answer_of};
ghost use Rattle.answer_listing.specs.AnswerText.{first_line, packed_bytes, text_below, list_in, Holds, answer_text};

use listing::{Line, Word, first_word, plan_line, refused_line};
use plan_listing::list_plan;
use planning::plan::Packed;
use refusals::Fault;

// The first line of what a planner answered: the plan's counts, or the refusal.
pub fn first_line(planned: Result<Packed, Fault>) -> Line
    ensures answer { result ≡ line_of (first_line (answer_of planned)) }
{
    match planned {
        Ok(packed) => plan_line(packed.transactions as u64, packed.bus_bytes as u64),
        Err(fault) => refused_line(fault.refusal.number(), fault.field),
    }
}

// How many bytes of the lent plan it packed: none where it refused.
fn packed_bytes(planned: Result<Packed, Fault>) -> usize
    ensures answer { result ≡ packed_bytes (answer_of planned) }
{
    match planned {
        Ok(packed) => packed.length as usize,
        Err(_) => 0,
    }
}

// Writes a first line and, where its word is PLAN, a line a transaction of the packed plan. Any other line stands alone.
fn list_answer(out: &mut [u8], line: &[u8], plan: &[u8]) -> Option<usize>
    requires { word_of line.now ≡ Word.Plan → Accepted plan.now }
    ensures answer { result ≡ place_after out.old 0 (text_below line.now (listed (unpack plan.now))) }
    ensures memory { out.new ≡ appended out.old 0 (text_below line.now (listed (unpack plan.now))) }
{
    let Word::Plan = first_word(line) else {
        return text::append(out, 0, line);
    };
    list_plan(out, line, plan).unwrap_or(None)
}

// Writes the text of what a planner answered, with the plan that it left, at the front of the memory lent.
pub fn answer_listing(out: &mut [u8], planned: Result<Packed, Fault>, plan: &[u8]) -> Option<usize>
    requires { Holds plan.now (answer_of planned) }
    ensures answer { result ≡ place_after out.old 0 (answer_text transaction_line (list_in plan.now (answer_of planned)) (answer_of planned)) }
    ensures memory { out.new ≡ appended out.old 0 (answer_text transaction_line (list_in plan.now (answer_of planned)) (answer_of planned)) }
{
    let packed = packed_bytes(planned);
    let line = first_line(planned);
    list_answer(out, &line.bytes[..line.length], &plan[..packed])
}
