// Captions planned, as text: the plan of the characters with a line a transaction, or the refusal.
#![tactic(auto)]

ghost use Rattle.std.specs.Prelude.{◌≡◌, [], ◌∷◌, pos};
ghost use Rattle.text.specs.Line.{place_after, appended};
ghost use Rattle.caption_listing.specs.CaptionText.{pairs_text, caption_text};

use adv7194_bus::BOARD_ADDRESS;
use adv7194_caption_planning::plan_captions;
use adv7194_captions::{FIELD, PAIR};
use answer_listing::answer_listing;
use refusals::Refusal;

// The most bytes that a packed plan of captions has.
const MOST_BYTES: usize = 8;

// A pair of characters, as planning takes them.
fn pair_of(first: u8, second: u8) -> [i32; PAIR]
    ensures answer { result ≡ pos first ∷ pos second ∷ [] }
{
    [first as i32, second as i32]
}

// Plans one or both pairs, and writes the text of what planning answers.
fn list_pairs(out: &mut [u8], extended: &[i32], ordinary: &[i32]) -> Option<usize>
    ensures answer { result ≡ place_after out.old 0 (pairs_text extended.now ordinary.now) }
    ensures memory { out.new ≡ appended out.old 0 (pairs_text extended.now ordinary.now) }
{
    let mut plan = [0u8; MOST_BYTES];
    let planned = plan_captions(extended, ordinary, BOARD_ADDRESS, &mut plan);
    answer_listing(out, planned, &plan)
}

// Writes the text for an input's bytes, which are the characters, at the front of the memory lent.
pub fn caption_listing(out: &mut [u8], input: &[u8]) -> Option<usize>
    ensures answer { result ≡ place_after out.old 0 (caption_text input.now) }
    ensures memory { out.new ≡ appended out.old 0 (caption_text input.now) }
{
    match *input {
        [a, b] => list_pairs(out, &[], &pair_of(a, b)),
        [a, b, c, d] => list_pairs(out, &pair_of(a, b), &pair_of(c, d)),
        _ => answer_listing(out, Err(Refusal::OutOfRange.at(FIELD)), input),
    }
}
