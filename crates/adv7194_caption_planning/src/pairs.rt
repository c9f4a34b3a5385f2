// The pairs of a caption plan: whether they may be planned, and their packing.
ghost use Rattle.std.specs.Prelude.{◌≡◌, true, map, ◌++◌, ◌<◌, length, drop};
ghost use Rattle.packing.specs.Packing.{packed};
ghost use Rattle.packing.specs.Written.{list_bits, Sound, Room, Put};
ghost use Rattle.adv7194_captions.specs.Characters.{caption_byte};
ghost use Rattle.adv7194_captions.specs.Pairs.{pair_right, pairs_right, pair_at, caption_list};
ghost use Rattle.adv7194_caption_planning.specs.Packable.{Packable};

use adv7194_captions::{EXTENDED, ORDINARY, caption_byte, pair_right};
use packing::Pending;

// Whether both pairs are right, and one at least is given.
pub fn pairs_right(extended: &[i32], ordinary: &[i32]) -> bool
    ensures answer { result ≡ pairs_right extended.now ordinary.now }
{
    pair_right(extended) & (pair_right(ordinary) & ((extended.len() != 0) | (ordinary.len() != 0)))
}

// The bytes that the two characters of a pair leave as.
fn pair_bytes(pair: &[i32]) -> [u8; 2]
    requires { (pair_right pair.now ≡ true) × (0 < length pair.now) }
    ensures answer { result ≡ map caption_byte pair.now }
{
    let first = caption_byte(pair[0]);
    let second = caption_byte(pair[1]);
    [first, second]
}

// Packs the transaction of a pair at its first register; nothing where it is not given.
fn pack_pair(plan: &mut [u8], pending: Pending, register: u8, pair: &[i32]) -> Pending
    requires { Sound pending × (register < 64) × (pair_right pair.now ≡ true) × Room plan.old pending (length (list_bits (pair_at register pair.now))) }
    ensures answer { Put plan.old plan.new pending (list_bits (pair_at register pair.now)) result }
{
    if pair.len() == 0 {
        return pending;
    }
    let bytes = pair_bytes(pair);
    packing::pack_transaction(plan, pending, register, &bytes)
}

// Packs the pairs, the extended one before the ordinary one.
pub fn pack_pairs(plan: &mut [u8], transactions: u8, extended: &[i32], ordinary: &[i32])
    requires { Packable extended.now ordinary.now transactions plan.old }
    ensures memory { plan.new ≡ packed (caption_list extended.now ordinary.now)
        ++ drop (length (packed (caption_list extended.now ordinary.now))) plan.old }
{
    let begun = packing::begin(transactions);
    let first = pack_pair(plan, begun, EXTENDED, extended);
    let both = pack_pair(plan, first, ORDINARY, ordinary);
    packing::finish(plan, both);
}
