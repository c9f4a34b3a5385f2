// Fields 26 and 27, the gamma curves: read as seven bytes.
ghost use Rattle.std.specs.Prelude.{◌≡◌, ◌+◌, ◌≤◌, ◌<◌, length};
ghost use Rattle.refusals.specs.Verdict.{after, fault_of, verdict_as};
ghost use Rattle.field_table.specs.Blocks.{store_from};
ghost use Rattle.adv7194_table.specs.Blocks.{block_of};
ghost use Rattle.adv7194_table.specs.Table.{curve, whole};
ghost use Rattle.adv7194_gamma.specs.Curve.{curve_numbers};
ghost use Rattle.adv7194_gamma.specs.Answer.{bytes_in};
ghost use Rattle.adv7194_settings.specs.Held.{block_reading, store_entry};
ghost use Rattle.adv7194_reading_blocks.specs.Blocks.{CurveSize};

use crate::places::keep;
use adv7194_gamma::Points;
use adv7194_gamma::field::curve_setting;
use adv7194_table::blocks::block_of;
use refusals::Fault;

// The kind of a curve that is seven bytes.
const BYTES: i32 = 1;

// A curve's ten numbers stored from an index on: its kind, no ratio, its bytes.
fn keep_curve(numbers: &mut [i32], index: usize, points: Points)
    requires { index < 256 }
    ensures memory { numbers.new ≡ store_from numbers.old index (curve_numbers (bytes_in points)) }
{
    let values = [
        BYTES,
        0,
        0,
        i32::from(points.b0),
        i32::from(points.b1),
        i32::from(points.b2),
        i32::from(points.b3),
        i32::from(points.b4),
        i32::from(points.b5),
        i32::from(points.b6),
    ];
    keep(numbers, index, &values);
}

// A curve read, after the fields before: any seven bytes are a curve.
pub fn read_curve(
    before: Result<(), Fault>,
    packed: u64,
    image: &[u8],
    numbers: &mut [i32],
) -> Result<(), Fault>
    requires { CurveSize (block_of packed) × ((block_of packed).register + 7 ≤ length image.now) }
    ensures answer { verdict_as result ≡ after (verdict_as before) (fault_of (block_of packed).field (block_reading image.now curve (block_of packed))) }
    ensures memory { numbers.new ≡ store_entry image.now numbers.old (whole curve (block_of packed)) }
{
    let block = block_of(packed);
    // Kept: document 01 names `let .. else` for a field's reader.
    let Ok(points) = curve_setting(image, block.register) else {
        return before;
    };
    keep_curve(numbers, block.index, points);
    before
}
