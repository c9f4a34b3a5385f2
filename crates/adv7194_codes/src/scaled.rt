// Signed settings times a ratio, rounded to whole numbers, and back: one law over numerator and denominator.
ghost use Rattle.std.specs.Prelude.{◌≡◌, ◌+◌, ◌*◌, ◌^◌, ◌≤◌, ◌<◌, nat_abs};
ghost use Rattle.rounding.specs.Nearest.{LeastMultiple};
ghost use Rattle.field_table.specs.Coding.{nearest_times as nearest_of};
ghost use Rattle.adv7194_codes.specs.Signs.{with_sign};

// The whole number nearest to a setting times numerator / denominator, by signed division.
pub fn nearest_times(numerator: u32, denominator: u32, setting: i32) -> i32
    requires { (0 < numerator) × (numerator < 2 ^ 31) × (0 < denominator) × (numerator * nat_abs setting + denominator < 2 ^ 31) }
    ensures answer { result ≡ nearest_of numerator denominator setting }
{
    let product = numerator as i32 * setting;
    let half = (denominator / 2) as i32;
    let moved = if product < 0 {
        product - half
    } else {
        product + half
    };
    moved / denominator as i32
}

// The setting nearest zero that is rounded to a number of steps: their sign, and the least magnitude.
pub fn least_times(numerator: u32, denominator: u32, steps: i32) -> i32
    requires { (0 < numerator) × (numerator ≤ denominator) × (nat_abs steps * denominator < 2 ^ 30) }
    ensures least { LeastMultiple numerator denominator (nat_abs steps) (nat_abs result) }
    ensures sign { result ≡ with_sign steps (nat_abs result) }
{
    let magnitude = rounding::least_multiple(numerator, denominator, steps.unsigned_abs()) as i32;
    if steps < 0 { -magnitude } else { magnitude }
}
