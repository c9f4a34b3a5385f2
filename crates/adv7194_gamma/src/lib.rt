// The gamma curves of the ADV7194 that a ratio gives.
#![tactic(auto)]

ghost use Rattle.std.specs.Prelude.{◌≡◌, ℕ, ◌+◌, ◌*◌};
ghost use Rattle.field_table.specs.Blocks.{between};
ghost use Rattle.adv7194_gamma.specs.Power.{Ratio};
ghost use Rattle.adv7194_gamma.specs.Curve.{bytes_of, curve_of, NearestBytes};
ghost use Rattle.adv7194_gamma.specs.Answer.{bytes_in, judged};

use refusals::Refusal;

pub mod field;
mod search;

// The seven bytes of a curve, in the order of their registers.
#[derive(Clone, Copy)]
pub struct Points {
    pub b0: u8,
    pub b1: u8,
    pub b2: u8,
    pub b3: u8,
    pub b4: u8,
    pub b5: u8,
    pub b6: u8,
}

// The least number of a ratio, and the greatest.
const FIRST: i32 = 1;

const LAST: i32 = 3;

// How far the pairs of a p lie from those of the next: a number for each q.
const ROW: u32 = 3;

// The curve of a ratio, each of its bytes searched for.
fn of_ratio(p: u64, q: u64) -> Points
    requires { Ratio p q }
    ensures answer { bytes_in result ≡ bytes_of p q }
{
    let b0 = search::byte_at(32, p, q);
    let b1 = search::byte_at(64, p, q);
    let b2 = search::byte_at(96, p, q);
    let b3 = search::byte_at(128, p, q);
    let b4 = search::byte_at(160, p, q);
    let b5 = search::byte_at(192, p, q);
    let b6 = search::byte_at(224, p, q);
    Points {
        b0,
        b1,
        b2,
        b3,
        b4,
        b5,
        b6,
    }
}

// The curve of p and q, given as the number 3p + q: each pair by a call of its own, so that the compiler can work it out.
fn of_pair(pair: u32) -> Points
    ensures answer { (p q : ℕ) → Ratio p q → pair ≡ 3 * p + q → bytes_in result ≡ bytes_of p q }
{
    match pair {
        4 => of_ratio(1, 1),
        5 => of_ratio(1, 2),
        6 => of_ratio(1, 3),
        7 => of_ratio(2, 1),
        8 => of_ratio(2, 2),
        9 => of_ratio(2, 3),
        10 => of_ratio(3, 1),
        11 => of_ratio(3, 2),
        _ => of_ratio(3, 3),
    }
}

// Whether a number is one of 1 to 3.
fn inside(n: i32) -> bool
    ensures answer { result ≡ between 1 3 n }
{
    (FIRST <= n) & (n <= LAST)
}

// The curve of the ratio p / q.
pub fn curve(p: i32, q: i32) -> Result<Points, Refusal>
    ensures answer { judged result ≡ curve_of p q }
    ensures nearest { NearestBytes p q (judged result) }
{
    if inside(p) & inside(q) {
        return Ok(of_pair(ROW * p as u32 + q as u32));
    }
    Err(Refusal::OutOfRange)
}
