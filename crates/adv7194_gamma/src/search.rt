// The byte of a gamma curve at one place, found by a search that halves the range of candidate bytes.
ghost use Rattle.std.specs.Prelude.{◌≡◌, cond, ◌+◌, ◌-◌, ◌^◌, ◌≤◌, ◌<◌, ltb};
ghost use Rattle.adv7194_gamma.specs.Power.{below_half, nearest_power, Ratio};

// The black level, from which a curve's places and bytes count.
const BLACK: u64 = 16;

// The range above it.
const SPAN: u64 = 224;

// A range of candidate bytes: the lowest times LOWEST, plus how many are above it.
const LOWEST: u32 = 256;

// All candidates, 16 to 240.
const ALL: u32 = 16 * LOWEST + 224;

// How many rounds a search has.
const BUDGET: u8 = 9;

// b where more than k factors are wanted, else 1.
fn factor(b: u64, e: u64, k: u64) -> u64
    ensures answer { result ≡ cond (ltb k e) b 1 }
{
    if k < e { b } else { 1 }
}

// b to the power e, for an e of 1 to 3.
fn power(b: u64, e: u64) -> u64
    requires { (b ≤ 450) × (0 < e) × (e ≤ 3) }
    ensures answer { result ≡ b ^ e }
    ensures small { result ≤ 450 ^ 3 }
{
    b * factor(b, e, 1) * factor(b, e, 2)
}

// Whether 224 (x / 224)^(p/q) is below r and a half.
fn below_half(x: u64, p: u64, q: u64, r: u64) -> bool
    requires { (x ≤ 224) × Ratio p q × (r ≤ 224) }
    ensures answer { result ≡ below_half x p q r }
{
    power(2 * SPAN, q) * power(x, p) < power(2 * r + 1, q) * power(SPAN, p)
}

// One of two ranges.
fn choose(first: bool, lower: u32, upper: u32) -> u32
    ensures answer { result ≡ cond first lower upper }
{
    if first { lower } else { upper }
}

// The byte at n of the ratio p/q: the range of candidates is halved until none is above the lowest. A round judges one candidate and spends one from the
// budget. A range is one number, and both halves are worked out before one is chosen: so the compiler can work out a whole search whose n, p and q it knows.
pub fn byte_at(n: u64, p: u64, q: u64) -> u8
    requires { (16 ≤ n) × (n ≤ 240) × Ratio p q }
    ensures answer { result ≡ 16 + nearest_power (n - 16) p q }
{
    let x = n - BLACK;
    let mut range = ALL;
    let mut budget = BUDGET;
    let found = loop {
        budget -= 1;
        let low = range / LOWEST;
        let half = range % LOWEST / 2;
        let lower = low * LOWEST + half;
        let upper = range + (half + 1) * (LOWEST - 1);
        let below = below_half(x, p, q, (low + half) as u64 - BLACK);
        range = choose(below, lower, upper);
        if range % LOWEST == 0 {
            break (range / LOWEST) as u8;
        }
    };
    found
}
