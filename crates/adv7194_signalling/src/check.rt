// The six check bits of CGMS. They are kept with C14, the register's top bit, lowest, as the word has them: so the register's
// bits are reversed and it shifts down.
ghost use Rattle.std.specs.Prelude.{◌≡◌, ◌<◌};
ghost use mathlib.Core.List.{foldl};
ghost use Rattle.bits.specs.Strings.{lsb_first};
ghost use Rattle.adv7194_signalling.specs.Check.{after_bit, check_of, reversed};

// What the register starts from: six ones.
const START: u32 = 0b111111;

// The values of four, five and ten bits.
const FOUR_BITS: u32 = 16;

const FIVE_BITS: u32 = 32;

const TEN_BITS: u32 = 1024;

// The reversed register after five payload bits, lowest first: of five bits the feedback of each depends on none of the others.
fn after_five(check: u32, bits: u32) -> u32
    requires { check < 64 }
    ensures answer { result ≡ reversed (foldl after_bit (reversed check) (lsb_first 5 bits)) }
{
    let feedback = (check ^ bits) % FIVE_BITS;
    (check / FIVE_BITS) ^ feedback ^ (feedback * 2)
}

// The reversed register after four payload bits.
fn after_four(check: u32, bits: u32) -> u32
    requires { check < 64 }
    ensures answer { result ≡ reversed (foldl after_bit (reversed check) (lsb_first 4 bits)) }
{
    let feedback = (check ^ bits) % FOUR_BITS;
    (check / FOUR_BITS) ^ (feedback * 2) ^ (feedback * 4)
}

// The check bits of a payload, C14 lowest.
pub fn check_bits(payload: u32) -> u32
    ensures answer { result ≡ reversed (check_of payload) }
{
    let five = after_five(START, payload);
    let ten = after_five(five, payload / FIVE_BITS);
    after_four(ten, payload / TEN_BITS)
}
