// The subcarrier word of the ADV7194, from the timing of each television standard.
#![tactic(auto)]

ghost use Rattle.std.specs.Prelude.{◌≡◌, ◌*◌, ◌^◌};
ghost use Rattle.rounding.specs.Nearest.{Nearest};
ghost use Rattle.adv7194_subcarrier.specs.Subcarrier.{cycles_of, divisor_of, clocks_of, word_of};
ghost use Rattle.adv7194_subcarrier.specs.Answers.{is_pal};

pub mod field;

// The television standard.
#[derive(Clone, Copy)]
pub enum Standard {
    Ntsc,
    Pal,
}

impl Standard {
    // Subcarrier cycles per line: a numerator over a divisor.
    pub const NTSC_CYCLES: u64 = 455;

    pub const NTSC_DIVISOR: u64 = 2;

    pub const PAL_CYCLES: u64 = 709379;

    pub const PAL_DIVISOR: u64 = 2500;

    // Clocks per line, and with square pixels.
    pub const NTSC_CLOCKS: u64 = 1716;

    pub const NTSC_SQUARE_CLOCKS: u64 = 1560;

    pub const PAL_CLOCKS: u64 = 1728;

    pub const PAL_SQUARE_CLOCKS: u64 = 1888;

    // The numerator of the subcarrier cycles per line.
    pub fn cycles(self) -> u64
        ensures answer { result ≡ cycles_of (is_pal self) }
    {
        match self {
            Standard::Ntsc => Self::NTSC_CYCLES,
            Standard::Pal => Self::PAL_CYCLES,
        }
    }

    // The divisor of the subcarrier cycles per line.
    pub fn divisor(self) -> u64
        ensures answer { result ≡ divisor_of (is_pal self) }
    {
        match self {
            Standard::Ntsc => Self::NTSC_DIVISOR,
            Standard::Pal => Self::PAL_DIVISOR,
        }
    }

    // The clocks per line.
    pub fn clocks_per_line(self, square: bool) -> u64
        ensures answer { result ≡ clocks_of (is_pal self) square }
    {
        match self {
            Standard::Ntsc => {
                if square {
                    Self::NTSC_SQUARE_CLOCKS
                } else {
                    Self::NTSC_CLOCKS
                }
            }
            Standard::Pal => {
                if square {
                    Self::PAL_SQUARE_CLOCKS
                } else {
                    Self::PAL_CLOCKS
                }
            }
        }
    }
}

// The steps of a whole cycle: the phase accumulator has 32 bits.
const CYCLE_STEPS: u64 = 4294967296;

// The subcarrier word: the steps of the phase accumulator at each clock.
fn nearest_word(standard: Standard, square: bool) -> u32
    ensures answer { result ≡ word_of (is_pal standard) square }
    ensures nearest { Nearest (2 ^ 32 * cycles_of (is_pal standard)) (divisor_of (is_pal standard) * clocks_of (is_pal standard) square) result }
{
    let steps = CYCLE_STEPS * standard.cycles();
    let clocks = standard.divisor() * standard.clocks_per_line(square);
    rounding::nearest(steps, clocks) as u32
}

// The subcarrier word: each by a call of its own, so that the compiler can work it out.
pub fn word(standard: Standard, square: bool) -> u32
    ensures answer { result ≡ word_of (is_pal standard) square }
    ensures nearest { Nearest (2 ^ 32 * cycles_of (is_pal standard)) (divisor_of (is_pal standard) * clocks_of (is_pal standard) square) result }
{
    match standard {
        Standard::Ntsc => {
            if square {
                nearest_word(Standard::Ntsc, true)
            } else {
                nearest_word(Standard::Ntsc, false)
            }
        }
        Standard::Pal => {
            if square {
                nearest_word(Standard::Pal, true)
            } else {
                nearest_word(Standard::Pal, false)
            }
        }
    }
}
