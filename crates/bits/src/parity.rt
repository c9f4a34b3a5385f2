ghost use Rattle.std.specs.Prelude.{◌≡◌, ◌^◌, ◌≤◌, ◌<◌};
ghost use Rattle.bits.specs.Parity.{odd_in, with_parity};

// Whether an odd number of the width lowest bits of a number are ones.
pub fn odd_ones(value: u32, width: u32) -> bool
    requires { width < 32 }
    ensures answer { result ≡ odd_in width value }
{
    u32::count_ones(value % (1 << width)) % 2 == 1
}

// A number of width bits with the bit above them making its ones odd in number.
pub fn with_parity(value: u8, width: u8) -> u8
    requires { (value < 2 ^ width) × (width ≤ 7) }
    ensures answer { result ≡ with_parity width value }
{
    if odd_ones(value as u32, width as u32) {
        return value;
    }
    value + (1 << width)
}
