// Bus addresses.
ghost use Rattle.std.specs.Prelude.{◌≡◌};
ghost use Rattle.bus.specs.Address.{address_right};

// The highest bus address that a chip writes at.
const HIGHEST_ADDRESS: u32 = 254;

// Whether a number is a bus address that a chip can have: even and at most 254.
pub fn address_right(address: u32) -> bool
    ensures answer { result ≡ address_right address }
{
    address <= HIGHEST_ADDRESS && address % 2 == 0
}
