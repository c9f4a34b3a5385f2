// Settings as they come in: signed numbers, of ranges that begin at 0.
ghost use Rattle.std.specs.Prelude.{◌≡◌};
ghost use Rattle.field_table.specs.Blocks.{between};

// The highest payload and WSS number, of 14 bits.
pub const NUMBER_TOP: u32 = 16383;

// The highest yes/no number.
pub const YES_TOP: u32 = 1;

// Whether the setting is one of 0 to top.
pub fn within(setting: i32, top: u32) -> bool
    ensures answer { result ≡ between 0 top setting }
{
    if setting < 0 {
        return false;
    }
    setting as u32 <= top
}
