// The rows. In hexadecimal, a column after the other: field, index among the settings' numbers, register, lowest bit and width, lowest setting and highest
// setting (two's complement), refusal of a code outside them. Must-be-zero bits have the index FF.
ghost use Rattle.std.specs.Prelude.{◌≡◌};
ghost use Rattle.adv7194_table.specs.Table.{table, single_fields, rows_in, rows_of};

pub const STANDARD: u64 = 0x01_00_00_02_000_001_04;

pub const SQUARE_PIXEL: u64 = 0x02_01_02_41_000_001_04;

pub const OVERSAMPLING: u64 = 0x03_02_01_61_000_001_04;

pub const PEDESTAL: u64 = 0x04_03_02_31_000_001_04;

pub const Y_LEVEL: u64 = 0x05_04_05_01_000_001_04;

pub const UV_LEVEL: u64 = 0x06_05_05_12_000_002_04;

pub const RGB_SYNC: u64 = 0x07_06_05_31_000_001_04;

pub const CLAMP_DELAY: u64 = 0x08_07_05_43_FFD_003_04;

pub const BACK_PORCH: u64 = 0x09_08_05_71_000_001_04;

pub const PHASE: u64 = 0x0A_09_10_08_000_0FF_04;

pub const CONTRAST: u64 = 0x0C_0F_1D_08_000_5DC_03;

pub const U_SCALE: u64 = 0x0D_10_1E_08_000_7CC_03;

pub const V_SCALE: u64 = 0x0E_11_1F_08_000_7CC_03;

pub const HUE: u64 = 0x0F_12_20_08_F1F_0E0_03;

pub const BRIGHTNESS: u64 = 0x10_13_21_07_FB5_096_03;

pub const BRIGHTNESS_ZERO: u64 = 0x10_FF_21_71_000_000_04;

pub const SHARPNESS: u64 = 0x11_14_22_04_FFA_006_03;

pub const SHARPNESS_ZERO: u64 = 0x11_FF_22_44_000_000_04;

pub const BORDER_GAIN: u64 = 0x12_15_23_04_000_008_04;

pub const DATA_GAIN: u64 = 0x13_16_23_44_000_008_04;

pub const THRESHOLD: u64 = 0x14_17_24_06_000_03F_04;

pub const BORDER_AREA: u64 = 0x15_18_24_61_000_001_04;

pub const BLOCK_SIZE: u64 = 0x16_19_24_71_000_001_04;

pub const DNR_INPUT: u64 = 0x17_1A_25_03_001_004_04;

pub const DNR_MODE: u64 = 0x18_1B_25_31_000_001_04;

pub const BLOCK_OFFSET: u64 = 0x19_1C_25_44_000_00F_04;

// All of them, in the checking order.
pub fn rows() -> [u64; 26]
    ensures answer { rows_of result ≡ rows_in (single_fields table) }
{
    [
        STANDARD,
        SQUARE_PIXEL,
        OVERSAMPLING,
        PEDESTAL,
        Y_LEVEL,
        UV_LEVEL,
        RGB_SYNC,
        CLAMP_DELAY,
        BACK_PORCH,
        PHASE,
        CONTRAST,
        U_SCALE,
        V_SCALE,
        HUE,
        BRIGHTNESS,
        BRIGHTNESS_ZERO,
        SHARPNESS,
        SHARPNESS_ZERO,
        BORDER_GAIN,
        DATA_GAIN,
        THRESHOLD,
        BORDER_AREA,
        BLOCK_SIZE,
        DNR_INPUT,
        DNR_MODE,
        BLOCK_OFFSET,
    ]
}
