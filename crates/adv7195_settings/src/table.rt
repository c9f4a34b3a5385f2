// The ADV7195's table: a row a field or must-be-zero bit in one register. Its columns are those of `field_table::row::Row`: field, number (FF: none), register,
// lowest bit and width, lowest and highest setting, and the refusal of another code.
ghost use Rattle.std.specs.Prelude.{◌≡◌};
ghost use Rattle.field_table.specs.Coding.{plain_fields};
ghost use Rattle.adv7195_settings.specs.Fields.{fields};

// The rows, in the checking order.
const ROWS: [u64; 66] = [
    0x01_00_00_02_000_002_04, // output standard
    0x02_01_00_22_000_002_04, // input control signals
    0x03_02_00_41_000_001_03, // input standard
    0x04_FF_00_51_000_000_04, // must be zero, MR05
    0x05_03_00_61_000_001_03, // DV polarity
    0x06_FF_00_71_000_000_04, // must be zero, MR07
    0x07_04_01_01_000_001_03, // pixel data enable
    0x08_05_01_11_000_001_03, // input format
    0x09_06_01_21_000_001_03, // test pattern enable
    0x0A_07_01_31_000_001_03, // test pattern frame
    0x0B_08_01_41_000_001_03, // VBI open
    0x0C_09_01_52_000_003_03, // undershoot limiter
    0x0D_0A_01_71_000_001_03, // sharpness filter
    0x0E_0B_02_03_000_004_03, // Y delay
    0x0F_0C_02_33_000_004_03, // colour delay
    0x10_0D_02_61_000_001_03, // CGMS enable
    0x11_0E_02_71_000_001_03, // CGMS CRC
    0x12_0F_03_01_000_001_03, // HDTV enable
    0x13_FF_03_11_000_000_04, // must be zero, MR31
    0x14_FF_03_21_000_000_04, // must be zero, MR32
    0x15_10_03_31_000_001_03, // DAC A
    0x16_11_03_41_000_001_03, // DAC B
    0x17_12_03_51_000_001_03, // DAC C
    0x18_13_03_61_000_001_03, // interpolation, MR36
    0x19_FF_03_71_000_000_04, // must be zero, MR37
    0x1A_14_04_01_000_001_03, // timing reset
    0x1B_FF_05_01_000_000_04, // must be zero, MR50
    0x1C_15_05_11_000_001_03, // RGB mode
    0x1D_16_05_21_000_001_03, // sync on PrPb
    0x1E_17_05_31_000_001_03, // colour output swap
    0x1F_18_05_41_000_001_03, // gamma curve
    0x20_19_05_51_000_001_03, // gamma correction
    0x21_1A_05_61_000_001_03, // adaptive mode
    0x22_1B_05_71_000_001_03, // adaptive filter
    0x23_1C_06_08_000_0FF_03, // colour Y
    0x24_1D_07_08_000_0FF_03, // colour Cr
    0x25_1E_08_08_000_0FF_03, // colour Cb
    0x26_1F_09_08_000_0FF_03, // mode register 6
    0x27_20_10_04_000_00F_03, // filter gain A
    0x28_21_10_44_000_00F_03, // filter gain B
    0x29_22_11_08_000_0FF_03, // CGMS data C0 to C7
    0x29_23_12_08_000_0FF_03, // CGMS data C8 to C15
    0x29_24_13_04_000_00F_03, // CGMS data C16 to C19
    0x2A_25_14_08_000_0FF_03, // gamma curve A
    0x2A_26_15_08_000_0FF_03, // gamma curve A
    0x2A_27_16_08_000_0FF_03, // gamma curve A
    0x2A_28_17_08_000_0FF_03, // gamma curve A
    0x2A_29_18_08_000_0FF_03, // gamma curve A
    0x2A_2A_19_08_000_0FF_03, // gamma curve A
    0x2A_2B_1A_08_000_0FF_03, // gamma curve A
    0x2B_2C_1B_08_000_0FF_03, // gamma curve B
    0x2B_2D_1C_08_000_0FF_03, // gamma curve B
    0x2B_2E_1D_08_000_0FF_03, // gamma curve B
    0x2B_2F_1E_08_000_0FF_03, // gamma curve B
    0x2B_30_1F_08_000_0FF_03, // gamma curve B
    0x2B_31_20_08_000_0FF_03, // gamma curve B
    0x2B_32_21_08_000_0FF_03, // gamma curve B
    0x2C_33_22_04_000_00F_03, // adaptive gain 1 A
    0x2D_34_22_44_000_00F_03, // adaptive gain 1 B
    0x2E_35_23_04_000_00F_03, // adaptive gain 2 A
    0x2F_36_23_44_000_00F_03, // adaptive gain 2 B
    0x30_37_24_04_000_00F_03, // adaptive gain 3 A
    0x31_38_24_44_000_00F_03, // adaptive gain 3 B
    0x32_39_25_08_000_0FF_03, // threshold A
    0x33_3A_26_08_000_0FF_03, // threshold B
    0x34_3B_27_08_000_0FF_03, // threshold C
];

// The table.
pub fn rows() -> [u64; 66]
    ensures answer { plain_fields result ≡ fields }
{
    ROWS
}
