// An image's bytes, copied.
ghost use Rattle.std.specs.Prelude.{◌≡◌, length};

// An image's bytes, copied: as many as the chip has registers.
pub fn copied<const N: usize>(image: &[u8]) -> [u8; N]
    requires { length image.now ≡ N }
    ensures answer { result ≡ image.now }
{
    let mut registers = [0u8; N];
    registers.copy_from_slice(image);
    registers
}
