// The bytes of FF51 to FF54 put into a running pointer.
ghost use Rattle.std.specs.Prelude.{◌≡◌};
ghost use Rattle.hdma.specs.Pointers.{with_high, with_low};

pub fn with_high(pointer: u16, value: u8) -> u16
    ensures { result ≡ with_high value pointer }
{
    u16::from(value) * 256 + pointer % 256
}

// The low four bits are zero.
pub fn with_low(pointer: u16, value: u8) -> u16
    ensures { result ≡ with_low value pointer }
{
    pointer / 256 * 256 + u16::from(value) / 16 * 16
}
