//! The integer types by their width.
ghost use Rattle.std.specs.Prelude.{◌≡◌, ◌-◌, ◌^◌, ◌<◌};

/// An integer type of CLIF, `i8` to `i128`, by its width in bits.
#[derive(Clone, Copy, PartialEq, Eq)]
pub enum Width {
    W8,
    W16,
    W32,
    W64,
    W128,
}

impl Width {
    ghost use Rattle.clk_num.specs.Width.{bits_of, double, half};
    ghost use Rattle.clk_num.specs.Numbers.{fits_signed};

    /// The width in bits: 8, 16, 32, 64 or 128.
    pub fn bits(self) -> u32
        ensures { result ≡ bits_of self }
    {
        match self {
            Width::W8 => 8,
            Width::W16 => 16,
            Width::W32 => 32,
            Width::W64 => 64,
            Width::W128 => 128,
        }
    }

    /// The greatest unsigned value of the type: all its bits set.
    pub(crate) fn greatest(self) -> u128
        ensures { result ≡ 2 ^ bits_of self - 1 }
    {
        match self {
            Width::W8 => 0xff,
            Width::W16 => 0xffff,
            Width::W32 => 0xffff_ffff,
            Width::W64 => 0xffff_ffff_ffff_ffff,
            Width::W128 => u128::MAX,
        }
    }

    /// The greatest signed value of the type: all its bits set but the highest.
    pub(crate) fn greatest_signed(self) -> u128
        ensures { result ≡ 2 ^ (bits_of self - 1) - 1 }
    {
        match self {
            Width::W8 => 0x7f,
            Width::W16 => 0x7fff,
            Width::W32 => 0x7fff_ffff,
            Width::W64 => 0x7fff_ffff_ffff_ffff,
            Width::W128 => 0x7fff_ffff_ffff_ffff_ffff_ffff_ffff_ffff,
        }
    }

    /// Whether the number is a value of the type read as signed.
    pub(crate) fn holds_signed(self, number: i128) -> bool
        ensures { result ≡ fits_signed (bits_of self) number }
    {
        let greatest = self.greatest_signed() as i128;
        -1 - greatest <= number && number <= greatest
    }

    /// The type of twice the width. There is none above `i128`.
    pub(crate) fn double(self) -> Width
        requires { bits_of self < 128 }
        ensures { result ≡ double self }
    {
        match self {
            Width::W8 => Width::W16,
            Width::W16 => Width::W32,
            Width::W32 => Width::W64,
            Width::W64 | Width::W128 => Width::W128,
        }
    }

    /// The type of half the width. There is none below `i8`.
    pub(crate) fn half(self) -> Width
        requires { 8 < bits_of self }
        ensures { result ≡ half self }
    {
        match self {
            Width::W8 | Width::W16 => Width::W8,
            Width::W32 => Width::W16,
            Width::W64 => Width::W32,
            Width::W128 => Width::W64,
        }
    }
}
