//! The flags of an entry.

ghost use Rattle.std.specs.Prelude.{⊤, [], ◌∷◌, codes};

use bitflags::{Flag, Flags, bitflag_items};

/// The flags of an entry, the `IOSQE_` bits of io_uring_enter(2), with the numbers of `<linux/io_uring.h>`. `ASYNC` changes nothing, and `REFUSED` are the bits that aren't served: bit 0 (fixed file), bit 5 (buffer select) and bit 7. Both are our own rule.
#[derive(Clone, Copy, PartialEq, Eq, Debug)]
pub struct SqeFlags(u8);

bitflag_items! {
    impl SqeFlags: u8 {
        const IO_DRAIN = 2;
        const IO_LINK = 4;
        const IO_HARDLINK = 8;
        const ASYNC = 16;
        const CQE_SKIP_SUCCESS = 64;
        const REFUSED = 161;
    }
}

impl Flags for SqeFlags {
    type Bits = u8;

    ghost exact = { ⊤ };

    ghost table = { (codes "IO_DRAIN", 2) ∷ (codes "IO_LINK", 4) ∷ (codes "IO_HARDLINK", 8) ∷ (codes "ASYNC", 16)
        ∷ (codes "CQE_SKIP_SUCCESS", 64) ∷ (codes "REFUSED", 161) ∷ [] };

    ghost set_of = { λ flags. flags.0 };

    fn flags<'a>() -> &'a [Flag<SqeFlags>] {
        SqeFlags::FLAGS
    }

    fn bits(&self) -> u8 {
        self.0
    }

    fn from_bits_retain(bits: u8) -> SqeFlags {
        SqeFlags(bits)
    }
}
