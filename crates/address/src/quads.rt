// An IPv6 address as four numbers of 32 bits: a number is compared at once, and passed on without a copy of its bytes.
ghost use Rattle.std.specs.Prelude.{◌≡◌, ℕ, List};
ghost use Rattle.address.specs.Address.{is_under, are_zero};
ghost use Rattle.address.specs.Quads.{bytes_in, quads_of};

use crate::quad;

// An IPv6 address, the first number the highest.
#[derive(Clone, Copy, Debug, PartialEq, Eq)]
pub struct Quads {
    pub first: u32,
    pub second: u32,
    pub third: u32,
    pub last: u32,
}

impl From<[u8; 16]> for Quads {
    ghost from_gives = { λ a q. (q ≡ quads_of a) × (bytes_in q ≡ a) };

    fn from(a: [u8; 16]) -> Quads {
        Quads {
            first: quad(a[0], a[1], a[2], a[3]),
            second: quad(a[4], a[5], a[6], a[7]),
            third: quad(a[8], a[9], a[10], a[11]),
            last: quad(a[12], a[13], a[14], a[15]),
        }
    }
}

// An IPv6 address, in whatever form: what is asked of its bytes is answered by its numbers.
pub trait Ipv6: Copy {
    // Its sixteen bytes.
    ghost bytes: { Self → List ℕ };

    fn quads(self) -> Quads
        ensures { bytes_in result ≡ bytes self };
}

impl Ipv6 for [u8; 16] {
    ghost bytes = { λ a. a };

    fn quads(self) -> Quads {
        Quads::from(self)
    }
}

impl Ipv6 for Quads {
    ghost bytes = { bytes_in };

    fn quads(self) -> Quads {
        self
    }
}

// Whether the address is under a prefix of 64 bits.
pub(crate) fn under(q: Quads, p: [u8; 8]) -> bool
    ensures { result ≡ is_under (bytes_in q) p }
{
    (quad(p[0], p[1], p[2], p[3]) == q.first) & (quad(p[4], p[5], p[6], p[7]) == q.second)
}

// Whether the first 96 bits are 0.
pub(crate) fn zero_96(q: Quads) -> bool
    ensures { result ≡ are_zero 12 (bytes_in q) }
{
    (q.first == 0) & (q.second == 0) & (q.third == 0)
}
