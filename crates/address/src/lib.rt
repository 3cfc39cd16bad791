// Addresses: IPv4 addresses as 32-bit numbers, IPv6 addresses as 16 bytes.
// Tests are joined by `|` and `&`, which evaluate both sides and leave no branch; those on IPv6 addresses are made on four numbers (`quads`).
#![tactic(auto)]

pub mod prefixes;
pub mod quads;

ghost use Rattle.std.specs.Prelude.{◌≡◌, ◌/◌, ◌%◌};
ghost use Rattle.address.specs.Address.{is_forbidden, quad_of, last_quad, is_link_local, is_on_link, is_identifier, embedded_in, link_local_of, is_unspecified, is_multicast_or_unspecified, is_bad_source, is_bad_source_with};

use quads::{Ipv6, under, zero_96};

// What stands before the embedded address: 00-00-5E-FE,
const IDENTIFIER_00: u32 = 0x00005efe;

// or 02-00-5E-FE.
const IDENTIFIER_02: u32 = 0x02005efe;

// The first identifier byte of an address that we form.
const FIRST_IDENTIFIER_BYTE: u8 = 0;

// Whether no locator, router, outer source or tunnel end may have the address. Half of all addresses lie between 0.0.0.0 and 127.0.0.0, and
// are told at once.
pub fn forbidden(a: u32) -> bool
    ensures { result ≡ is_forbidden a }
{
    if (1 <= a) & (a <= 0x7effffff) {
        return false;
    }
    (a == 0)
        | (((0x7f000000 <= a) & (a <= 0x7fffffff))
            | (((0xe0000000 <= a) & (a <= 0xefffffff)) | (a == 0xffffffff)))
}

// Four bytes as a number, the first the highest. The machine reads them the other way round, which one instruction mends: put together in this
// order at once, the number would be taken apart again where a part of it is used.
pub fn quad(a: u8, b: u8, c: u8, d: u8) -> u32
    ensures { result ≡ quad_of a b c d }
{
    u32::from_le_bytes([a, b, c, d]).swap_bytes()
}

// The last 32 bits of an IPv6 address.
pub fn last_quad(a: [u8; 16]) -> u32
    ensures { result ≡ last_quad a }
{
    quad(a[12], a[13], a[14], a[15])
}

// Whether the address is in fe80::/64.
pub fn link_local_prefixed<A: Ipv6>(a: A) -> bool
    ensures { result ≡ is_link_local (A.bytes a) }
{
    under(a.quads(), [0xfe, 0x80, 0, 0, 0, 0, 0, 0])
}

// Whether the address is in fe80::/64 or under one of the first `count` prefixes; a count above 8 is read as 8. The prefixes go by value, with their
// count beside them: R21.3 names this form, of `isatap` too.
pub fn on_link<A: Ipv6>(prefixes: [[u8; 8]; 8], count: usize, a: A) -> bool
    ensures { result ≡ is_on_link prefixes count (A.bytes a) }
{
    let q = a.quads();
    if link_local_prefixed(q) {
        return true;
    }
    // With `any` this makes a copy of the prefixes before it reads the first.
    for p in &prefixes[..count.min(8)] {
        if under(q, *p) {
            return true;
        }
    }
    false
}

// Whether an ISATAP identifier stands behind the prefix.
pub fn identifier<A: Ipv6>(a: A) -> bool
    ensures { result ≡ is_identifier (A.bytes a) }
{
    let third = a.quads().third;
    (third == IDENTIFIER_00) | (third == IDENTIFIER_02)
}

// The IPv4 address of an ISATAP address.
pub fn isatap<A: Ipv6>(prefixes: [[u8; 8]; 8], count: usize, a: A) -> Option<u32>
    ensures { result ≡ embedded_in prefixes count (A.bytes a) }
{
    let q = a.quads();
    if identifier(q) && on_link(prefixes, count, q) {
        Some(q.last)
    } else {
        None
    }
}

// The link-local ISATAP address of an IPv4 address.
pub fn link_local(a: u32) -> [u8; 16]
    ensures { result ≡ link_local_of a }
{
    let [b, c, d, e] = a.to_be_bytes();
    [
        0xfe,
        0x80,
        0,
        0,
        0,
        0,
        0,
        0,
        FIRST_IDENTIFIER_BYTE,
        0,
        0x5e,
        0xfe,
        b,
        c,
        d,
        e,
    ]
}

// Whether the address is `::`.
pub fn unspecified<A: Ipv6>(a: A) -> bool
    ensures { result ≡ is_unspecified (A.bytes a) }
{
    let q = a.quads();
    zero_96(q) & (q.last == 0)
}

// Whether nothing may be sent to the address: multicast, or `::`.
pub fn multicast_or_unspecified<A: Ipv6>(a: A) -> bool
    ensures { result ≡ is_multicast_or_unspecified (A.bytes a) }
{
    let q = a.quads();
    (q.first.to_be_bytes()[0] == 255) | unspecified(q)
}

// Whether an inner source is bad.
pub fn bad_source<A: Ipv6>(a: A) -> bool
    ensures { result ≡ is_bad_source (A.bytes a) }
{
    let q = a.quads();
    bad_source_with(forbidden(q.last), q)
}

// The same, where `forbidden` says whether its last 32 bits are a forbidden IPv4 address.
pub fn bad_source_with<A: Ipv6>(forbidden: bool, a: A) -> bool
    ensures { result ≡ is_bad_source_with forbidden (A.bytes a) }
{
    let q = a.quads();
    let zero = zero_96(q);
    multicast_or_unspecified(q) | (zero & (q.last == 1)) | (zero & forbidden)
}
