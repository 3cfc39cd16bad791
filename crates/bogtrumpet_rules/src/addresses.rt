// Rules on addresses. An IPv4 address is a number, an IPv6 address its 16 bytes.
ghost use Rattle.std.specs.Prelude.{◌≡◌};
ghost use Rattle.address.specs.Address.{is_forbidden, is_bad_source};
ghost use Rattle.bogtrumpet_rules.specs.Answers.{plain_embedded, isatap_in, link_local_in};

use address::prefixes;

// An IPv6 address. A struct of one field, for C passes and returns no array by value.
#[repr(C)]
#[derive(Clone, Copy)]
pub struct Address {
    pub bytes: [u8; 16],
}

// On-link prefixes of eight bytes, one behind the other: the first `count`.
#[repr(C)]
#[derive(Clone, Copy)]
pub struct Prefixes {
    pub bytes: [u8; 64],
    pub count: usize,
}

// The IPv4 address that an ISATAP address embeds, if it is one.
#[repr(C)]
#[derive(Clone, Copy)]
pub struct Embedded {
    pub found: bool,
    pub address: u32,
}

// Whether no locator, router, outer source or tunnel end may have the address: address::forbidden.
#[unsafe(no_mangle)]
pub extern "C" fn bogtrumpet_forbidden(address: u32) -> bool
    ensures { result ≡ is_forbidden address }
{
    address::forbidden(address)
}

fn plain_embedded(embedded: Option<u32>) -> Embedded
    ensures { result ≡ plain_embedded embedded }
{
    match embedded {
        Some(address) => Embedded {
            found: true,
            address,
        },
        None => Embedded {
            found: false,
            address: 0,
        },
    }
}

// The IPv4 address of an ISATAP address, under fe80::/64 or one of the prefixes: address::isatap.
#[tactic(auto, unfolding(crate::specs::Answers::isatap_in))]
#[unsafe(no_mangle)]
pub extern "C" fn bogtrumpet_isatap(on_link: Prefixes, a: Address) -> Embedded
    ensures { result ≡ isatap_in on_link a }
{
    let flat = on_link.bytes;
    let bytes = a.bytes;
    plain_embedded(address::isatap(prefixes::rows(flat), on_link.count, bytes))
}

// The link-local ISATAP address of an IPv4 address: address::link_local.
#[tactic(auto, unfolding(crate::specs::Answers::link_local_in))]
#[unsafe(no_mangle)]
pub extern "C" fn bogtrumpet_link_local(a: u32) -> Address
    ensures { result ≡ link_local_in a }
{
    let bytes = address::link_local(a);
    Address { bytes }
}

// Whether an inner source is bad: address::bad_source.
#[unsafe(no_mangle)]
pub extern "C" fn bogtrumpet_bad_source(a: Address) -> bool
    ensures { result ≡ is_bad_source a.bytes }
{
    let bytes = a.bytes;
    address::bad_source(bytes)
}
