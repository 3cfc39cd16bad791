// A section of records of one size: a two-byte count, then so many records. Its bytes and the records' size are no struct: the count and the
// readers take bytes whose records' size they know. Nor is there one reader for locators and routers: a trait of records, with its laws, would
// be longer than the two. They read by index: a record past the end reads as 0, which `chunks` would leave out.
ghost use Rattle.std.specs.Prelude.{◌≡◌, ◌+◌, ◌*◌, ◌<◌, take};
ghost use Rattle.input.specs.Section.{count_of, section_bytes, is_whole, behind_section, record_at, locator_of, locators_in, prefixes_in, routers_in};

use header::fields;
use settings::locators::Locator;

// The bytes of a locator: address and interface.
pub const LOCATOR: u8 = 5;

// The bytes of a prefix.
pub const PREFIX: u8 = 8;

// The bytes of a router: its address.
pub const ROUTER: u8 = 4;

// How many records the section says to have.
pub fn count(s: &[u8]) -> usize
    ensures { result ≡ count_of s.now }
{
    fields::word(s, 0) as usize
}

// The bytes of a section whose records have this size, with its count.
fn size_of(s: &[u8], size: u8) -> usize
    ensures { result ≡ section_bytes size s.now }
{
    2 + fields::word(s, 0) as usize * size as usize
}

// Whether all its bytes are there.
pub fn whole(s: &[u8], size: u8) -> bool
    ensures { result ≡ is_whole size s.now }
{
    size_of(s, size) <= s.len()
}

// What stands behind the section.
pub fn behind(s: &[u8], size: u8) -> &[u8]
    ensures { result.now ≡ behind_section size s.now }
{
    fields::tail(s, size_of(s, size))
}

// The first n bytes, or all where there are fewer.
pub fn front(d: &[u8], n: usize) -> &[u8]
    ensures { result.now ≡ take n d.now }
{
    &d[..n.min(d.len())]
}

// The record of number i, counted from 0.
fn record_at(s: &[u8], size: u8, i: usize) -> &[u8]
    requires { i < 65536 }
    ensures { result.now ≡ record_at size s.now i }
{
    front(fields::tail(s, 2 + i * size as usize), size as usize)
}

fn locator(r: &[u8]) -> Locator
    ensures { result ≡ locator_of r.now }
{
    Locator {
        address: fields::quad(r, 0),
        interface: fields::byte(r, 4),
    }
}

// The first eight locators of a section.
pub fn locators(s: &[u8]) -> [Locator; 8]
    ensures { result ≡ locators_in s.now }
{
    let none = Locator {
        address: 0,
        interface: 0,
    };
    let mut all = [none; 8];
    for i in 0..count(s).min(8) {
        all[i] = locator(record_at(s, LOCATOR, i));
    }
    all
}

// The bytes of the first eight prefixes of a section.
pub fn prefixes(s: &[u8]) -> [u8; 64]
    ensures { result ≡ prefixes_in s.now }
{
    let mut all = [0u8; 64];
    let n = count(s).min(8) * PREFIX as usize;
    let bytes = front(fields::tail(s, 2), n);
    lent::write_at(bytes, &mut all, 0);
    all
}

// The first sixteen routers of a section.
pub fn routers(s: &[u8]) -> [u32; 16]
    ensures { result ≡ routers_in s.now }
{
    let mut all = [0u32; 16];
    for i in 0..count(s).min(16) {
        all[i] = fields::quad(record_at(s, ROUTER, i), 0);
    }
    all
}
