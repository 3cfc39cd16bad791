// The outer IPv4 header, read and judged; and the IPv4 header that a size report quotes.
ghost use Rattle.std.specs.Prelude.{◌≡◌, ◌*◌, ◌/◌, ◌%◌, ◌≤◌, length, take};
ghost use Rattle.checksum.specs.Folding.{word_sum, swapped};
ghost use Rattle.header.specs.Numbers.{outer_header};
ghost use Rattle.header.specs.Outer.{outer_of, is_outer_malformed, is_sum_wrong, sum_check, header_check, outer_given, header_read_of, outer_read_of, payload_of, quote_of, is_quote_malformed};

use crate::{IPV6, OUTER_HEADER, fields};
use refusals::Refusal;

// The first byte of an IPv4 header: version 4, and from 5 to 15 words.
const LEAST_FIRST: u8 = 0x45;

const MOST_FIRST: u8 = 0x4f;

// The fields of an IPv4 header, lengths in bytes.
#[derive(Clone, Copy, Debug, PartialEq, Eq)]
pub struct Outer {
    pub version: u8,
    pub header: usize,
    pub total: usize,
    // The more-fragments flag and the offset: 0 in a whole datagram.
    pub fragment: u16,
    pub protocol: u8,
    pub source: u32,
    pub destination: u32,
}

// What is not there reads as 0. The compiler sees that a header under 20 bytes is refused whatever its fields are. Its twin is
// `inner::inner_header`: a trait for the two would be longer than their four lines.
pub fn outer_header(d: &[u8]) -> Outer
    ensures { result ≡ outer_of d.now }
{
    if d.len() < OUTER_HEADER {
        full_header(&fields::padded::<OUTER_HEADER>(d))
    } else {
        full_header(d)
    }
}

// One test of the length stands for all of its reads. The fields are taken by division out of numbers that are read once.
fn full_header(d: &[u8]) -> Outer
    requires { outer_header ≤ length d.now }
    ensures { result ≡ outer_of d.now }
{
    let first = fields::quad_in(d, 0);
    let second = fields::quad_in(d, 4);
    let third = fields::quad_in(d, 8);
    let source = fields::quad_in(d, 12);
    let destination = fields::quad_in(d, 16);
    Outer {
        version: (first / 268435456) as u8,
        header: (first / 16777216 % 16) as usize * 4,
        total: (first % 65536) as usize,
        fragment: (second % 16384) as u16,
        protocol: (third / 65536 % 256) as u8,
        source,
        destination,
    }
}

// Number 2, of a datagram of n bytes. A header that is no longer than the total length, which the bytes have, is no longer than these.
pub fn malformed(n: usize, o: Outer) -> bool
    ensures { result ≡ is_outer_malformed n o }
{
    (o.version != 4) | (o.header < OUTER_HEADER) | (o.total < o.header) | (n < o.total)
}

// The same where the first byte is at hand, which has the version and the header's words: both are asked of it at once. By `malformed` each
// receiving takes three instructions more.
fn malformed_by(n: usize, first: u8, o: Outer) -> bool
    requires { (o.version ≡ first / 16) × (o.header ≡ first % 16 * 4) }
    ensures { result ≡ is_outer_malformed n o }
{
    (first < LEAST_FIRST) | (MOST_FIRST < first) | (o.total < o.header) | (n < o.total)
}

// The exact sum of the ten words of a header without options, their bytes exchanged: so the numbers that were read before are added up as the
// machine reads them, and the checksum is right by that sum exactly where it is by the other (RFC 1071, 2 (B)).
fn ten_words(d: &[u8]) -> u32
    requires { outer_header ≤ length d.now }
    ensures { (result ≡ word_sum (swapped (take outer_header d.now))) × (result ≤ 655350) }
{
    let first = checksum::two_words(fields::reversed_in(d, 0))
        + checksum::two_words(fields::reversed_in(d, 4));
    let second = checksum::two_words(fields::reversed_in(d, 8))
        + checksum::two_words(fields::reversed_in(d, 12));
    first + second + checksum::two_words(fields::reversed_in(d, 16))
}

// Number 3. Most headers have no options.
pub fn sum_wrong(d: &[u8], o: Outer) -> bool
    ensures { result ≡ is_sum_wrong d.now o }
{
    if (o.header == OUTER_HEADER) & (OUTER_HEADER <= d.len()) {
        return !checksum::right_words(ten_words(d));
    }
    !checksum::right(&d[..o.header.min(d.len())])
}

// Numbers 3 and 4 of a datagram that starts with d.
fn check_sum(d: &[u8], o: Outer) -> Result<(), Refusal>
    ensures { result ≡ sum_check d.now o }
{
    if sum_wrong(d, o) {
        return Err(Refusal::OuterChecksum);
    }
    if o.protocol != IPV6 {
        return Err(Refusal::OtherProtocol);
    }
    Ok(())
}

// Numbers 2 to 4 of a datagram of n bytes that starts with d.
pub fn check_header(n: usize, d: &[u8], o: Outer) -> Result<(), Refusal>
    ensures { result ≡ header_check n d.now o }
{
    if malformed(n, o) {
        return Err(Refusal::OuterMalformed);
    }
    check_sum(d, o)
}

// The same of the whole datagram d, which the header o was read from.
fn check_read(d: &[u8], o: Outer) -> Result<(), Refusal>
    requires { o ≡ outer_of d.now }
    ensures { result ≡ header_check (length d.now) d.now o }
{
    if malformed_by(d.len(), fields::byte(d, 0), o) {
        return Err(Refusal::OuterMalformed);
    }
    check_sum(d, o)
}

// The outer header of a datagram, a piece's too, or the first of the numbers 2 to 4.
pub fn read_header(d: &[u8]) -> Result<Outer, Refusal>
    ensures { result ≡ header_read_of d.now }
{
    if d.len() < OUTER_HEADER {
        return Err(Refusal::OuterMalformed);
    }
    let o = full_header(d);
    check_read(d, o)?;
    Ok(o)
}

// The outer header of a datagram, or the first of the numbers 2 to 5.
pub fn read_outer(d: &[u8]) -> Result<Outer, Refusal>
    ensures { result ≡ outer_read_of d.now }
{
    let o = read_header(d)?;
    if o.fragment != 0 {
        return Err(Refusal::Piece);
    }
    Ok(o)
}

// The part behind the header, options included, up to the total length: what is behind that is padding.
pub fn payload(d: &[u8], o: Outer) -> &[u8]
    ensures { result.now ≡ payload_of d.now o }
{
    fields::tail(&d[..o.total.min(d.len())], o.header)
}

// The part of an ICMPv4 message that quotes a datagram.
pub fn quote(m: &[u8]) -> &[u8]
    ensures { result.now ≡ quote_of m.now }
{
    fields::tail(m, 8)
}

// Number 16, of a quoted header in a quote of n bytes.
pub fn quote_malformed(n: usize, o: Outer) -> bool
    ensures { result ≡ is_quote_malformed n o }
{
    (o.version != 4) | (o.header < OUTER_HEADER) | (n < o.header)
}
