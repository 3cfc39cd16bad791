// Big-endian fields: of a slice, read at any place, where a byte past the end reads as 0; and the bytes of a number.
ghost use Rattle.std.specs.Prelude.{◌≡◌, ◌+◌, ◌*◌, ◌/◌, ◌%◌, ◌≤◌, [], get_or, drop, length};
ghost use Rattle.address.specs.Quads.{bytes_in, quads_of};
ghost use Rattle.header.specs.Fields.{word_at, quad_at, reversed_at, bytes_from, address_at};
ghost use Rattle.header.specs.Wrap.{be16, be32};

use address::quads::Quads;

pub fn byte(d: &[u8], i: usize) -> u8
    ensures { result ≡ get_or d.now i 0 }
{
    d.get(i).copied().unwrap_or(0)
}

// The high byte of a 16-bit number.
pub fn high(x: u16) -> u8
    ensures { result ≡ x / 256 }
{
    x.to_be_bytes()[0]
}

// The low byte of a 16-bit number.
pub fn low(x: u16) -> u8
    ensures { result ≡ x % 256 }
{
    x.to_be_bytes()[1]
}

// The two bytes of a 16-bit number.
pub fn word_bytes(x: u16) -> [u8; 2]
    ensures { result ≡ be16 x [] }
{
    x.to_be_bytes()
}

// The four bytes of a 32-bit number.
pub fn quad_bytes(x: u32) -> [u8; 4]
    ensures { result ≡ be32 x [] }
{
    x.to_be_bytes()
}

// The part from k on, empty where k is past the end.
pub fn tail(d: &[u8], k: usize) -> &[u8]
    ensures { result.now ≡ drop k d.now }
{
    &d[k.min(d.len())..]
}

// Two bytes as a number, the first the higher.
pub fn pair(a: u8, b: u8) -> u16
    ensures { result ≡ a * 256 + b }
{
    u16::from_be_bytes([a, b])
}

// The 16 bits at k.
pub fn word(d: &[u8], k: usize) -> u16
    ensures { result ≡ word_at d.now k }
{
    let t = tail(d, k);
    pair(byte(t, 0), byte(t, 1))
}

// The 32 bits at k.
pub fn quad(d: &[u8], k: usize) -> u32
    ensures { result ≡ quad_at d.now k }
{
    let t = tail(d, k);
    if t.len() < 4 {
        address::quad(byte(t, 0), byte(t, 1), byte(t, 2), byte(t, 3))
    } else {
        quad_in(t, 0)
    }
}

// The 32 bits at i, which are there.
pub(crate) fn quad_in(d: &[u8], i: usize) -> u32
    requires { i + 4 ≤ length d.now }
    ensures { result ≡ quad_at d.now i }
{
    address::quad(d[i], d[i + 1], d[i + 2], d[i + 3])
}

// The same, last byte first: one load and nothing else. By from_le_bytes a header's sum takes one instruction more.
pub(crate) fn reversed_in(d: &[u8], i: usize) -> u32
    requires { i + 4 ≤ length d.now }
    ensures { result ≡ reversed_at d.now i }
{
    address::quad(d[i + 3], d[i + 2], d[i + 1], d[i])
}

// The 16 bytes at k, as four numbers: made of the bytes of `address` they take a fifth more instructions to be asked.
pub fn quads(d: &[u8], k: usize) -> Quads
    ensures value { result ≡ quads_of (address_at d.now k) }
    ensures result_value { bytes_in result ≡ address_at d.now k }
{
    let t = tail(d, k);
    Quads {
        first: quad(t, 0),
        second: quad(t, 4),
        third: quad(t, 8),
        last: quad(t, 12),
    }
}

// The 16 bytes at k.
pub fn address(d: &[u8], k: usize) -> [u8; 16]
    ensures { result ≡ address_at d.now k }
{
    let t = tail(d, k);
    if t.len() < 16 {
        padded(t)
    } else {
        full_address(t)
    }
}

// One test of the length stands for all of the reads.
fn full_address(t: &[u8]) -> [u8; 16]
    requires { 16 ≤ length t.now }
    ensures { result ≡ bytes_from 16 0 t.now }
{
    [
        t[0], t[1], t[2], t[3], t[4], t[5], t[6], t[7], t[8], t[9], t[10], t[11], t[12], t[13],
        t[14], t[15],
    ]
}

// The first N bytes. What is not there reads as 0.
pub(crate) fn padded<const N: usize>(d: &[u8]) -> [u8; N]
    ensures { result ≡ bytes_from N 0 d.now }
{
    let n = N.min(d.len());
    let mut bytes = [0; N];
    bytes[..n].copy_from_slice(&d[..n]);
    bytes
}
