// A section of datagrams, which may stand alone: a two-byte count, then so many datagrams, each an interface, a two-byte
// length and the bytes. The functions on one datagram take the bytes from its start on. A recording is walked by hand: an Iterator over datagrams
// proves here, but the proofs of comparing and program that go by the walk are not brought over to it yet (docs/DESIGN-PASS.md, "Still to do").
ghost use Rattle.std.specs.Prelude.{◌≡◌, ◌≤◌};
ghost use Rattle.header.specs.Fields.{word_at};
ghost use Rattle.input.specs.Recording.{datagram_bytes, is_there, interface_of, bytes_of, behind_datagram, first_datagram, is_recording};

use crate::section;
pub use crate::section::count;
use header::fields;

// The bytes from the first datagram on.
pub fn first(r: &[u8]) -> &[u8]
    ensures { result.now ≡ first_datagram r.now }
{
    fields::tail(r, 2)
}

// The datagram's length. One test stands for both reads where the bytes are there, as they are but at the end.
fn length_of(d: &[u8]) -> usize
    ensures { (result ≡ word_at d.now 1) × (result ≤ 65535) }
{
    if d.len() < 3 {
        return fields::word(d, 1) as usize;
    }
    fields::pair(d[1], d[2]) as usize
}

fn size_of(d: &[u8]) -> usize
    ensures { result ≡ datagram_bytes d.now }
{
    3 + length_of(d)
}

fn there(d: &[u8]) -> bool
    ensures { result ≡ is_there d.now }
{
    size_of(d) <= d.len()
}

// The interface on which the datagram arrived.
pub fn interface(d: &[u8]) -> u8
    ensures { result ≡ interface_of d.now }
{
    fields::byte(d, 0)
}

// The datagram itself.
pub fn datagram(d: &[u8]) -> &[u8]
    ensures { result.now ≡ bytes_of d.now }
{
    section::front(fields::tail(d, 3), length_of(d))
}

// The bytes from the next datagram on.
pub fn next(d: &[u8]) -> &[u8]
    ensures { result.now ≡ behind_datagram d.now }
{
    fields::tail(d, size_of(d))
}

// Whether all datagrams are there, and nothing behind them.
pub fn well_formed(r: &[u8]) -> bool
    ensures { result ≡ is_recording r.now }
{
    let n = count(r);
    let mut rest = first(r);
    let mut good = 2 <= r.len();
    // The proofs name the turn, `_i`.
    for _i in 0..n {
        good = good & there(rest);
        rest = next(rest);
    }
    good & rest.is_empty()
}
