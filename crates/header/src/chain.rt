// The extension headers of an IPv6 packet, followed to its upper layer (RFC 2460, 4), and whether that lets the packet draw an ICMPv6 error
// message. Any bytes are taken.
ghost use Rattle.std.specs.Prelude.{◌≡◌, ◌≤◌, length};
ghost use Rattle.header.specs.Chain.{is_extension, extension_unit, extension_length, is_later_fragment, is_error_or_redirect, is_quiet, chain_may_draw};
ghost use Rattle.header.specs.Walks.{passed_length, some_length, walked_of};

use crate::{ICMPV6, fields};

// The extension headers that are followed. They are bytes of a packet, and stay so: an enum would be made of one only to be asked for its number.
const HOP_BY_HOP: u8 = 0;

const ROUTING: u8 = 43;

const FRAGMENT: u8 = 44;

const DESTINATION_OPTIONS: u8 = 60;

// A header's length counts units of 8 bytes, without the first; a fragment header is one (RFC 2460, 4.3 to 4.6).
const UNIT: usize = 8;

// How many headers one walk passes at most. A walk makes a call for each of them, and so needs the same stack whatever the packet is.
const MOST: usize = 12;

fn extension(next: u8) -> bool
    ensures { result ≡ is_extension next }
{
    (next == HOP_BY_HOP) | (next == ROUTING) | (next == FRAGMENT) | (next == DESTINATION_OPTIONS)
}

// The bytes that the first header takes by its own length.
fn extension_length(next: u8, rest: &[u8]) -> usize
    requires { extension_unit ≤ length rest.now }
    ensures { result ≡ extension_length next rest.now }
{
    if next == FRAGMENT {
        UNIT
    } else {
        (rest[1] as usize + 1) * UNIT
    }
}

// Whether the first header is that of a fragment whose offset is not 0. The offset's 13 bits stand before three others.
fn later_fragment(next: u8, rest: &[u8]) -> bool
    requires { extension_unit ≤ length rest.now }
    ensures { result ≡ is_later_fragment next rest.now }
{
    (next == FRAGMENT) & (fields::pair(rest[2], rest[3]) / 8 != 0)
}

// The bytes that the first header takes, if it is passed: no upper layer, no later fragment, and all there.
fn passed_length(next: u8, rest: &[u8]) -> Option<usize>
    ensures { result ≡ some_length (passed_length next rest.now) }
{
    if rest.len() < UNIT {
        return None;
    }
    let size = extension_length(next, rest);
    if extension(next) & !later_fragment(next, rest) & (size <= rest.len()) {
        Some(size)
    } else {
        None
    }
}

// What a walk comes to: the number of the header there, and how many bytes are left from it on. A count and not the part itself: so `walked` of
// lists has it, and nothing is lent here.
#[derive(Clone, Copy, Debug, PartialEq, Eq)]
struct Walked {
    next: u8,
    left: usize,
}

// At most so many headers of the rest of the packet, whose first has the number `next`. The rules want a call for each header (R21.7), as for each
// option in the twin of this, `options::walk`: the laws of both are proved once (lists, Walks).
fn walk(next: u8, rest: &[u8], most: usize) -> Walked
    ensures { result ≡ walked_of most next rest.now }
{
    if 0 < most {
        if let Some(size) = passed_length(next, rest) {
            return walk(rest[0], &rest[size..], most - 1);
        }
    }
    Walked {
        next,
        left: rest.len(),
    }
}

fn error_or_redirect(kind: u8) -> bool
    ensures { result ≡ is_error_or_redirect kind }
{
    (kind < 128) | (kind == 137)
}

// Whether an upper layer draws no message: ICMPv6 with no byte left, an ICMPv6 error or a redirect.
fn quiet(next: u8, rest: &[u8]) -> bool
    ensures { result ≡ is_quiet next rest.now }
{
    let kind = fields::byte(rest, 0);
    (next == ICMPV6) & ((rest.len() == 0) | error_or_redirect(kind))
}

// Whether a packet with this first next header and this payload may draw a message: walk after walk, while there is a header to pass at `at`.
pub fn chain_may_draw(first: u8, payload: &[u8]) -> bool
    ensures { result ≡ chain_may_draw first payload.now }
{
    let mut next = first;
    let mut at = 0;
    let mut more = passed_length(first, payload).is_some();
    while more {
        let walked = walk(next, &payload[at..], MOST);
        at = payload.len() - walked.left;
        next = walked.next;
        more = passed_length(next, &payload[at..]).is_some();
    }
    !(extension(next) | quiet(next, &payload[at..]))
}
