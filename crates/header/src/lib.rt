// Headers: the outer IPv4 header, the inner IPv6 header, the extension headers behind it and the header that a size report quotes, read by
// total readers and judged by the rules; the outer header written, with the packet behind it.
#![tactic(auto)]

pub mod chain;
pub mod fields;
pub mod inner;
pub mod outer;
pub mod wrap;

// The length of the outer header that we write, five words, and the least of any IPv4 header.
pub const OUTER_HEADER: usize = 20;

// The length of an IPv6 header.
pub const INNER_HEADER: usize = 40;

// The protocol of IPv6 in IPv4.
pub const IPV6: u8 = 41;

// The next header of ICMPv6.
pub const ICMPV6: u8 = 58;
