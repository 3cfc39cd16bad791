// The rules without state, for C and Rust: each function is one of the crates below under a C name, with its contract. A `&[u8]` is
// a pointer and a length in C, and so is a `&mut [u8]`.
#![tactic(auto)]

pub mod addresses;
pub mod headers;
pub mod recordings;
pub mod writers;

ghost use Rattle.std.specs.Prelude.{◌≡◌};
ghost use Rattle.checksum.specs.Sum.{ones_sum_from, is_right};

// The RFC 1071 sum of the words of the bytes, continued from start: checksum::sum_from.
#[unsafe(no_mangle)]
pub extern "C" fn bogtrumpet_checksum(start: u32, s: &[u8]) -> u16
    ensures { result ≡ ones_sum_from start s.now }
{
    checksum::sum_from(start, s)
}

// Whether the checksum that the bytes hold is right: checksum::right.
#[unsafe(no_mangle)]
pub extern "C" fn bogtrumpet_checksum_right(s: &[u8]) -> bool
    ensures { result ≡ is_right s.now }
{
    checksum::right(s)
}
