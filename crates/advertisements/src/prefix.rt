// The prefix option that we write (RFC 4861, 4.6.2).
ghost use Rattle.std.specs.Prelude.{◌≡◌};
ghost use Rattle.advertisements.specs.Options.{prefix_option};
ghost use Rattle.advertisements.specs.Fits.{PrefixFits};

use crate::bits;
use header::fields;
use lent::write_at;
use options::{PREFIX, PREFIX_UNITS};

// A prefix as the operator sets it.
#[derive(Clone, Copy)]
pub struct Prefix {
    pub bytes: [u8; 16],
    pub valid: u32,
    pub preferred: u32,
    // How many bits of it count.
    pub length: u8,
    // The flag L.
    pub on_link: bool,
    // The flag A.
    pub autonomous: bool,
}

// The bytes of a prefix option.
pub const PREFIX_OPTION: usize = 32;

// The option of a prefix. What the types say of its fields is shown here of every prefix.
pub fn prefix_option(prefix: Prefix) -> [u8; PREFIX_OPTION]
    ensures value { result ≡ prefix_option prefix }
    ensures prefix_fits { PrefixFits prefix }
{
    let kept = bits::first_bits_of(prefix.length, prefix.bytes);
    let mut option = [0; PREFIX_OPTION];
    option[0] = PREFIX;
    option[1] = PREFIX_UNITS;
    option[2] = prefix.length;
    option[3] = bits::flags(prefix.on_link, prefix.autonomous);
    write_at(&fields::quad_bytes(prefix.valid), &mut option, 4);
    write_at(&fields::quad_bytes(prefix.preferred), &mut option, 8);
    write_at(&kept, &mut option, 16);
    option
}
