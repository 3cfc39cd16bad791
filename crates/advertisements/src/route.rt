// The route option that we write (RFC 4191, 2.3).
ghost use Rattle.std.specs.Prelude.{◌≡◌, ◌*◌};
ghost use Rattle.advertisements.specs.Options.{preference_bits, route_units, full_route_option};
ghost use Rattle.advertisements.specs.Fits.{RouteFits};

use crate::bits;
use header::fields;
use lent::write_at;
use options::{ROUTE, UNIT};

// How a router is preferred for a route: by the bits 3 and 4 of a byte whose others are 0 (RFC 4191, 2.1).
#[derive(Clone, Copy)]
pub enum Preference {
    Medium = 0x00,
    High = 0x08,
    Low = 0x18,
}

impl Preference {
    fn bits(self) -> u8
        ensures { result ≡ preference_bits self }
    {
        self as u8
    }
}

// A route as the operator sets it.
#[derive(Clone, Copy)]
pub struct Route {
    pub bytes: [u8; 16],
    pub lifetime: u32,
    // How many bits of the prefix count.
    pub length: u8,
    pub preference: Preference,
}

// The most bytes of a route option.
pub const ROUTE_OPTION: usize = 24;

// The shortest length of the option for a prefix of that many bits, in units of 8 bytes.
#[tactic(auto, unfolding(crate::specs::Options::route_units))]
fn route_units(length: u8) -> u8
    ensures { result ≡ route_units length }
{
    match length {
        0 => 1,
        1..=64 => 2,
        _ => 3,
    }
}

// The bytes that the option takes.
pub fn route_size(length: u8) -> usize
    ensures { result ≡ route_units length * 8 }
{
    route_units(length) as usize * UNIT
}

// The option and its whole prefix behind it, of which the first `route_size` bytes are the option. What the types say of its fields is shown
// here of every route.
pub fn route_option(route: Route) -> [u8; ROUTE_OPTION]
    ensures value { result ≡ full_route_option route }
    ensures route_fits { RouteFits route }
{
    let kept = bits::first_bits_of(route.length, route.bytes);
    let mut option = [0; ROUTE_OPTION];
    option[0] = ROUTE;
    option[1] = route_units(route.length);
    option[2] = route.length;
    option[3] = route.preference.bits();
    write_at(&fields::quad_bytes(route.lifetime), &mut option, 4);
    write_at(&kept, &mut option, 8);
    option
}
