// What an operator sets of an advertisement, as structs of C, which may hold any bytes, and what of it is advertised; and the bytes of an address.
ghost use Rattle.std.specs.Prelude.{◌≡◌};
ghost use Rattle.bogtrumpet.specs.Plain.{bytes_of, prefix_from, preference_from, route_from, no_prefix, no_route, advertisement_from};

use super::Address;
use advertisements::route::Preference;
use advertisements::{MOST, prefix, route};

// Any value but 0 sets a flag.
#[repr(C)]
#[derive(Clone, Copy)]
pub struct Prefix {
    pub bytes: [u8; 16],
    pub valid: u32,
    pub preferred: u32,
    pub length: u8,
    pub on_link: u8,
    pub autonomous: u8,
}

// Of the preferences 1 is high, 2 is low, and any other medium.
#[repr(C)]
#[derive(Clone, Copy)]
pub struct Route {
    pub bytes: [u8; 16],
    pub lifetime: u32,
    pub length: u8,
    pub preference: u8,
}

// The first `prefix_count` prefixes, and the first `route_count` routes. Any value but 0 sets a flag.
#[repr(C)]
#[derive(Clone, Copy)]
pub struct Advertisement {
    pub prefixes: [Prefix; MOST],
    pub prefix_count: usize,
    pub routes: [Route; MOST],
    pub route_count: usize,
    pub lifetime: u16,
    pub managed: u8,
    pub other: u8,
}

// The bytes of an address. Its four fields are copied before they are taken apart, so that each is read at once.
pub(crate) fn bytes(address: Address) -> [u8; 16]
    ensures { result ≡ bytes_of address }
{
    let a = address.first;
    let b = address.second;
    let c = address.third;
    let d = address.last;
    [
        a[0], a[1], a[2], a[3], b[0], b[1], b[2], b[3], c[0], c[1], c[2], c[3], d[0], d[1], d[2],
        d[3],
    ]
}

#[tactic(auto, unfolding(crate::specs::Plain::prefix_from))]
fn prefix_from(p: Prefix) -> prefix::Prefix
    ensures { result ≡ prefix_from p }
{
    let bytes = p.bytes;
    prefix::Prefix {
        bytes,
        valid: p.valid,
        preferred: p.preferred,
        length: p.length,
        on_link: 0 < p.on_link,
        autonomous: 0 < p.autonomous,
    }
}

#[tactic(auto, unfolding(crate::specs::Plain::preference_from))]
fn preference_from(number: u8) -> Preference
    ensures { result ≡ preference_from «number» }
{
    match number {
        1 => Preference::High,
        2 => Preference::Low,
        _ => Preference::Medium,
    }
}

#[tactic(auto, unfolding(crate::specs::Plain::route_from))]
fn route_from(r: Route) -> route::Route
    ensures { result ≡ route_from r }
{
    let bytes = r.bytes;
    let preference = preference_from(r.preference);
    route::Route {
        bytes,
        lifetime: r.lifetime,
        length: r.length,
        preference,
    }
}

// A place with no prefix. Written out, as the next: an advertised prefix or route has no default of its own, zeros only fill what no rule reads.
fn no_prefix() -> prefix::Prefix
    ensures { result ≡ no_prefix }
{
    prefix::Prefix {
        bytes: [0; 16],
        valid: 0,
        preferred: 0,
        length: 0,
        on_link: false,
        autonomous: false,
    }
}

// A place with no route.
fn no_route() -> route::Route
    ensures { result ≡ no_route }
{
    route::Route {
        bytes: [0; 16],
        lifetime: 0,
        length: 0,
        preference: Preference::Medium,
    }
}

// The counts stay as they are, so that too many are refused. One loop converts the prefixes that count and then the routes: two loops of
// at most eight turns each would be unrolled, and every field of every place then be carried on its own, also where nothing counts.
pub fn advertisement_from(a: Advertisement) -> advertisements::Advertisement
    ensures { result ≡ advertisement_from a }
{
    let given_prefixes = a.prefixes;
    let given_routes = a.routes;
    let p = a.prefix_count.min(MOST);
    let n = p + a.route_count.min(MOST);
    let mut prefixes = [no_prefix(); MOST];
    let mut routes = [no_route(); MOST];
    for i in 0..n {
        if i < p {
            prefixes[i] = prefix_from(given_prefixes[i]);
        } else {
            routes[i - p] = route_from(given_routes[i - p]);
        }
    }
    advertisements::Advertisement {
        managed: 0 < a.managed,
        other: 0 < a.other,
        lifetime: a.lifetime,
        prefixes,
        prefix_count: a.prefix_count,
        routes,
        route_count: a.route_count,
    }
}
