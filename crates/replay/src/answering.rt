// The call that answers a solicitation. Its lists may be longer than what is held of the input, so each is read at its own place. `test_vectors`
// reads such prefixes and routes too: public functions for both would need contracts and edits, which are longer than what they share, and an
// unknown preference is bad input here and low there.
ghost use Rattle.std.specs.Prelude.{◌≤◌, ◌<◌, IfOk};

use crate::spool::LIMIT;
use crate::stop::Stop;
use crate::window::Window;
use advertisements::Advertisement;
use advertisements::prefix::Prefix;
use advertisements::route::{Preference, Route};
use header::fields;
use std::array;

// The bytes of a prefix: length, flags, valid and preferred lifetime, and the prefix itself.
const PREFIX: usize = 26;

// The bytes of a route: length, preference, lifetime and prefix.
const ROUTE: usize = 22;

// Where the list of prefixes stands in the call.
const PREFIXES: usize = 8;

// The most bytes that are read of a list: its count and eight prefixes.
const LIST: usize = 210;

// The index of each list and of the packet's length, and how many entries the lists say to have.
#[derive(Clone, Copy)]
struct Places {
    prefixes: usize,
    prefix_count: usize,
    routes: usize,
    route_count: usize,
    packet: usize,
}

#[derive(Clone, Copy)]
pub(crate) struct Answering {
    pub(crate) locator: usize,
    pub(crate) room: usize,
    pub(crate) advertisement: Advertisement,
    // The index of the packet's length.
    pub(crate) packet: usize,
}

// The places of the call at an index.
fn places_of(at: usize, window: &mut Window) -> Result<Places, Stop>
    ensures { IfOk result (λ p. (p.routes ≤ 4194304) × (p.route_count ≤ 65535) × (p.packet ≤ 8388608)) }
{
    let prefixes = at.min(LIMIT + 1) + PREFIXES;
    window.reach(prefixes, 2)?;
    let prefix_count = window.word(prefixes);
    let routes = prefixes + 2 + prefix_count * PREFIX;
    window.reach(routes, 2)?;
    let route_count = window.word(routes);
    Ok(Places {
        prefixes,
        prefix_count,
        routes,
        route_count,
        packet: routes + 2 + route_count * ROUTE,
    })
}

// The bytes of the call at an index, whose preferences are ones that there are.
pub(crate) fn size_at(at: usize, window: &mut Window) -> Result<usize, Stop>
    ensures { IfOk result (λ size. 0 < size) }
{
    let places = places_of(at, window)?;
    for i in 0..places.route_count {
        let route = places.routes + 2 + i * ROUTE;
        window.reach(route, 2)?;
        if preference(fields::byte(window.bytes(route), 1)).is_err() {
            // The packet's length is read all the same: a read that fails is told before bad input is.
            window.reach(places.packet, 2)?;
            return Err(Stop::BadInput);
        }
    }
    window.reach(places.packet, 2)?;
    Ok(places.packet.saturating_sub(at) + 2 + window.word(places.packet))
}

// The call at an index, all of which is there.
pub(crate) fn read(at: usize, window: &mut Window) -> Result<Answering, Stop> {
    let places = places_of(at, window)?;
    window.reach(at, PREFIXES)?;
    let numbers = window.bytes(at);
    let flags = fields::byte(numbers, 5);
    let locator = fields::byte(numbers, 2) as usize;
    let room = fields::word(numbers, 3) as usize;
    let lifetime = fields::word(numbers, 6);
    window.reach(places.prefixes, LIST)?;
    let prefixes = first_prefixes(window.bytes(places.prefixes));
    window.reach(places.routes, LIST)?;
    let routes = first_routes(window.bytes(places.routes));
    window.reach_all(places.packet)?;
    let advertisement = Advertisement {
        managed: first_flag(flags),
        other: second_flag(flags),
        lifetime,
        prefixes,
        prefix_count: places.prefix_count,
        routes,
        route_count: places.route_count,
    };
    Ok(Answering {
        locator,
        room,
        advertisement,
        packet: places.packet,
    })
}

fn first_flag(flags: u8) -> bool {
    128 <= flags
}

fn second_flag(flags: u8) -> bool {
    64 <= flags % 128
}

// The first eight prefixes of a list. Entries behind its count are read from whatever follows: the node does not look at them.
fn first_prefixes(list: &[u8]) -> [Prefix; 8] {
    array::from_fn(|i| prefix(fields::tail(list, 2 + i * PREFIX)))
}

fn prefix(r: &[u8]) -> Prefix {
    let flags = fields::byte(r, 1);
    Prefix {
        bytes: fields::address(r, 10),
        valid: fields::quad(r, 2),
        preferred: fields::quad(r, 6),
        length: fields::byte(r, 0),
        on_link: first_flag(flags),
        autonomous: second_flag(flags),
    }
}

// The first eight routes of a list, as with prefixes.
fn first_routes(list: &[u8]) -> [Route; 8] {
    array::from_fn(|i| route(fields::tail(list, 2 + i * ROUTE)))
}

fn route(r: &[u8]) -> Route {
    Route {
        bytes: fields::address(r, 6),
        lifetime: fields::quad(r, 2),
        length: fields::byte(r, 0),
        preference: preference(fields::byte(r, 1)).unwrap_or(Preference::Low),
    }
}

fn preference(number: u8) -> Result<Preference, Stop> {
    match number {
        0 => Ok(Preference::Medium),
        1 => Ok(Preference::High),
        2 => Ok(Preference::Low),
        _ => Err(Stop::BadInput),
    }
}
