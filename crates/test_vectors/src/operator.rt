// What an operator sets of an advertisement, in the bytes of a case: flags 1, the router's lifetime 2, the counts of prefixes and of routes,
// 2 each, eight prefixes and eight routes. `replay` reads such prefixes and routes too: public functions
// for both would need contracts and edits, which are longer than what they share, and an unknown preference is low here and bad input there.
use advertisements::Advertisement;
use advertisements::prefix::Prefix;
use advertisements::route::{Preference, Route};
use header::fields;
use std::array;

// The bytes of a prefix, and of a route.
const PREFIX: usize = 26;

const ROUTE: usize = 22;

pub(crate) fn advertisement(c: &[u8]) -> Advertisement {
    let p = fields::tail(c, 7);
    let r = fields::tail(c, 215);
    let flags = fields::byte(c, 0);
    Advertisement {
        managed: 128 <= flags,
        other: 64 <= flags % 128,
        lifetime: fields::word(c, 1),
        prefixes: array::from_fn(|i| prefix(fields::tail(p, i * PREFIX))),
        prefix_count: fields::word(c, 3) as usize,
        routes: array::from_fn(|i| route(fields::tail(r, i * ROUTE))),
        route_count: fields::word(c, 5) as usize,
    }
}

// A prefix is its length 1, flags 1, valid and preferred lifetime, 4 each, and 16 bytes.
fn prefix(r: &[u8]) -> Prefix {
    let flags = fields::byte(r, 1);
    Prefix {
        bytes: fields::address(r, 10),
        valid: fields::quad(r, 2),
        preferred: fields::quad(r, 6),
        length: fields::byte(r, 0),
        on_link: 128 <= flags,
        autonomous: 64 <= flags % 128,
    }
}

// A route is its length 1, preference 1, lifetime 4 and 16 bytes.
fn route(r: &[u8]) -> Route {
    Route {
        bytes: fields::address(r, 6),
        lifetime: fields::quad(r, 2),
        length: fields::byte(r, 0),
        preference: preference(fields::byte(r, 1)),
    }
}

fn preference(n: u8) -> Preference {
    match n {
        0 => Preference::Medium,
        1 => Preference::High,
        _ => Preference::Low,
    }
}
