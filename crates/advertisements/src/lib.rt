// The router advertisement that we write: what the operator sets of it, its length and its bytes. Any values are taken.
#![tactic(auto)]

pub mod bits;
pub mod prefix;
pub mod route;

ghost use Rattle.std.specs.Prelude.{◌≡◌, ◌||◌, ◌+◌, ◌*◌, ◌≤◌, ◌<◌, length, take};
ghost use mathlib.Core.List.{map, flatten};
ghost use Rattle.lists.specs.Any.{any_of};
ghost use Rattle.lent.specs.Written.{written, written_at};
ghost use Rattle.advertisements.specs.Options.{prefix_option, route_option};
ghost use Rattle.header.specs.Wrap.{be32};
ghost use Rattle.advertisements.specs.Advertisement.{is_prefix_too_long, is_route_too_long, are_options_bad, written_options, prefixes_of, routes_of, routes_length, advertisement_length, advertisement_answer, advertisement_output};

use header::fields;
use lent::write_at;
use messages::{HEADERS, HOP_LIMIT, Message, ROUTER_ADVERTISEMENT};
use prefix::{PREFIX_OPTION, Prefix};
use refusals::Refusal;
use route::{ROUTE_OPTION, Route};

// The most prefixes, and the most routes.
pub const MOST: usize = 8;

// The most bits of a prefix.
const LONGEST: u8 = 128;

// What hosts should use for the hop limit: 0 leaves it unsaid.
const CURRENT_HOP_LIMIT: u8 = 0;

// Where the options start: behind the message's headers stand the reachable time and the retransmission timer.
const OPTIONS: usize = HEADERS + 8;

// An advertisement as the operator sets it. Entries behind a count are not read. Arrays, for memory is fixed, and each with its count beside
// it, for that may be above 8, which is refused by 26 (`OptionsBad`).
#[derive(Clone, Copy)]
pub struct Advertisement {
    // The flag M.
    pub managed: bool,
    // The flag O.
    pub other: bool,
    // The router's lifetime.
    pub lifetime: u16,
    pub prefixes: [Prefix; MOST],
    pub prefix_count: usize,
    pub routes: [Route; MOST],
    pub route_count: usize,
}

impl Advertisement {
    // The prefixes that count. This and the next have two types and one line: a generic one would be that line, with both fields handed to it.
    fn counted_prefixes(&self) -> &[Prefix]
        ensures { result.now ≡ prefixes_of self.now }
    {
        &self.prefixes[..self.prefix_count.min(MOST)]
    }

    // The routes that count.
    fn counted_routes(&self) -> &[Route]
        ensures { result.now ≡ routes_of self.now }
    {
        &self.routes[..self.route_count.min(MOST)]
    }

    // Whether one of them has more than 128 bits.
    fn some_too_long(&self) -> bool
        ensures { result ≡ (any_of is_prefix_too_long (prefixes_of self.now) || any_of is_route_too_long (routes_of self.now)) }
    {
        let prefix = self.counted_prefixes().iter().any(|p| LONGEST < p.length);
        let route = self.counted_routes().iter().any(|r| LONGEST < r.length);
        prefix | route
    }

    // Number 26. What is asked of each prefix and route is not asked where they are too many.
    #[tactic(auto, unfolding(crate::specs::Advertisement::are_options_bad))]
    fn options_bad(&self) -> bool
        ensures { result ≡ are_options_bad self.now }
    {
        MOST < self.prefix_count || MOST < self.route_count || self.some_too_long()
    }

    #[tactic(auto, unfolding(crate::specs::Advertisement::advertisement_length))]
    fn length(&self) -> usize
        ensures { result ≡ advertisement_length self.now }
    {
        OPTIONS
            + (self.counted_prefixes().len() * PREFIX_OPTION + routes_length(self.counted_routes()))
    }

    // The length where there is so much room, or the refusal.
    #[tactic(auto, unfolding(crate::specs::Advertisement::advertisement_answer, crate::specs::Advertisement::advertisement_check))]
    fn checked(&self, room: usize) -> Result<usize, Refusal>
        ensures { result ≡ advertisement_answer self.now room }
    {
        if self.options_bad() {
            return Err(Refusal::OptionsBad);
        }
        let n = advertisement_length(*self);
        if room < n {
            Err(Refusal::OutputShort)
        } else {
            Ok(n)
        }
    }
}

// The bytes that route options take.
fn routes_length(routes: &[Route]) -> usize
    requires { length routes.now ≤ 8 }
    ensures { (result ≡ routes_length routes.now) × (result ≤ 192) }
{
    let mut sum = 0;
    for r in routes {
        sum += route::route_size(r.length);
    }
    sum
}

// The length of the whole packet. That the lifetime has 16 bits and that there are eight places for prefixes, as AdvertisementFits says, is
// their type: it is shown here of every advertisement, and what it says of a prefix and of a route where their options are made.
pub fn advertisement_length(a: Advertisement) -> usize
    ensures value { result ≡ advertisement_length a }
    ensures lifetime_bound { (a.lifetime < 65536) × (length a.prefixes ≡ 8) }
{
    a.length()
}

// Writes prefix options to the front of out. All have one length, where route options have three: so `write_routes` is a loop of its own.
fn write_prefixes(prefixes: &[Prefix], out: &mut [u8])
    requires { length prefixes.now * 32 ≤ length out.old }
    ensures out_after { out.new ≡ written (flatten (map prefix_option prefixes.now)) out.old }
    ensures prefixes_len { length (flatten (map prefix_option prefixes.now)) ≡ length prefixes.now * 32 }
{
    for (i, p) in prefixes.iter().enumerate() {
        write_at(&prefix::prefix_option(*p), out, i * PREFIX_OPTION);
    }
}

// Writes the first `size` bytes of a route option at a place. Each length that options have is moved by code of its own: the compiler
// knows it, and calls no function for it. The sizes are no enum, which would be made of one only to be asked for it.
fn write_first(option: [u8; ROUTE_OPTION], size: usize, at: usize, out: &mut [u8])
    requires { size ≤ 24 }
    ensures { out.new ≡ written_at at (take size option) out.old }
{
    match size {
        8 => write_at(&option[..8], out, at),
        16 => write_at(&option[..16], out, at),
        ROUTE_OPTION => write_at(&option, out, at),
        _ => write_at(&option[..size], out, at),
    }
}

// Writes route options to the front of out.
fn write_routes(routes: &[Route], out: &mut [u8])
    requires { (length routes.now ≤ 8) × (routes_length routes.now ≤ length out.old) }
    ensures out_after { out.new ≡ written (flatten (map route_option routes.now)) out.old }
    ensures routes_len { length (flatten (map route_option routes.now)) ≡ routes_length routes.now }
{
    let mut at = 0;
    for r in routes {
        let size = route::route_size(r.length);
        write_first(route::route_option(*r), size, at, out);
        at += size;
    }
}

// Writes what stands behind the message's headers to the front of out: reachable time and retransmission timer 0, and the options.
fn write_rest(a: &Advertisement, out: &mut [u8])
    requires { 8 + (length (prefixes_of a.now) * 32 + routes_length (routes_of a.now)) ≤ length out.old }
    ensures out_after { out.new ≡ written (be32 0 (be32 0 (flatten (written_options a.now)))) out.old }
    ensures a_len { length (flatten (written_options a.now)) ≡ length (prefixes_of a.now) * 32 + routes_length (routes_of a.now) }
{
    let prefixes = a.counted_prefixes();
    let routes = a.counted_routes();
    let behind = 8 + prefixes.len() * PREFIX_OPTION;
    write_at(&[0; 8], out, 0);
    write_prefixes(prefixes, &mut out[8..]);
    write_routes(routes, &mut out[behind..]);
}

// Writes the advertisement, an IPv6 packet that is not wrapped.
pub fn write(
    from: [u8; 16],
    to: [u8; 16],
    a: Advertisement,
    out: &mut [u8],
) -> Result<usize, Refusal>
    ensures value { result ≡ advertisement_answer a (length out.old) }
    ensures out_after { out.new ≡ advertisement_output from to a out.old }
{
    let n = a.checked(out.len())?;
    write_rest(&a, &mut out[HEADERS..]);
    let [high, low] = fields::word_bytes(a.lifetime);
    let message = Message {
        hop: HOP_LIMIT,
        from,
        to,
        kind: ROUTER_ADVERTISEMENT,
        four: [
            CURRENT_HOP_LIMIT,
            bits::flags(a.managed, a.other),
            high,
            low,
        ],
    };
    messages::enclose(message, n, out);
    Ok(n)
}
