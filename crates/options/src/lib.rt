// The options of a neighbour discovery message: whether they are whole, whether one is a source link-layer address, the smallest lifetime
// that counts, and when the router that advertised them is due again. Any bytes and any numbers are taken.
#![tactic(auto)]

ghost use Rattle.std.specs.Prelude.{◌≡◌, ◌||◌, ◌≤◌, max, min, length};
ghost use Rattle.options.specs.Options.{option_size, are_options_whole};
ghost use Rattle.options.specs.Lifetimes.{is_prefix, is_route, lifetime_of, is_counted, options_read_of, delay_of, due_after};
ghost use Rattle.options.specs.SoFar.{some_size, shorter_of, found_with, walked_of, read_of};

// An option's length counts units of 8 bytes (RFC 4861, 4.6).
pub const UNIT: usize = 8;

// The type of a source link-layer address option (RFC 4861, 4.6.1). Types are bytes of the message, and stay so: any other byte is a type too.
const SOURCE_LINK_LAYER: u8 = 1;

// A prefix option: its type and its length (RFC 4861, 4.6.2).
pub const PREFIX: u8 = 3;

pub const PREFIX_UNITS: u8 = 4;

// A route option: its type and its greatest length (RFC 4191, 2.3).
pub const ROUTE: u8 = 24;

const ROUTE_UNITS: u8 = 3;

// A lifetime without end, which does not count.
const INFINITE: u32 = 0xffff_ffff;

// How many seconds a router is not asked again if no lifetime counts.
const WITHOUT_LIFETIME: u32 = 3600;

// How many options one walk passes at most. A walk makes a call for each of them, and so needs the same stack whatever the message is.
const MOST: usize = 12;

// What the options say: whether they are walked to the exact end, none of length 0, and the smallest lifetime up to there. What stands before a
// cut is told too (`options_read_of`), so one doesn't stand for the other.
#[derive(Clone, Copy)]
pub struct Options {
    pub whole: bool,
    pub smallest: Option<u32>,
    // Whether one of them is a source link-layer address.
    pub source_link_layer: bool,
}

// Whether an option of this type and length has a lifetime.
fn has_lifetime(kind: u8, units: u8) -> bool
    ensures { result ≡ (is_prefix kind units || is_route kind units) }
{
    ((kind == PREFIX) & (units == PREFIX_UNITS))
        | ((kind == ROUTE) & (1 <= units) & (units <= ROUTE_UNITS))
}

// The bytes that the first option takes, if it has a length and does not run past the end.
fn option_size(rest: &[u8]) -> Option<usize>
    ensures { result ≡ some_size (option_size rest.now) }
{
    if rest.len() < 2 {
        return None;
    }
    let size = usize::from(rest[1]) * UNIT;
    ((size != 0) & (size <= rest.len())).then_some(size)
}

// The lifetime of the first option, 0 if it has none: 0 doesn't count either (`counts`), so nothing tells the two apart.
fn option_lifetime(rest: &[u8]) -> u32
    requires { 8 ≤ length rest.now }
    ensures { result ≡ lifetime_of rest.now }
{
    if has_lifetime(rest[0], rest[1]) {
        address::quad(rest[4], rest[5], rest[6], rest[7])
    } else {
        0
    }
}

fn counts(lifetime: u32) -> bool
    ensures { result ≡ is_counted lifetime }
{
    (lifetime != 0) & (lifetime != INFINITE)
}

// The smallest lifetime once another one is known.
fn shorter(smallest: Option<u32>, lifetime: u32) -> Option<u32>
    ensures { result ≡ shorter_of smallest lifetime }
{
    if counts(lifetime) {
        Some(smallest.map_or(lifetime, |seconds| seconds.min(lifetime)))
    } else {
        smallest
    }
}

// What is found up to an option: the smallest lifetime, and whether there was a source link-layer address.
#[derive(Clone, Copy)]
struct Found {
    smallest: Option<u32>,
    source_link_layer: bool,
}

// What is found once the first option is passed too.
fn with_option(found: Found, rest: &[u8]) -> Found
    requires { 8 ≤ length rest.now }
    ensures { result ≡ found_with found rest.now }
{
    let smallest = found.smallest;
    Found {
        smallest: shorter(smallest, option_lifetime(rest)),
        source_link_layer: found.source_link_layer | (rest[0] == SOURCE_LINK_LAYER),
    }
}

// What one walk leaves: how many bytes are left, and what is found up to there. A count and not the part itself: so `walked` of lists has it, and
// nothing is lent here.
#[derive(Clone, Copy)]
struct Walked {
    left: usize,
    found: Found,
}

// At most so many options of the rest of the message. The rules want a call for each option (R21.7), as for each extension header in the twin of
// this, `header::chain::walk`: the laws of both are proved once (lists, Walks).
fn walk(rest: &[u8], most: usize, found: Found) -> Walked
    ensures { result ≡ walked_of most rest.now found }
{
    if 0 < most {
        if let Some(size) = option_size(rest) {
            let next = with_option(found, rest);
            return walk(&rest[size..], most - 1, next);
        }
    }
    Walked {
        left: rest.len(),
        found,
    }
}

// All options, with what is found before them: walk after walk, while there is an option at `at`.
fn read(options: &[u8], before: Found) -> Options
    ensures { result ≡ read_of options.now before }
{
    let mut found = before;
    let mut at = 0;
    let mut more = option_size(options).is_some();
    while more {
        let walked = walk(&options[at..], MOST, found);
        at = options.len() - walked.left;
        found = walked.found;
        more = option_size(&options[at..]).is_some();
    }
    let smallest = found.smallest;
    Options {
        whole: at == options.len(),
        smallest,
        source_link_layer: found.source_link_layer,
    }
}

// Whether the options are walked one after another to the exact end, none of length 0.
pub fn options_whole(options: &[u8]) -> bool
    ensures { result ≡ are_options_whole options.now }
{
    let before = Found {
        smallest: None,
        source_link_layer: false,
    };
    read(options, before).whole
}

// What the options say, the router's own lifetime being one of the lifetimes.
pub fn options_read(router: u16, options: &[u8]) -> Options
    ensures { result ≡ options_read_of router options.now }
{
    let before = Found {
        smallest: shorter(None, u32::from(router)),
        source_link_layer: false,
    };
    read(options, before)
}

// For how many seconds the router is not asked again.
#[tactic(auto, unfolding(crate::specs::Lifetimes::delay_of))]
fn delay(interval: u16, smallest: Option<u32>) -> u32
    ensures { result ≡ delay_of interval smallest }
{
    smallest.map_or(
        WITHOUT_LIFETIME,
        |seconds| u32::from(interval).max(seconds / 2),
    )
}

// When the router is due again.
pub fn due_after(now: u32, interval: u16, smallest: Option<u32>) -> u64
    ensures { result ≡ due_after now interval smallest }
{
    u64::from(now) + u64::from(delay(interval, smallest))
}
