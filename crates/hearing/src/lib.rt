// Router advertisements: whether one is valid and its router listed, and when that router is due again. Router solicitations: whether one
// is valid.
#![tactic(auto)]

mod message;
pub mod solicitation;

ghost use Rattle.std.specs.Prelude.{◌≡◌};
ghost use Rattle.hearing.specs.Heard.{is_advertisement, heard_with, heard_from, heard_message, heard_of};

use address::prefixes;
use header::{ICMPV6, INNER_HEADER, fields};
use message::Packet;
use messages::ROUTER_ADVERTISEMENT;
use refusals::Refusal;
use routers::{Router, RouterList};
use settings::Settings;

// Where the options of an advertisement start (RFC 4861, 4.2).
const OPTIONS: usize = 16;

// The answer, and the router list after the advertisement.
// A struct and no Result: after a refusal the list is handed back too (R1.12). `asking::Asked` has the same
// fields; nothing takes both, so one type would only take their names away.
#[derive(Clone, Copy)]
pub struct Heard {
    pub answer: Result<u32, Refusal>,
    pub routers: RouterList,
}

// Whether a packet is a router advertisement, its options aside. What most other packets lack is asked first, and the checksum, which takes
// a pass over all bytes, last.
fn advertisement(p: Packet) -> bool
    ensures { result ≡ is_advertisement p.entry.header p.entry.bytes.now }
{
    if p.header.next != ICMPV6 {
        return false;
    }
    let source = p.header.source;
    if address::link_local_prefixed(source) & p.fields_right(ROUTER_ADVERTISEMENT, OPTIONS) {
        p.sum_right()
    } else {
        false
    }
}

// What is judged of a valid advertisement from a source, with its smallest lifetime: 21, or its router, by when it is then due. Settings,
// router list and time go side by side, here and below, as the node has them: a struct of the three would be made for the call alone.
#[tactic(auto, unfolding(crate::specs::Heard::heard_from, settings::specs::Settings::embedded_to))]
fn judge_from(
    settings: Settings,
    routers: RouterList,
    time: u32,
    source: [u8; 16],
    smallest: Option<u32>,
) -> Result<Router, Refusal>
    ensures { heard_with result routers ≡ heard_from settings routers time source smallest }
{
    let on_link = settings.prefixes;
    let embedded = address::isatap(prefixes::rows(on_link), settings.prefix_count, source);
    let address = embedded.ok_or(Refusal::AdvertiserNotListed)?;
    if !routers.lists(address) {
        return Err(Refusal::AdvertiserNotListed);
    }
    let due = options::due_after(time, settings.interval, smallest);
    Ok(Router { address, due })
}

// What is judged of an advertisement from a source whose options are yet to be walked: they are walked once.
fn judge_message(
    settings: Settings,
    routers: RouterList,
    time: u32,
    source: [u8; 16],
    p: &[u8],
) -> Result<Router, Refusal>
    ensures { heard_with result routers ≡ heard_message settings routers time source p.now }
{
    let message = fields::tail(p, INNER_HEADER);
    let options = fields::tail(message, OPTIONS);
    let read = options::options_read(fields::word(message, 6), options);
    if !read.whole {
        return Err(Refusal::AdvertisementInvalid);
    }
    judge_from(settings, routers, time, source, read.smallest)
}

// What is judged of an inner packet that is taken for an advertisement at a time: its router, by when it is then due.
pub fn judge(
    settings: Settings,
    routers: RouterList,
    time: u32,
    packet: &[u8],
) -> Result<Router, Refusal>
    ensures { heard_with result routers ≡ heard_of settings routers time packet.now }
{
    let p = Packet::of(packet).ok_or(Refusal::InnerMalformed)?;
    if !advertisement(p) {
        return Err(Refusal::AdvertisementInvalid);
    }
    judge_message(settings, routers, time, p.header.source, p.bytes)
}

// What was judged, and the router list after it: the advertising router is due then.
pub fn heard_with(judged: Result<Router, Refusal>, routers: RouterList) -> Heard
    ensures { result ≡ heard_with judged routers }
{
    match judged {
        Ok(router) => Heard {
            answer: Ok(router.address),
            routers: routers.rescheduled(router.address, router.due),
        },
        Err(refusal) => Heard {
            answer: Err(refusal),
            routers,
        },
    }
}

// What comes of an inner packet that is taken for an advertisement at a time: whose it is, and the router list after it.
pub fn hear(settings: Settings, routers: RouterList, time: u32, packet: &[u8]) -> Heard
    ensures { result ≡ heard_of settings routers time packet.now }
{
    let judged = judge(settings, routers, time, packet);
    heard_with(judged, routers)
}
