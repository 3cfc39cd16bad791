// Numbers 8 to 10, and then where the inner packet stands. They are asked of what is read of the inner header, so that one judging does for
// a header that stands in the datagram and for one in the memory.
ghost use Rattle.std.specs.Prelude.{◌≡◌};
ghost use Rattle.address.specs.Address.{last_quad, is_bad_source_with};
ghost use Rattle.address.specs.Quads.{bytes_in};
ghost use Rattle.header.specs.Inner.{is_inner_malformed};
ghost use Rattle.settings.specs.Settings.{forbidden_to};
ghost use Rattle.routers.specs.Routers.{live, listed};
ghost use Rattle.receiving.specs.Receive.{embeds, is_source_right};
ghost use Rattle.receiving.specs.Stages.{inner_in, passes_anyhow, inner_check, judged_or, ReadsInner};

use crate::Received;
use address::prefixes;
use address::quads::Quads;
use header::inner::Inner;
use header::{INNER_HEADER, fields, inner};
use refusals::Refusal;
use routers::RouterList;
use settings::Settings;

// What 8 to 10 are asked of: the outer source and the payload's length; and of the inner header the version, the packet's length and the
// source address.
#[derive(Clone, Copy)]
pub struct Opening {
    pub source: u32,
    pub length: usize,
    pub version: u8,
    pub packet: usize,
    pub address: Quads,
}

// What is read of a payload: the inner packet's length, and what is to be judged, unless 8 to 10 let it pass whatever settings and routers there are.
#[derive(Clone, Copy)]
pub struct Reading {
    pub length: usize,
    pub open: Option<Opening>,
}

// Where the inner packet stands, and what is to be judged before that is said.
#[derive(Clone, Copy)]
pub struct Stage {
    pub received: Received,
    pub open: Option<Opening>,
}

// Whether 8 to 10 let it pass whatever settings and routers there are: a whole packet from a link-local ISATAP address that embeds the outer
// source. Such an address is on-link everywhere, and no bad one.
fn passes_anyhow(x: Opening) -> bool
    ensures { result ≡ passes_anyhow x }
{
    let q = x.address;
    (q.last == x.source) & address::link_local_prefixed(q) & address::identifier(q) & !malformed(x)
}

// What is read of a payload from that outer source. Its length is asked first, so that the header is then read without asking it again.
pub fn read_inner(source: u32, payload: &[u8]) -> Result<Reading, Refusal>
    ensures { ReadsInner source payload.now result }
{
    if payload.len() < INNER_HEADER {
        return Err(Refusal::InnerMalformed);
    }
    let address = fields::quads(payload, 8);
    let length = INNER_HEADER + fields::word(payload, 4) as usize;
    let x = Opening {
        source,
        length: payload.len(),
        version: fields::byte(payload, 0) / 16,
        packet: length,
        address,
    };
    let open = (!passes_anyhow(x)).then_some(x);
    Ok(Reading { length, open })
}

// Whether the inner source is bad.
fn source_bad(settings: Settings, q: Quads) -> bool
    ensures { result ≡ is_bad_source_with (forbidden_to settings (last_quad (bytes_in q))) (bytes_in q) }
{
    let forbidden = settings.forbidden_to(q.last);
    address::bad_source_with(forbidden, q)
}

// Whether the address is an ISATAP address that embeds v. Most have the link-local prefix: then the settings' are not read.
fn embeds_it(settings: Settings, q: Quads, v: u32) -> bool
    ensures { result ≡ embeds settings (bytes_in q) v }
{
    if address::identifier(q) & (q.last == v) {
        if address::link_local_prefixed(q) {
            return true;
        }
        let on_link = settings.prefixes;
        return address::on_link(prefixes::rows(on_link), settings.prefix_count, q);
    }
    false
}

// Whether the inner source is right for the outer one. The router list is read only where the address does not embed it.
fn source_right(settings: Settings, routers: RouterList, source: u32, q: Quads) -> bool
    ensures { result ≡ is_source_right settings (listed source (live routers)) source (bytes_in q) }
{
    if embeds_it(settings, q, source) {
        return true;
    }
    routers.lists(source)
}

// Number 8, which asks version and length alone.
fn malformed(x: Opening) -> bool
    ensures { result ≡ is_inner_malformed x.length (inner_in x) }
{
    let i = Inner {
        version: x.version,
        length: x.packet,
        next: 0,
        hop: 0,
        source: [0; 16],
    };
    inner::inner_malformed(x.length, i)
}

// Numbers 8, 9 and 10.
fn check_inner(settings: Settings, routers: RouterList, x: Opening) -> Result<(), Refusal>
    ensures { result ≡ inner_check settings (listed x.source (live routers)) x.source x.length (inner_in x) }
{
    if malformed(x) {
        return Err(Refusal::InnerMalformed);
    }
    let q = x.address;
    if source_bad(settings, q) {
        return Err(Refusal::InnerSourceBad);
    }
    if !source_right(settings, routers, x.source, q) {
        return Err(Refusal::OuterSourceWrong);
    }
    Ok(())
}

// What comes of what is read, or of the number: 8 to 10 of what is to be judged, and then where the inner packet stands. Settings and router list go side by side,
// as a service has them: a struct of the two would be made for the call alone.
pub fn judge(
    settings: Settings,
    routers: RouterList,
    stage: Result<Stage, Refusal>,
) -> Result<Received, Refusal>
    ensures { result ≡ judged_or settings (live routers) stage }
{
    let stage = stage?;
    if let Some(x) = stage.open {
        check_inner(settings, routers, x)?;
    }
    Ok(stage.received)
}
