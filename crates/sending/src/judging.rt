// What a sending comes to, before a byte is written: numbers 8, 11, 12 and 13, and then the packet's length against the path.
ghost use Rattle.std.specs.Prelude.{◌≡◌, length};
ghost use Rattle.header.specs.Inner.{inner_of, is_packet_malformed};
ghost use Rattle.settings.specs.Settings.{embedded_to};
ghost use Rattle.sending.specs.Plan.{source_for, sized_plan, plan_of};

use address::prefixes;
use header::{INNER_HEADER, inner};
use paths::packets;
use refusals::Refusal;
use settings::Settings;

// Room and total length are the writer's to judge, which refuses by 23 and 15 itself.
#[derive(Clone, Copy, Debug, PartialEq, Eq)]
pub enum Plan {
    // The packet is wrapped, from the locator's address.
    Wrap(u32),
    // Too Big, with a message that names the size.
    Tell(u16),
    // Too Big, without a message.
    Silent(u16),
}

// Number 8.
fn packet_malformed(packet: &[u8]) -> bool
    ensures { result ≡ is_packet_malformed (length packet.now) (inner_of packet.now) }
{
    if packet.len() < INNER_HEADER {
        return true;
    }
    inner::packet_malformed(packet.len(), inner::inner_header(packet))
}

// The tunnel end that the next hop embeds: a link-local ISATAP address one whatever prefixes there are.
fn tunnel_end(settings: Settings, next_hop: [u8; 16]) -> Option<u32>
    ensures { result ≡ embedded_to settings next_hop }
{
    if address::link_local_prefixed(next_hop) & address::identifier(next_hop) {
        return Some(address::last_quad(next_hop));
    }
    let on_link = settings.prefixes;
    address::isatap(prefixes::rows(on_link), settings.prefix_count, next_hop)
}

// Numbers 8, 11, 12 and 13; else the locator's address.
fn source_for(
    settings: Settings,
    packet: &[u8],
    next_hop: [u8; 16],
    locator: usize,
) -> Result<u32, Refusal>
    ensures { result ≡ source_for settings packet.now next_hop locator }
{
    if packet_malformed(packet) {
        return Err(Refusal::InnerMalformed);
    }
    let source = settings.locator(locator).ok_or(Refusal::NoLocator)?;
    let end = tunnel_end(settings, next_hop).ok_or(Refusal::NextHopNotIsatap)?;
    if settings.bad_end(end) {
        return Err(Refusal::TunnelEndForbidden);
    }
    Ok(source)
}

// Number 14: a packet that is longer than the largest gets a message if it may draw one.
fn sized_plan(path_size: u16, packet: &[u8], source: u32) -> Plan
    ensures { result ≡ sized_plan path_size packet.now source }
{
    let size = packets::largest_packet(path_size);
    if packet.len() <= size as usize {
        return Plan::Wrap(source);
    }
    if inner::may_draw_error(packet) {
        Plan::Tell(size)
    } else {
        Plan::Silent(size)
    }
}

#[tactic(auto, unfolding(crate::specs::Plan::plan_of, crate::specs::Plan::source_for))]
pub(crate) fn send_plan(
    settings: Settings,
    path_size: u16,
    packet: &[u8],
    next_hop: [u8; 16],
    locator: usize,
) -> Result<Plan, Refusal>
    ensures { result ≡ plan_of settings path_size packet.now next_hop locator }
{
    let source = source_for(settings, packet, next_hop, locator)?;
    Ok(sized_plan(path_size, packet, source))
}
