// Sending: what it comes to is judged first, as a plan, before a byte is written; then the plan is carried out.
#![tactic(auto)]

mod judging;

ghost use Rattle.std.specs.Prelude.{◌≡◌, length};
ghost use Rattle.sending.specs.Sending.{fields_for, plan_answer, plan_output, identification_after, sent_of, sent_output, send_given};

use header::wrap::OuterFields;
use header::{IPV6, wrap};
use judging::{Plan, send_plan};
use paths::packets;
use refusals::Refusal;
use settings::Settings;

// Three cases and no Result: 14 has values (R8.4), and a refusal has none.
#[derive(Clone, Copy, Debug, PartialEq, Eq)]
pub enum SendAnswer {
    // The length written.
    Wrapped(usize),
    // The largest packet that the path takes, and the length of the message written, 0 for none (R8.2) and no Option: so C has it.
    TooBig { size: u16, written: usize },
    Refused(Refusal),
}

// The answer to a sending, and the next identification.
#[derive(Clone, Copy, Debug, PartialEq, Eq)]
pub struct Sent {
    pub answer: SendAnswer,
    pub identification: u16,
}

// The outer header's fields.
fn fields_for(
    settings: Settings,
    identification: u16,
    path_size: u16,
    next_hop: [u8; 16],
    source: u32,
) -> OuterFields
    ensures { result ≡ fields_for settings identification path_size next_hop source }
{
    let dont_fragment = packets::dont_fragment(path_size);
    let destination = address::last_quad(next_hop);
    OuterFields {
        identification,
        dont_fragment,
        ttl: settings.ttl,
        protocol: IPV6,
        source,
        destination,
    }
}

// Carries a plan out.
fn carry_out(
    plan: Result<Plan, Refusal>,
    settings: Settings,
    identification: u16,
    path_size: u16,
    packet: &[u8],
    next_hop: [u8; 16],
    out: &mut [u8],
) -> SendAnswer
    ensures value { result ≡ plan_answer plan (length packet.now) (length out.old) }
    ensures out_after { out.new ≡ plan_output plan settings identification path_size packet.now next_hop out.old }
{
    match plan {
        Ok(Plan::Wrap(source)) => {
            let h = fields_for(settings, identification, path_size, next_hop, source);
            wrap::wrap(h, packet, out).map_or_else(SendAnswer::Refused, SendAnswer::Wrapped)
        }
        Ok(Plan::Tell(size)) => {
            let reporting = settings.reporting;
            messages::too_big(reporting, size, packet, out).map_or_else(
                SendAnswer::Refused,
                |written| SendAnswer::TooBig { size, written },
            )
        }
        Ok(Plan::Silent(size)) => SendAnswer::TooBig { size, written: 0 },
        Err(refusal) => SendAnswer::Refused(refusal),
    }
}

// Only a wrapped packet uses an identification.
fn identification_after(answer: SendAnswer, identification: u16) -> u16
    ensures { result ≡ identification_after answer identification }
{
    match answer {
        SendAnswer::Wrapped(_) => identification.wrapping_add(1),
        _ => identification,
    }
}

// One sending over a path of that size: the answer and the next identification; out gets what is written. Its arguments stand one by one: the
// node alone makes this call, and a struct of them would be filled and taken apart once each. `sent_of` and `plan_of` take them so.
pub fn send(
    settings: Settings,
    identification: u16,
    path_size: u16,
    packet: &[u8],
    next_hop: [u8; 16],
    locator: usize,
    out: &mut [u8],
) -> Sent
    ensures value { result ≡ sent_of settings identification path_size packet.now next_hop locator (length out.old) }
    ensures out_after { out.new ≡ sent_output settings identification path_size packet.now next_hop locator out.old }
{
    let plan = send_plan(settings, path_size, packet, next_hop, locator);
    let answer = carry_out(
        plan,
        settings,
        identification,
        path_size,
        packet,
        next_hop,
        out,
    );
    Sent {
        answer,
        identification: identification_after(answer, identification),
    }
}

impl SendAnswer {
    // The number (R4), 0 for a packet that was wrapped.
    pub fn number(self) -> u8
        ensures { result ≡ (send_given self).number }
    {
        match self {
            SendAnswer::Wrapped(_) => 0,
            SendAnswer::TooBig { .. } => 14,
            SendAnswer::Refused(refusal) => refusal.number(),
        }
    }
}
