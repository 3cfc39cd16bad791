// A size report that is read before any settings are, and then judged by the settings of two services, one of which it belongs to. So what is
// refused by its bytes is refused before settings are loaded.
ghost use Rattle.std.specs.Prelude.{◌≡◌};
ghost use Rattle.reports.specs.Reading.{is_never_ours, reading_of, origin_of, over_link, quote_over, judged_over};

use super::{Report, candidate_for, judged_as, other_message, quote_wrong};
use header::outer::Outer;
use header::{IPV6, outer};
use refusals::Refusal;
use settings::Settings;

// The source and the neighbour that it quotes, and the size that it asks for.
#[derive(Clone, Copy, Debug, PartialEq, Eq)]
pub struct Quote {
    pub source: u32,
    pub neighbour: u32,
    pub candidate: Option<u16>,
}

// The service that has the quoted source among its locator addresses. `node::ServiceName` stands above this crate.
#[derive(Clone, Copy, Debug, PartialEq, Eq)]
pub enum Origin {
    First,
    Second,
}

// What a report asks for, and the size of the link of the service that it belongs to.
#[derive(Clone, Copy, Debug, PartialEq, Eq)]
pub struct LinkReport {
    pub report: Report,
    pub link: u16,
}

// Number 17, whatever the settings.
fn never_ours(quoted: Outer) -> bool
    ensures { result ≡ is_never_ours quoted }
{
    if quoted.protocol != IPV6 {
        return true;
    }
    address::forbidden(quoted.destination)
}

// What its bytes do not refuse.
pub fn read(message: &[u8]) -> Result<Quote, Refusal>
    ensures { result ≡ reading_of message.now }
{
    if other_message(message) {
        return Err(Refusal::ReportMalformed);
    }
    let quoted = outer::outer_header(outer::quote(message));
    if quote_wrong(message, quoted) {
        return Err(Refusal::ReportMalformed);
    }
    if never_ours(quoted) {
        return Err(Refusal::QuoteNotOurs);
    }
    Ok(Quote {
        source: quoted.source,
        neighbour: quoted.destination,
        candidate: candidate_for(message),
    })
}

#[tactic(auto, unfolding(crate::specs::Reading::origin_of))]
fn origin_of(first: Settings, second: Settings, two: bool, source: u32) -> Option<Origin>
    ensures { result ≡ origin_of first second two source }
{
    if first.ours(source) {
        return Some(Origin::First);
    }
    if !two {
        return None;
    }
    second.ours(source).then_some(Origin::Second)
}

// The rest of number 17, which is that the neighbour is our own, and number 18.
#[tactic(auto, unfolding(crate::specs::Reading::over_link))]
fn over_link(
    own: bool,
    link: u16,
    neighbour: u32,
    candidate: Option<u16>,
) -> Result<LinkReport, Refusal>
    ensures { result ≡ over_link own link neighbour candidate }
{
    if own {
        return Err(Refusal::QuoteNotOurs);
    }
    let report = judged_as(neighbour, candidate)?;
    Ok(LinkReport { report, link })
}

fn quote_over(
    first: Settings,
    second: Settings,
    origin: Origin,
    neighbour: u32,
    candidate: Option<u16>,
) -> Result<LinkReport, Refusal>
    ensures { result ≡ quote_over first second origin neighbour candidate }
{
    match origin {
        Origin::First => over_link(first.ours(neighbour), first.link_size, neighbour, candidate),
        Origin::Second => over_link(
            second.ours(neighbour),
            second.link_size,
            neighbour,
            candidate,
        ),
    }
}

// By the settings of the service that it belongs to; of the second ones only where there are two services. A flag and no Option of settings:
// it would be made of a copy of them, and they are read only where there are two.
#[tactic(auto, unfolding(crate::specs::Reading::judged_over))]
pub fn judge(
    first: Settings,
    second: Settings,
    two: bool,
    reading: Result<Quote, Refusal>,
) -> Result<LinkReport, Refusal>
    ensures { result ≡ judged_over first second two reading }
{
    let quote = reading?;
    let origin = origin_of(first, second, two, quote.source).ok_or(Refusal::QuoteNotOurs)?;
    quote_over(first, second, origin, quote.neighbour, quote.candidate)
}
