// Size reports: judged by the settings and their bytes alone, and then by the size in force.
#![tactic(auto)]

pub mod reading;

ghost use Rattle.std.specs.Prelude.{◌≡◌};
ghost use Rattle.reports.specs.Reading.{is_other_message, is_quote_wrong};
ghost use Rattle.reports.specs.Report.{is_report_malformed, is_quote_foreign, report_check, judged_as, candidate_for, judged_of, answer_at};

use header::outer::Outer;
use header::{IPV6, OUTER_HEADER, fields, outer};
use paths::reported;
use refusals::Refusal;
use settings::Settings;

// What a report asks for, and what is accepted of it: a size toward a neighbour.
#[derive(Clone, Copy, Debug, PartialEq, Eq)]
pub struct Report {
    pub neighbour: u32,
    pub size: u16,
}

// ICMPv4: destination unreachable, fragmentation needed and don't-fragment set.
const UNREACHABLE: u8 = 3;

const FRAGMENTATION_NEEDED: u8 = 4;

// A message of 8 bytes and the least IPv4 header.
const LEAST_MESSAGE: usize = 8 + OUTER_HEADER;

// Of number 16 what costs least to see: too few bytes, or another message.
fn other_message(message: &[u8]) -> bool
    ensures { result ≡ is_other_message message.now }
{
    if message.len() < LEAST_MESSAGE {
        return true;
    }
    let kind = fields::byte(message, 0);
    let code = fields::byte(message, 1);
    (kind != UNREACHABLE) | (code != FRAGMENTATION_NEEDED)
}

// The rest of number 16: the quoted header, and then the checksum, which is over the whole message. Message and quoted header go side by side,
// here and below: the header is read of it once, and the definitions take both.
fn quote_wrong(message: &[u8], quoted: Outer) -> bool
    ensures { result ≡ is_quote_wrong message.now quoted }
{
    let quote = outer::quote(message);
    if outer::quote_malformed(quote.len(), quoted) {
        return true;
    }
    !checksum::right(message)
}

// Number 16.
fn report_malformed(message: &[u8], quoted: Outer) -> bool
    ensures { result ≡ is_report_malformed message.now quoted }
{
    if other_message(message) {
        return true;
    }
    quote_wrong(message, quoted)
}

// Number 17.
fn quote_foreign(settings: Settings, quoted: Outer) -> bool
    ensures { result ≡ is_quote_foreign settings quoted }
{
    (quoted.protocol != IPV6) | !settings.ours(quoted.source) | settings.bad_end(quoted.destination)
}

// Numbers 16 and 17.
fn report_check(settings: Settings, message: &[u8], quoted: Outer) -> Result<(), Refusal>
    ensures { result ≡ report_check settings message.now quoted }
{
    if report_malformed(message, quoted) {
        return Err(Refusal::ReportMalformed);
    }
    if quote_foreign(settings, quoted) {
        return Err(Refusal::QuoteNotOurs);
    }
    Ok(())
}

// The size that a message asks for.
fn candidate_for(message: &[u8]) -> Option<u16>
    ensures { result ≡ candidate_for message.now }
{
    let size = fields::word(message, 6);
    let total = fields::word(outer::quote(message), 2);
    reported::candidate(size, total)
}

// Number 18.
fn judged_as(neighbour: u32, candidate: Option<u16>) -> Result<Report, Refusal>
    ensures { result ≡ judged_as neighbour candidate }
{
    let size = candidate.ok_or(Refusal::SizeUnusable)?;
    Ok(Report { neighbour, size })
}

// Numbers 16, 17 and 18 of an ICMPv4 message; else the neighbour and its candidate.
#[tactic(auto, unfolding(crate::specs::Report::judged_of))]
pub fn judge(settings: Settings, message: &[u8]) -> Result<Report, Refusal>
    ensures { result ≡ judged_of settings message.now }
{
    let quoted = outer::outer_header(outer::quote(message));
    report_check(settings, message, quoted)?;
    judged_as(quoted.destination, candidate_for(message))
}

// Number 19, at the size in force toward the report's neighbour.
#[tactic(auto, unfolding(crate::specs::Report::accepted_below))]
pub fn answer(judged: Result<Report, Refusal>, in_force: u16) -> Result<Report, Refusal>
    ensures { result ≡ answer_at judged in_force }
{
    let report = judged?;
    if !reported::is_below(report.size, in_force) {
        return Err(Refusal::SizeNotBelow);
    }
    Ok(report)
}
