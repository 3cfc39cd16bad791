// The settings of the input, and where its calls start.
use crate::spool::{LIMIT, Spool};
use crate::stop::Stop;
use header::fields;
use input::section;
use settings::Settings;

// A section's count and its longest list that is accepted: sixteen routers, or eight prefixes.
const HEAD: usize = 66;

// The size of the records where there is only a head to read.
const NO_RECORDS: u8 = 0;

// The first bytes of a section, and the index behind the whole of it.
#[derive(Clone, Copy)]
struct Section {
    bytes: [u8; HEAD],
    behind: usize,
}

// The settings of one service, and the index behind them.
#[derive(Clone, Copy)]
struct Part {
    settings: Settings,
    // Whether the reporting flag is 0 or 1.
    known: bool,
    behind: usize,
}

#[derive(Clone, Copy)]
pub(crate) struct Start {
    pub(crate) first: Settings,
    pub(crate) second: Option<Settings>,
    // Whether the number of services and each reporting flag are ones that there are. No Err: all reads come first, since one that fails is told
    // rather than bad input.
    pub(crate) known: bool,
    // The index of the first call, past the end of an input that is cut off before it.
    pub(crate) calls: usize,
}

pub(crate) fn read(spool: &Spool) -> Result<Start, Stop> {
    let head = section_at(spool, 0, NO_RECORDS)?;
    let services = fields::byte(&head.bytes, 0);
    let first = part_at(spool, 1)?;
    if services != 2 {
        return Ok(Start {
            first: first.settings,
            second: None,
            known: (services == 1) & first.known,
            calls: first.behind,
        });
    }
    let second = part_at(spool, first.behind)?;
    Ok(Start {
        first: first.settings,
        second: Some(second.settings),
        known: first.known & second.known,
        calls: second.behind,
    })
}

// The settings at an index.
fn part_at(spool: &Spool, at: usize) -> Result<Part, Stop> {
    let locators = section_at(spool, at, section::LOCATOR)?;
    let prefixes = section_at(spool, locators.behind, section::PREFIX)?;
    let routers = section_at(spool, prefixes.behind, section::ROUTER)?;
    let numbers = section_at(spool, routers.behind, NO_RECORDS)?;
    let mut settings = sections(locators, prefixes, routers);
    settings.link_size = fields::word(&numbers.bytes, 0);
    settings.ttl = fields::byte(&numbers.bytes, 2);
    settings.interval = fields::word(&numbers.bytes, 3);
    settings.identification = fields::word(&numbers.bytes, 5);
    let flag = fields::byte(&numbers.bytes, 7);
    if flag == 1 {
        settings.reporting = fields::address(&numbers.bytes, 8);
    }
    Ok(Part {
        settings,
        known: flag <= 1,
        behind: routers.behind.min(LIMIT + 1) + 8 + 16 * flag as usize,
    })
}

// The section at an index, whose records have so many bytes.
fn section_at(spool: &Spool, at: usize, record: u8) -> Result<Section, Stop> {
    let mut bytes = [0; HEAD];
    spool.read(at, &mut bytes)?;
    let records = fields::word(&bytes, 0) as usize * record as usize;
    Ok(Section {
        bytes,
        behind: at.min(LIMIT + 1) + 2 + records,
    })
}

fn sections(locators: Section, prefixes: Section, routers: Section) -> Settings {
    Settings::new(
        section::locators(&locators.bytes),
        section::count(&locators.bytes),
        section::prefixes(&prefixes.bytes),
        section::count(&prefixes.bytes),
        section::routers(&routers.bytes),
        section::count(&routers.bytes),
    )
}
