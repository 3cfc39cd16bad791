// Cases of the rules without state.
use crate::{answers, writers};
use address::prefixes;
use header::{fields, inner, outer};
use hearing::solicitation;
use input::section;
use refusals::Numbered;
use std::io;

pub(crate) fn answer(rt: &impl Print, kind: u8, c: &[u8]) -> io::Result<()> {
    let n = fields::word(c, 1);
    let m = fields::word(c, 3);
    let x = fields::quad(c, 5);
    let d = fields::tail(c, 13);
    match kind {
        0..=19 => answers::truth(rt, test(kind, n, x, d)),
        20..=39 => answers::number(rt, fields::byte(c, 0), number(kind, n, m, x, d)),
        _ => writers::answer(rt, kind, c),
    }
}

fn test(kind: u8, n: u16, x: u32, d: &[u8]) -> bool {
    match kind {
        1 => checksum::right(d),
        2 => address::forbidden(x),
        3 => address::bad_source(fields::address(d, 0)),
        4 => inner::packet_malformed(d.len(), inner::inner_header(d)),
        5 => inner::may_draw_error(d),
        6 => routers::distinct(section::routers(d), n as usize),
        7 => options::options_whole(d),
        8 => inner::inner_malformed(d.len(), inner::inner_header(d)),
        10 => solicitation::solicitation(d),
        _ => paths::packets::dont_fragment(n),
    }
}

fn number(kind: u8, n: u16, m: u16, x: u32, d: &[u8]) -> Option<u64> {
    match kind {
        20 => Some(checksum::sum_from(x, d) as u64),
        21 => Some(checksum::complement(n) as u64),
        22 => Some(outer::read_outer(d).number() as u64),
        23 => Some(outer::outer_header(d).header as u64),
        24 => Some(outer::outer_header(d).total as u64),
        25 => Some(outer::outer_header(d).source as u64),
        26 => Some(outer::outer_header(d).destination as u64),
        27 => Some(paths::packets::largest_packet(n) as u64),
        28 => embedded(n, d).map(u64::from),
        29 => paths::reported::candidate(n, m).map(u64::from),
        30 => options::options_read(n, d).smallest.map(u64::from),
        _ => Some(options::due_after(x, m, options::options_read(n, d).smallest)),
    }
}

fn embedded(n: u16, d: &[u8]) -> Option<u32> {
    let prefixes = prefixes::rows(section::prefixes(fields::tail(d, 16)));
    address::isatap(prefixes, n as usize, fields::address(d, 0))
}
