// Cases of the bytes that the library hands over or writes.
ghost use Rattle.std.specs.Prelude.{◌≡◌, length};

use crate::{answers, operator};
use header::wrap::OuterFields;
use header::{fields, inner, outer, wrap};
use input::section;
use refusals::{Numbered, Refusal};
use std::io;

pub(crate) fn answer(rt: &impl Print, kind: u8, c: &[u8]) -> io::Result<()> {
    match kind {
        40 => answers::bytes(rt, &address::link_local(fields::quad(c, 5))),
        41 => answers::bytes(rt, received(fields::tail(c, 13))),
        _ => written(rt, kind, c),
    }
}

fn received(d: &[u8]) -> &[u8] {
    let o = outer::outer_header(d);
    inner::inner_packet(outer::payload(d, o))
}

// What an output holds before.
fn blank() -> [u8; 65536]
    ensures { 65536 ≡ length result }
{
    [0xa5; 65536]
}

// A writer lent an output of n bytes.
fn written(rt: &impl Print, kind: u8, c: &[u8]) -> io::Result<()> {
    let mut space = blank();
    let room = fields::word(c, 1) as usize;
    written_into(rt, kind, c, &mut space[..room])
}

// The number given, the length written, and of the output y bytes from the index x on.
fn written_into(rt: &impl Print, kind: u8, c: &[u8], out: &mut [u8]) -> io::Result<()> {
    let answer = write(kind, c, out);
    answers::number(rt, 0, Some(answer.number() as u64))?;
    answers::number(rt, 0, answer.ok().map(|n| n as u64))?;
    let from = fields::tail(out, fields::quad(c, 5) as usize);
    answers::bytes(rt, section::front(from, fields::quad(c, 9) as usize))
}

fn write(kind: u8, c: &[u8], out: &mut [u8]) -> Result<usize, Refusal> {
    let m = fields::word(c, 3);
    let d = fields::tail(c, 13);
    match kind {
        42 => wrap::wrap(outer_fields(d), fields::tail(d, 13), out),
        43 => wrap_zeros(m, d, out),
        44 => messages::too_big(fields::address(d, 0), m, fields::tail(d, 16), out),
        45 => messages::solicitation(fields::address(d, 0), fields::address(d, 16), out),
        _ => advertisement(d, out),
    }
}

fn advertisement(d: &[u8], out: &mut [u8]) -> Result<usize, Refusal> {
    let set = operator::advertisement(fields::tail(d, 32));
    advertisements::write(fields::address(d, 0), fields::address(d, 16), set, out)
}

// A packet of m zeros wrapped.
fn wrap_zeros(m: u16, d: &[u8], out: &mut [u8]) -> Result<usize, Refusal> {
    let zeros = [0u8; 65536];
    wrap::wrap(outer_fields(d), section::front(&zeros, m as usize), out)
}

// The fields of an outer header that the caller chooses.
fn outer_fields(d: &[u8]) -> OuterFields {
    OuterFields {
        identification: fields::word(d, 0),
        dont_fragment: 0 < fields::byte(d, 2),
        ttl: fields::byte(d, 3),
        protocol: fields::byte(d, 4),
        source: fields::quad(d, 5),
        destination: fields::quad(d, 9),
    }
}
