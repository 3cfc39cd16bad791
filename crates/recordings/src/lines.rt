// The lines of the output.
use comparing::{More, Report};
use header::fields;
use input::section;
use refusals::Refusal;
use std::io;
use streams::waiting::Lines;
use text::digests;

// The bytes of a run in a report.
const RUN: usize = 6;

// Writes the lines of an answer, which left the output so.
pub(crate) fn write(
    rt: &HostRuntime,
    answer: Result<Report, Refusal>,
    out: &[u8],
) -> io::Result<()> {
    let mut lines = Lines::new();
    match answer {
        Ok(report) => {
            put_number(b"compared ", report.length as u64, &mut lines);
            lines.put(more(report.more));
            put_digest(out, &mut lines);
            put_runs(rt, section::front(out, report.length), &mut lines)?;
        }
        Err(refusal) => {
            put_number(b"refuse ", refusal.number() as u64, &mut lines);
            put_digest(out, &mut lines);
        }
    }
    lines.write(rt)
}

// Puts a word and a number.
fn put_number(word: &[u8], n: u64, lines: &mut Lines) {
    lines.put(word);
    lines.put_decimal(n);
}

fn more(more: More) -> &'static [u8] {
    match more {
        More::First => b" first",
        More::Second => b" second",
        More::Neither => b" neither",
    }
}

// Puts the digest of the output, and ends the line.
fn put_digest(out: &[u8], lines: &mut Lines) {
    lines.put(b" ");
    lines.put_hexadecimal(digests::digest(out));
    lines.put(b"\n");
}

// Puts a line for each run of a report; those that wait are written where there is no room for one more.
fn put_runs(rt: &HostRuntime, report: &[u8], lines: &mut Lines) -> io::Result<()> {
    for run in report.chunks_exact(RUN) {
        lines.make_room(rt)?;
        put_number(b"", fields::word(run, 0) as u64, lines);
        put_number(b" ", fields::word(run, 2) as u64, lines);
        put_number(b" ", fields::word(run, 4) as u64, lines);
        lines.put(b"\n");
    }
    Ok(())
}
