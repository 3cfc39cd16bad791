// Two recordings compared, datagram by datagram: the report of every longest run of differing bytes. `masked` and the recordings are no struct:
// `compare` takes the three, which may not change, and hands them to two functions.
#![tactic(auto)]

mod blocks;
mod ends;
mod pair;
mod search;

ghost use Rattle.std.specs.Prelude.{◌≡◌, ◌+◌, ◌*◌, ◌≤◌, min, length};
ghost use Rattle.lent.specs.Written.{written};
ghost use Rattle.comparing.specs.Runs.{runs_of};
ghost use Rattle.comparing.specs.Compared.{more_of, report_of, compared_of, output_of};

use input::recording;
use pair::Pair;
use refusals::Refusal;
use std::cmp::Ordering;

// Which of two recordings has more datagrams, numbered as C is told.
#[derive(Clone, Copy)]
pub enum More {
    Neither = 0,
    First = 1,
    Second = 2,
}

// What is answered where the report is written: its length in bytes, and which recording has more datagrams.
#[derive(Clone, Copy)]
pub struct Report {
    pub length: usize,
    pub more: More,
}

// Which of two recordings has more datagrams, by their counts.
fn more_in(first: &[u8], second: &[u8]) -> More
    ensures { result ≡ more_of first.now second.now }
{
    let n = recording::count(first);
    let m = recording::count(second);
    match n.cmp(&m) {
        Ordering::Greater => More::First,
        Ordering::Less => More::Second,
        Ordering::Equal => More::Neither,
    }
}

// How many runs there are; from `limit` on they are not counted.
fn count(masked: bool, first: &[u8], second: &[u8], limit: usize) -> usize
    ensures { result ≡ min (length (runs_of masked first.now second.now)) limit }
{
    let pairs = recording::count(first).min(recording::count(second));
    let mut a = recording::first(first);
    let mut b = recording::first(second);
    let mut n: usize = 0;
    // The proofs name the turn, `_i`.
    for _i in 0..pairs {
        let pair = Pair {
            masked,
            a: recording::datagram(a),
            b: recording::datagram(b),
        };
        n = pair.count(n, limit);
        a = recording::next(a);
        b = recording::next(b);
    }
    n
}

// Writes the report, which has this length, to the front of out. Once it is written, nothing more is compared.
fn write(masked: bool, first: &[u8], second: &[u8], out: &mut [u8], size: usize)
    requires { (size ≡ 6 * length (runs_of masked first.now second.now)) × (size ≤ length out.old) }
    ensures { out.new ≡ written (report_of masked first.now second.now) out.old }
{
    let mut a = recording::first(first);
    let mut b = recording::first(second);
    // As many turns as the report has room for, and not as there are datagrams.
    let mut at: usize = 0;
    let mut number: usize = 1;
    while at < size {
        let pair = Pair {
            masked,
            a: recording::datagram(a),
            b: recording::datagram(b),
        };
        at = pair.write(number, out, at);
        a = recording::next(a);
        b = recording::next(b);
        number += 1;
    }
}

// Writes the report to the front of out. Where `masked`, identification, TTL and checksum count as equal, where both datagrams have the byte.
pub fn compare(masked: bool, first: &[u8], second: &[u8], out: &mut [u8]) -> Result<Report, Refusal>
    ensures value { result ≡ compared_of masked first.now second.now (length out.old) }
    ensures out_after { out.new ≡ output_of masked first.now second.now out.old }
{
    if !(recording::well_formed(first) & recording::well_formed(second)) {
        return Err(Refusal::RecordingMalformed);
    }
    let limit = out.len() / pair::RUN + 1;
    let n = count(masked, first, second, limit);
    if n == limit {
        return Err(Refusal::OutputShort);
    }
    let size = n * pair::RUN;
    write(masked, first, second, out, size);
    Ok(Report {
        length: size,
        more: more_in(first, second),
    })
}
