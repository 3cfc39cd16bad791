// The runs of differing bytes of two datagrams: counted, and written.
ghost use Rattle.std.specs.Prelude.{◌≡◌, ◌+◌, ◌*◌, ◌≤◌, ◌<◌, min, length};
ghost use Rattle.lent.specs.Written.{written_at};
ghost use Rattle.comparing.specs.Runs.{runs, numbered, run_bytes, runs_bytes};

// Two datagrams beside each other. Where `masked`, identification, TTL and checksum count as equal, where both have the byte.
#[derive(Clone, Copy)]
pub(crate) struct Pair<'a> {
    pub masked: bool,
    pub a: &'a [u8],
    pub b: &'a [u8],
}

// The bytes of a run in the report: datagram, offset and length.
pub(crate) const RUN: usize = 6;

// Writes a run to the six bytes from `at` on: datagram, offset and length, two bytes each. Made by `to_be_bytes` and copied, a run takes seven
// instructions more, where every other byte differs 7 in 100.
fn write_run(number: usize, offset: usize, size: usize, out: &mut [u8], at: usize)
    requires { at + 6 ≤ length out.old }
    ensures { out.new ≡ written_at at (run_bytes (number, record { offset = offset; length = size })) out.old }
{
    out[at] = (number % 65536 / 256) as u8;
    out[at + 1] = (number % 65536 % 256) as u8;
    out[at + 2] = (offset % 65536 / 256) as u8;
    out[at + 3] = (offset % 65536 % 256) as u8;
    out[at + 4] = (size % 65536 / 256) as u8;
    out[at + 5] = (size % 65536 % 256) as u8;
}

impl<'a> Pair<'a> {
    // The runs, counted on from n, but no further than to `limit`.
    pub(crate) fn count(self, n: usize, limit: usize) -> usize
        requires { n ≤ limit }
        ensures { result ≡ min (n + length (runs self.entry.masked self.entry.a.now self.entry.b.now)) limit }
    {
        if limit <= n {
            return n;
        }
        n + self.runs().min(limit - n)
    }

    // Writes the runs, of datagrams of this number, from `start` on, and gives where they end. A `while`: the next place comes from a search, nothing
    // is counted.
    pub(crate) fn write(self, number: usize, out: &mut [u8], start: usize) -> usize
        requires b_in_bounds { start + 6 * length (runs self.masked self.a.now self.b.now) ≤ length out.old }
        requires b_bound { start + 6 * length (runs self.masked self.a.now self.b.now) < 18446744073709551616 }
        ensures value { result ≡ start + 6 * length (runs self.entry.masked self.entry.a.now self.entry.b.now) }
        ensures out_after { out.new ≡ written_at start (runs_bytes (numbered number (runs self.entry.masked self.entry.a.now self.entry.b.now))) out.old }
    {
        let Pair { masked: _, a, b } = self;
        let end = a.len().max(b.len());
        let mut at = start;
        let mut p = self.next(true, 0);
        while p < end {
            let behind = self.next(false, p);
            write_run(number, p, behind - p, out, at);
            p = self.next(true, behind);
            at += RUN;
        }
        at
    }
}
