// The search for the next byte of two datagrams that differs, and for the next that does not.
ghost use Rattle.std.specs.Prelude.{◌≡◌, ◌≤◌, ◌<◌, min, max, true, cond, not, ◌&&◌, length};
ghost use Rattle.comparing.specs.Runs.{is_masked_byte, is_unequal_at, differs_at};
ghost use Rattle.comparing.specs.Search.{IsNext};

use crate::blocks;
use crate::blocks::Front;
use crate::pair::Pair;

// From here on no byte is masked.
pub(crate) const BEHIND_MASK: usize = 12;

// Whether a byte belongs to the identification (4, 5), the TTL (8) or the checksum (10, 11).
pub(crate) fn masked_byte(p: usize) -> bool
    ensures { result ≡ is_masked_byte p }
{
    (p == 4) | (p == 5) | (p == 8) | (p == 10) | (p == 11)
}

impl<'a> Front<'a> {
    // The next place from `start` on where the bytes are unequal and not masked, if so is wanted, or else are not. Over places, since the place is
    // what is asked, of both slices and of the mask; `next_by_bytes` says why it stands beside it.
    pub(crate) fn next_masked(self, wanted: bool, start: usize) -> usize
        requires { start ≤ self.end }
        ensures { IsNext (λ q. not (is_masked_byte q) && is_unequal_at self.entry.a.now self.entry.b.now q) wanted start self.entry.end result }
    {
        let Front { a, b, end } = self;
        for p in start..end {
            if (!masked_byte(p) & (a[p] != b[p])) == wanted {
                return p;
            }
        }
        end
    }

    // The next place where the bytes differ, if so is wanted, or else do not, from one in the header's masked part on.
    fn next_in_header(self, wanted: bool, start: usize) -> usize
        requires { (start ≤ self.end) × (start < 12) × (self.end ≡ min (length self.a.now) (length self.b.now)) }
        ensures { IsNext (differs_at true self.entry.a.now self.entry.b.now) wanted start self.entry.end result }
    {
        let Front { a, b, end } = self;
        let front = BEHIND_MASK.min(end);
        let p = Front { a, b, end: front }.next_masked(wanted, start);
        if p < front {
            return p;
        }
        blocks::next_unequal(wanted, a, b, p, end)
    }

    // The next place from `start` on where the bytes differ, if so is wanted, or else do not.
    fn next_shared(self, wanted: bool, masked: bool, start: usize) -> usize
        requires { (start ≤ self.end) × (self.end ≡ min (length self.a.now) (length self.b.now)) }
        ensures { IsNext (differs_at masked self.entry.a.now self.entry.b.now) wanted start self.entry.end result }
    {
        if masked & (start < BEHIND_MASK) {
            return self.next_in_header(wanted, start);
        }
        let Front { a, b, end } = self;
        blocks::next_unequal(wanted, a, b, start, end)
    }
}

impl<'a> Pair<'a> {
    // Of the places behind the shorter datagram's end, where all bytes differ, the next that is wanted.
    fn next_alone(self, wanted: bool, start: usize) -> usize
        ensures { result ≡ cond wanted start (max (length self.entry.a.now) (length self.entry.b.now)) }
    {
        if wanted {
            return start;
        }
        self.a.len().max(self.b.len())
    }

    // The next place where the bytes differ, if so is wanted, or else do not; the longer datagram's end, where there is none.
    pub(crate) fn next(self, wanted: bool, start: usize) -> usize
        requires { start ≤ max (length self.a.now) (length self.b.now) }
        ensures { IsNext (differs_at self.entry.masked self.entry.a.now self.entry.b.now) wanted start (max (length self.entry.a.now) (length self.entry.b.now)) result }
    {
        let Pair { masked, a, b } = self;
        let end = a.len().min(b.len());
        if start < end {
            let p = Front { a, b, end }.next_shared(wanted, masked, start);
            if p < end {
                return p;
            }
            return self.next_alone(wanted, p);
        }
        self.next_alone(wanted, start)
    }
}
