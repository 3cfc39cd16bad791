// The runs of differing bytes of two datagrams, counted by their ends: the places that differ where the next does not.
// The loops over places ask two slices about a place and the next one: `windows` and zip were not tried, and would be no plainer.
ghost use Rattle.std.specs.Prelude.{◌≡◌, ◌-◌, ◌≤◌, ◌<◌, min, true, length};
ghost use Rattle.comparing.specs.Runs.{is_unequal_at, differs_at, runs};
ghost use Rattle.comparing.specs.Search.{ends};

use crate::blocks::{BLOCK, Front};
use crate::pair::Pair;
use crate::search;

// The ends in two blocks of one length, of all their places but the last. Counted in a byte, so that the compiler counts places side by side.
fn in_block(a: &[u8], b: &[u8]) -> usize
    requires { (length a.now ≡ length b.now) × (0 < length a.now) × (length a.now ≤ 256) }
    ensures { result ≡ ends (is_unequal_at a.now b.now) 0 (length a.now - 1) }
{
    let mut n: u8 = 0;
    for i in 0..a.len() - 1 {
        n += ((a[i] != b[i]) & !(a[i + 1] != b[i + 1])) as u8;
    }
    n as usize
}

// The ends from `start` up to `end`, where no place is masked and both datagrams have the next one too. What is left behind the blocks is short of
// one: the last block goes back over places that are counted, since most often it has no unequal one. A `while`: the next place comes from a search,
// nothing is counted.
fn unmasked(a: &[u8], b: &[u8], start: usize, end: usize) -> usize
    requires { (start ≤ end) × (end < length a.now) × (end < length b.now) }
    ensures { result ≡ ends (is_unequal_at a.now b.now) start end }
{
    let front = Front { a, b, end };
    let mut n: usize = 0;
    let mut p = front.behind_blocks(true, start);
    while BLOCK <= end - p {
        let behind = p + BLOCK;
        n += in_block(&a[p..behind + 1], &b[p..behind + 1]);
        p = front.behind_blocks(true, behind);
    }
    let last = front.behind_block(true, end - BLOCK.min(end), BLOCK);
    let r = p.max(last);
    n + in_block(&a[r..end + 1], &b[r..end + 1])
}

// The ends in the masked header, up to `end`. Where no place differs none is looked at again.
fn in_header(a: &[u8], b: &[u8], end: usize) -> usize
    requires { end ≤ min (length a.now) (length b.now) }
    ensures { result ≡ ends (differs_at true a.now b.now) 0 end }
{
    let p = Front { a, b, end }.next_masked(true, 0);
    let masked = true;
    Pair { masked, a, b }.by_bytes(p, end)
}

impl<'a> Pair<'a> {
    // Whether byte p differs.
    fn differs(self, p: usize) -> bool
        ensures { result ≡ differs_at self.entry.masked self.entry.a.now self.entry.b.now p }
    {
        let Pair { masked, a, b } = self;
        if p < a.len().min(b.len()) {
            return !(masked & search::masked_byte(p)) & (a[p] != b[p]);
        }
        p < a.len().max(b.len())
    }

    // The ends from `start` up to `end`, one place after another.
    fn by_bytes(self, start: usize, end: usize) -> usize
        requires { (start ≤ end) × (end ≤ length self.a.now) }
        ensures { result ≡ ends (differs_at self.entry.masked self.entry.a.now self.entry.b.now) start end }
    {
        let mut n: usize = 0;
        for p in start..end {
            n += (self.differs(p) & !self.differs(p + 1)) as usize;
        }
        n
    }

    // The ends before the last place that both datagrams have, which is `end`.
    fn before_last(self, end: usize) -> usize
        requires { end < min (length self.a.now) (length self.b.now) }
        ensures { result ≡ ends (differs_at self.entry.masked self.entry.a.now self.entry.b.now) 0 end }
    {
        let Pair { masked, a, b } = self;
        if masked {
            let front = search::BEHIND_MASK.min(end);
            return in_header(a, b, front) + unmasked(a, b, front, end);
        }
        unmasked(a, b, 0, end)
    }

    // How many runs there are. Behind the shorter datagram's end there is one end, the longer one's.
    pub(crate) fn runs(self) -> usize
        ensures { result ≡ length (runs self.entry.masked self.entry.a.now self.entry.b.now) }
    {
        let Pair { masked: _, a, b } = self;
        let alone = (a.len() != b.len()) as usize;
        let shared = a.len().min(b.len());
        if shared == 0 {
            return alone;
        }
        let last = shared - 1;
        self.before_last(last) + self.by_bytes(last, shared) + alone
    }
}
