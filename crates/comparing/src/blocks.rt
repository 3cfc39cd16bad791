// The search for the next unequal byte of two datagrams, or for the next equal one, quickly: blocks without one are passed at once.
// No Option where there is none: the end is where a run that is not left ends, and each caller goes on from it. The loops over places compare two
// slices at one place, and in `next_by_bytes` the place is what is asked: zip was not tried, and with `enumerate` it would be no plainer.
ghost use Rattle.std.specs.Prelude.{◌≡◌, true, ◌≤◌, length};
ghost use Rattle.comparing.specs.Runs.{is_unequal_at};
ghost use Rattle.comparing.specs.Search.{NoneIn, IsNext};

// The bytes of a block: the compiler compares all of them side by side.
pub(crate) const BLOCK: usize = 64;
// The places that are looked at before blocks are.
const NEAR: usize = 4;

// The front of two datagrams: the places before `end`, which both have.
#[derive(Clone, Copy)]
pub(crate) struct Front<'a> {
    pub a: &'a [u8],
    pub b: &'a [u8],
    pub end: usize,
    ghost inside: { (end ≤ length a.now) × (end ≤ length b.now) },
}

// Whether no place of two blocks of one length is wanted.
fn none_wanted(wanted: bool, a: &[u8], b: &[u8]) -> bool
    requires { length a.now ≡ length b.now }
    ensures { result ≡ true → NoneIn (is_unequal_at a.now b.now) wanted 0 (length a.now) }
{
    let mut none = true;
    for i in 0..a.len() {
        none = none & ((a[i] != b[i]) != wanted);
    }
    none
}

impl<'a> Front<'a> {
    // The place behind the block of this size from `start` on, if it fits and has no wanted place.
    pub(crate) fn behind_block(self, wanted: bool, start: usize, size: usize) -> usize
        requires { start ≤ self.end }
        ensures { (start ≤ result) × (result ≤ self.entry.end) × NoneIn (is_unequal_at self.entry.a.now self.entry.b.now) wanted start result }
    {
        let Front { a, b, end } = self;
        if end - start < size {
            return start;
        }
        let behind = start + size;
        if none_wanted(wanted, &a[start..behind], &b[start..behind]) {
            return behind;
        }
        start
    }

    // The place behind the blocks from `start` on that have no wanted place. It is left by a branch, which a processor guesses, so that the next
    // block is begun before this one is known; added to, as in `behind_block`, the place of each would wait for the one before. A `while`: what is
    // asked is the place behind the last block that is passed, which `step_by` does not give.
    pub(crate) fn behind_blocks(self, wanted: bool, start: usize) -> usize
        requires { start ≤ self.end }
        ensures { (start ≤ result) × (result ≤ self.entry.end) × NoneIn (is_unequal_at self.entry.a.now self.entry.b.now) wanted start result }
    {
        let Front { a, b, end } = self;
        let mut p = start;
        while BLOCK <= end - p {
            let behind = p + BLOCK;
            if !none_wanted(wanted, &a[p..behind], &b[p..behind]) {
                return p;
            }
            p = behind;
        }
        p
    }

    // The next place from `start` on where the bytes are unequal, if so is wanted, or else are not, one after another. `next_masked` differs in one
    // test of the place: one function for both would take that as a closure with a clause of its own, longer than the two.
    fn next_by_bytes(self, wanted: bool, start: usize) -> usize
        requires { start ≤ self.end }
        ensures { IsNext (is_unequal_at self.entry.a.now self.entry.b.now) wanted start self.entry.end result }
    {
        let Front { a, b, end } = self;
        for p in start..end {
            if (a[p] != b[p]) == wanted {
                return p;
            }
        }
        end
    }
}

// The same, quickly: blocks without a wanted place are passed at once. Short runs are common, so the first places are looked at by themselves.
// It takes the parts of a front: a struct of five words goes through memory, and where every other byte differs that takes a sixth more.
pub(crate) fn next_unequal(wanted: bool, a: &[u8], b: &[u8], start: usize, end: usize) -> usize
    requires { (start ≤ end) × (end ≤ length a.now) × (end ≤ length b.now) }
    ensures { IsNext (is_unequal_at a.now b.now) wanted start end result }
{
    let near = start + NEAR.min(end - start);
    let first = Front { a, b, end: near }.next_by_bytes(wanted, start);
    if first < near {
        return first;
    }
    let front = Front { a, b, end };
    let p = front.behind_blocks(wanted, first);
    let q = front.behind_block(wanted, p, BLOCK / 2);
    let r = front.behind_block(wanted, q, BLOCK / 4);
    let s = front.behind_block(wanted, r, BLOCK / 8);
    front.next_by_bytes(wanted, s)
}
