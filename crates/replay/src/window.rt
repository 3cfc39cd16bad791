// The part of the input that is held at a time. It moves forward as the input is read, and is read anew where it does not reach far enough.
ghost use Rattle.std.specs.Prelude.{◌≤◌};

use crate::calls;
use crate::spool::Spool;
use crate::stop::Stop;
use header::fields;
use input::section;

// The longest call, and so much more that it is not read again for each short one.
const LENGTH: usize = calls::LONGEST + 8192;

#[derive(Drop)]
pub(crate) struct Window {
    spool: Spool,
    bytes: [u8; LENGTH],
    // The index of the first byte that is held, and how many are.
    from: usize,
    count: usize,
}

impl Window {
    // Nothing is held yet.
    pub(crate) fn new(spool: Spool) -> Self {
        Window {
            spool,
            bytes: [0; LENGTH],
            from: 0,
            count: 0,
        }
    }

    // How many bytes the input has.
    pub(crate) fn end(&self) -> usize {
        self.spool.size
    }

    // Holds so many bytes from an index on, or as many as there is room for or as there are.
    pub(crate) fn reach(&mut self, at: usize, n: usize) -> Result<(), Stop> {
        let ahead = self.count.saturating_sub(self.place(at));
        if (n <= ahead) | (self.end().saturating_sub(at) <= ahead) {
            return Ok(());
        }
        self.count = self.spool.read(at, &mut self.bytes)?;
        self.from = at;
        Ok(())
    }

    // Holds all of the bytes behind their two-byte length, which stands at an index.
    pub(crate) fn reach_all(&mut self, at: usize) -> Result<(), Stop> {
        self.reach(at, 2)?;
        let length = self.word(at);
        self.reach(at, 2 + length)
    }

    // Where an index stands in the window; behind all that is held where that is past it.
    fn place(&self, at: usize) -> usize {
        at.checked_sub(self.from).unwrap_or(self.count)
    }

    // What is held from an index on.
    pub(crate) fn bytes(&self, at: usize) -> &[u8] {
        fields::tail(section::front(&self.bytes, self.count), self.place(at))
    }

    // The two bytes at an index.
    pub(crate) fn word(&self, at: usize) -> usize
        ensures { result ≤ 65535 }
    {
        fields::word(self.bytes(at), 0) as usize
    }
}
