// Lines that wait to be written to standard output, many in one write.
ghost use Rattle.std.specs.Prelude.{◌≡◌, List, ℕ, [], ◌+◌, ◌≤◌, length, take};
ghost use Rattle.text.specs.Text.{decimal};
ghost use Rattle.text.specs.Digest.{hexadecimal};
ghost use Rattle.streams.specs.Waiting.{room, longest, with_word};

use std::io;
use std::marker::Model;

// The bytes that may wait.
const ROOM: usize = 16384;

// No line is longer, its line feed too.
const LONGEST: usize = 64;

#[derive(Drop)]
pub struct Lines {
    text: [u8; ROOM],
    end: usize,
}

impl Model for Lines {
    ghost Value = { List ℕ };

    ghost view = { λ l. take l.end l.text };

    ghost invariant = { λ l. l.end ≤ room };
}

impl Lines {
    pub fn new() -> Self
        ensures { result ≡ [] }
    {
        Lines {
            text: [0; ROOM],
            end: 0,
        }
    }

    // Puts a word behind the lines that wait.
    pub fn put(&mut self, word: &[u8])
        ensures { self.new ≡ with_word word.now self.old }
    {
        self.end = text::put(word, &mut self.text, self.end);
    }

    // Puts a number in decimal.
    pub fn put_decimal(&mut self, n: u64)
        ensures { self.new ≡ with_word (decimal n) self.old }
    {
        self.end = text::put_decimal(n, &mut self.text, self.end);
    }

    // Puts a number in eight hexadecimal digits.
    pub fn put_hexadecimal(&mut self, n: u32)
        ensures { self.new ≡ with_word (hexadecimal n) self.old }
    {
        self.end = text::put_hexadecimal(n, &mut self.text, self.end);
    }

    // Makes room for one more line: where there may be none, the lines that wait are written.
    pub fn make_room(&mut self, rt: &impl Print) -> io::Result<()>
        ensures room { length self.new + longest ≤ room }
        ensures fewer { length self.new ≤ length self.old }
    {
        if self.end <= ROOM - LONGEST {
            return Ok(());
        }
        self.write(rt)
    }

    // Writes the lines that wait. None waits then, also where it fails.
    pub fn write(&mut self, rt: &impl Print) -> io::Result<()>
        ensures { self.new ≡ [] }
    {
        let end = self.end;
        self.end = 0;
        rt.write_all(&self.text[..end])
    }
}
