// Reading where a failed read is told apart from the end of the input, and lines that wait to be written.
#![tactic(auto)]

pub mod waiting;

ghost use Rattle.std.specs.Prelude.{IfOk, IfErr};
ghost use Rattle.streams.specs.Counts.{IsPrefixLen};

use std::io::Read;

// A read failed behind so many bytes.
#[derive(Clone, Copy, Debug, PartialEq, Eq)]
pub struct ReadFailed {
    pub count: usize,
}

// Reads until the buffer is full or the input ends, and counts the bytes. A loop, since `read_to_end` takes memory, and `read_exact` does not
// count.
pub fn read_all<R: Read>(from: &mut R, buf: &mut [u8]) -> Result<usize, ReadFailed>
    ensures ok { IfOk result (λ n. IsPrefixLen n buf.new) }
    ensures err { IfErr result (λ e. IsPrefixLen e.count buf.new) }
{
    let mut count: usize = 0;
    while count < buf.len() {
        match from.read(&mut buf[count..]) {
            Ok(0) => break,
            Ok(n) => count += n,
            Err(_) => return Err(ReadFailed { count }),
        }
    }
    Ok(count)
}
