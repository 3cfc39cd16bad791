// The lines of the program's output. Each function writes its line from the index at on and gives the index behind it; where it
// does not fit, nothing is written and at is given back: no Option, since `result ≡ behind at ..` of each says so, which may not change.
ghost use Rattle.std.specs.Prelude.{◌≡◌, ◌+◌, ◌≤◌, length};
ghost use Rattle.lent.specs.Written.{written_at};
ghost use Rattle.text.specs.Text.{behind};
ghost use Rattle.program.specs.Lines.{longest_line, entry_of, bad_input, count_line, line_of};

use refusals::Refusal;

// The longest line: two numbers of 20 digits, the longer word and a line feed.
const LONGEST_LINE: usize = 50;

// Writes a word, a number and a line feed, where there is room for the longest number.
fn put_entry(word: &[u8], n: u64, out: &mut [u8], at: usize) -> usize
    requires { at + (length word.now + 21) ≤ length out.old }
    ensures value { result ≡ behind at (entry_of word.now n) out.old }
    ensures out_after { out.new ≡ written_at at (entry_of word.now n) out.old }
{
    let number = text::put(word, out, at);
    let end = text::put_decimal(n, out, number);
    text::put(b"\n", out, end)
}

// Writes a line where there is room for the longest one.
fn write_line(k: usize, line: Result<usize, Refusal>, out: &mut [u8], at: usize) -> usize
    requires { at + longest_line ≤ length out.old }
    ensures value { result ≡ behind at (line_of k line) out.old }
    ensures out_after { out.new ≡ written_at at (line_of k line) out.old }
{
    let next = text::put_decimal(k as u64, out, at);
    match line {
        Ok(n) => put_entry(b" deliver ", n as u64, out, next),
        Err(refusal) => put_entry(b" refuse ", refusal.number() as u64, out, next),
    }
}

// Writes the first line: how many datagrams there are.
pub fn put_count(n: usize, out: &mut [u8], at: usize) -> usize
    ensures value { result ≡ behind at (count_line n) out.old }
    ensures out_after { out.new ≡ written_at at (count_line n) out.old }
{
    let mut bytes = [0u8; LONGEST_LINE];
    let end = put_entry(b"datagrams ", n as u64, &mut bytes, 0);
    text::put(&bytes[..end], out, at)
}

// Writes the line of the datagram of number k, counted from 1: the length that is delivered, or the number of the refusal.
pub fn put_line(k: usize, line: Result<usize, Refusal>, out: &mut [u8], at: usize) -> usize
    ensures value { result ≡ behind at (line_of k line) out.old }
    ensures out_after { out.new ≡ written_at at (line_of k line) out.old }
{
    let mut bytes = [0u8; LONGEST_LINE];
    let end = write_line(k, line, &mut bytes, 0);
    text::put(&bytes[..end], out, at)
}

// Writes the one line that is given for input that is not taken.
pub fn put_bad_input(out: &mut [u8], at: usize) -> usize
    ensures value { result ≡ behind at bad_input out.old }
    ensures out_after { out.new ≡ written_at at bad_input out.old }
{
    text::put(b"bad input\n", out, at)
}
