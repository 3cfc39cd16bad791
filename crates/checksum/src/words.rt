// The exact sum of the words of up to 65,536 bytes, quickly: words are added up in blocks, and the compiler adds those of a block side by
// side.
ghost use Rattle.std.specs.Prelude.{◌≡◌, ◌+◌, ◌*◌, ◌/◌, ◌%◌, ◌<◌, ◌≤◌, length, drop};
ghost use Rattle.checksum.specs.Folding.{word_sum, chunk};
ghost use Rattle.checksum.specs.Words.{few_bytes, run_words, IsBlock, PowerOfTwo, high_sum};

// Fewer bytes are added up without a loop over runs.
pub(crate) const FEW: usize = 128;
// The words of a full run: of so many the high bytes, and the low bytes, surely have a sum of 16 bits.
const RUN: usize = 256;
// From so many words on, a run is quicker than one word after another.
const RUN_FROM: usize = 32;

// The exact sum of the words of few bytes: FEW bytes are two blocks of FEW / 4 words.
pub(crate) fn few(s: &[u8]) -> u32
    requires { length s.now < few_bytes }
    ensures { result ≡ word_sum s.now }
{
    halving(s, FEW / 4)
}

// The exact sum of the words of a chunk, or of what is left behind the last one; 32 bits hold it. What is left behind full runs is shorter
// than two blocks of RUN / 2 words.
pub(crate) fn many(s: &[u8]) -> u32
    requires { length s.now ≤ chunk }
    ensures { result ≡ word_sum s.now }
{
    let runs = s.chunks_exact(2 * RUN);
    let rest = runs.remainder();
    let mut sum = 0;
    for words in runs {
        sum += run(words);
    }
    sum + halving(rest, RUN / 2)
}

// The exact sum of the words of fewer bytes than two blocks of most words have: a block of most words if it fits, one of half as many, and so
// down to one word, and an odd last byte. The compiler makes straight code of it.
fn halving(s: &[u8], most: usize) -> u32
    requires { (length s.now < 4 * most) × PowerOfTwo most × (most ≤ run_words) }
    ensures { result ≡ word_sum s.now }
{
    let mut sum = 0;
    let mut rest = s;
    let mut n = most;
    while 0 < n {
        if 2 * n <= rest.len() {
            let (words, behind) = rest.split_at(2 * n);
            sum += block(words);
            rest = behind;
        }
        n /= 2;
    }
    sum + odd_byte(rest)
}

// An odd last byte is paired with a zero byte.
//   "Add left-over byte, if any" (RFC 1071, 4.1)
fn odd_byte(s: &[u8]) -> u32
    requires { length s.now < 2 }
    ensures { result ≡ word_sum s.now }
{
    match s {
        [last] => u16::from_be_bytes([*last, 0]) as u32,
        _ => 0,
    }
}

// The exact sum of a block's words.
fn block(s: &[u8]) -> u32
    requires { IsBlock s.now }
    ensures { result ≡ word_sum s.now }
{
    if s.len() < 2 * RUN_FROM {
        one_by_one(s)
    } else {
        run(s)
    }
}

// The exact sum of a block's words, word by word. Each is read as the machine does and then exchanged, since that is one load.
//   "This is the inner loop" (RFC 1071, 4.1)
fn one_by_one(s: &[u8]) -> u32
    requires { IsBlock s.now }
    ensures { result ≡ word_sum s.now }
{
    let mut sum = 0;
    for k in 0..s.len() / 2 {
        sum += pair(s, 2 * k).swap_bytes() as u32;
    }
    sum
}

// The exact sum of a block's words, without exchanging the bytes of each: as the machine reads it, a word is high + 256 * low. The sum of
// these is kept modulo 65536, that of the low bytes exactly, and the sum of the high bytes, which has 16 bits, follows from the two.
fn run(s: &[u8]) -> u32
    requires { IsBlock s.now }
    ensures { result ≡ word_sum s.now }
{
    let mut exchanged: u16 = 0;
    let mut low: u16 = 0;
    for k in 0..s.len() / 2 {
        let x = pair(s, 2 * k);
        exchanged = exchanged.wrapping_add(x);
        low += x / 256;
    }
    high_sum(exchanged, low) * 256 + low as u32
}

// The two bytes from i on as the machine reads a word, the first the low-order one: the compiler makes one load of it. It doesn't where the
// loops go over chunks of two bytes, which are slower by a quarter.
fn pair(s: &[u8], i: usize) -> u16
    requires { i + 1 < length s.now }
    ensures { word_sum (drop i s.now) ≡ result % 256 * 256 + result / 256 + word_sum (drop (i + 2) s.now) }
{
    u16::from_le_bytes([s[i], s[i + 1]])
}

// The sum of the high bytes: that of the exchanged words less 256 times that of the low bytes, modulo 65536, where 65280 is -256.
#[tactic(auto, unfolding(crate::specs::Words::high_sum))]
fn high_sum(exchanged: u16, low: u16) -> u32
    ensures { result ≡ high_sum exchanged low }
{
    (exchanged as u32 + 65280 * low as u32) % 65536
}
