// The Internet checksum of RFC 1071. The parts of the program in its section 4.1 and where they stand:
//   the loop            chunk_by_chunk, over chunks; its inner loop in words.rt, at its plainest one_by_one
//   left-over byte      odd_byte, in words.rt
//   the fold            fold
//   the end             complement; of a checksum that is read, right
// That program folds once, at the end; here each full chunk is folded too, so that 32 bits hold the sum of the words since, however many
// there are.
#![tactic(auto)]

mod words;

ghost use Rattle.std.specs.Prelude.{◌≡◌, ◌+◌, ◌/◌, ◌%◌, ◌≤◌, [], length, take, drop};
ghost use Rattle.checksum.specs.Sum.{ones_sum_from, ones_complement, is_right, is_right_from};
ghost use Rattle.checksum.specs.Folding.{word_sum, folded, chunk, final_input};

// The bytes that are added up before the carries are brought back.
const CHUNK: usize = 65536;
// What a carry out of 16 bits stands for.
const CARRY: u64 = 65536;
// Sixteen one bits.
const ALL_ONES: u16 = u16::MAX;

// The one's complement sum of the words of s, continued from a start value: the sum of what stands before s, or any words that belong to
// it.
//   "Adjacent octets to be checksummed are paired to form 16-bit integers, and the 1's complement sum of these 16-bit integers is
//   formed." (RFC 1071, 1)
pub fn sum_from(start: u32, s: &[u8]) -> u16
    ensures { result ≡ ones_sum_from start s.now }
{
    fold(final_input(start, s))
}

// What the last fold is given. Few bytes, as a header has, are added up without the loop.
fn final_input(start: u32, s: &[u8]) -> u64
    ensures { result ≡ final_input start s.now }
{
    if s.len() < words::FEW {
        start as u64 + words::few(s) as u64
    } else {
        chunk_by_chunk(start, s)
    }
}

// The loop: words are added up, and the carries wait until a chunk is full. What stands behind the last full chunk, even nothing, is for
// the last fold.
//   "it may be more efficient to defer adding end-around carries until the main summation loop is finished" (RFC 1071, 2)
// It counts the place `at`, and not chunks: what a fold is given is the contract of `fold_input`, which says by `drop at` where the folds are.
fn chunk_by_chunk(start: u32, s: &[u8]) -> u64
    ensures { result ≡ final_input start s.now }
{
    let mut result = start;
    let mut at = 0;
    loop {
        let sum = fold_input(result, s, at);
        if s.len() - at < CHUNK {
            return sum;
        }
        result = fold(sum) as u32;
        at += CHUNK;
    }
}

// What a fold is given: the result of the one before and the exact sum of the words since. These are the words of the chunk that starts at a
// place, or of what is left.
fn fold_input(res: u32, s: &[u8], at: usize) -> u64
    requires { (at ≤ length s.now) × (at % chunk ≡ 0) }
    ensures { result ≡ res + word_sum (take chunk (drop at s.now)) }
{
    let left = &s[at..];
    res as u64 + words::many(&left[..left.len().min(CHUNK)]) as u64
}

// The fold: carries are brought back in until none is left.
//   "Fold 32-bit sum to 16 bits", "while (sum>>16) sum = (sum & 0xffff) + (sum >> 16);" (RFC 1071, 4.1)
fn fold(x: u64) -> u16
    ensures { result ≡ folded x }
{
    let mut left = x;
    while CARRY <= left {
        left = left % CARRY + left / CARRY;
    }
    left as u16
}

// The exact sum of the two words of a number, by division: the library has no halves of a number.
pub fn two_words(x: u32) -> u32
    ensures { (result ≡ x / 65536 + x % 65536) × (result ≤ 131070) }
{
    x / 65536 + x % 65536
}

// The one's complement sum of words that were added up exactly: it is continued from them, and nothing follows.
pub fn sum_of_words(words: u32) -> u16
    ensures { result ≡ ones_sum_from words [] }
{
    fold(words as u64)
}

// The end of writing: the one's complement of x, which is written for a sum x.
//   "the 1's complement of this sum is placed in the checksum field" (RFC 1071, 1)
pub fn complement(x: u16) -> u16
    ensures { result ≡ ones_complement x }
{
    !x
}

// The end of reading: whether the checksum that s holds is right.
//   "If the result is all 1 bits [...], the check succeeds." (RFC 1071, 1)
pub fn right(s: &[u8]) -> bool
    ensures { result ≡ is_right s.now }
{
    right_from(0, s)
}

// Whether the checksum is right of words that were added up exactly, its own among them. The number is added to itself with its halves
// exchanged: in both halves stands the sum of the two then, and the carry out of the lower one goes into the upper one. So the upper half is what
// two turns of the fold leave, and of 32 bits two turns leave no carry.
pub fn right_words(words: u32) -> bool
    ensures { result ≡ is_right_from words [] }
{
    let sum = words.wrapping_add(words.rotate_left(16));
    sum / 65536 == 65535
}

// Whether the checksum that s holds is right, the sum continued from a start value.
#[tactic(auto, unfolding(crate::specs::Sum::is_right_from))]
pub fn right_from(start: u32, s: &[u8]) -> bool
    ensures { result ≡ is_right_from start s.now }
{
    sum_from(start, s) == ALL_ONES
}
