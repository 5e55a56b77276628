// The blocks and words of a file: 512 bytes a block, of which 508 are 127 words and the last four a check word.
#![tactic(auto)]

ghost use Rattle.std.specs.Prelude.{◌≡◌, [], ◌++◌, ◌+◌, ◌*◌, ◌/◌, ◌≤◌, ◌<◌, min, length, get_or, take, drop};
ghost use Rattle.definition.specs.Block.{file_blocks, block_count, bytes_of, file_of};
ghost use Rattle.list_laws.specs.Overwriting.{overwrite};
ghost use Rattle.layouts.specs.FileWords.{word_at, block_words};
ghost use Rattle.stream.specs.Checks.{right_check};
ghost use Rattle.stream.specs.Loaded.{Loaded};
ghost use Rattle.stream.specs.WrittenBlocks.{checked_block, block_of};

// The word in the four bytes from number `at` on, the least significant first.
pub fn word(s: &[u8], at: usize) -> u32
    requires { at + 4 ≤ length s.now }
    ensures { result ≡ word_at s.now at }
{
    u32::from_le_bytes([s[at], s[at + 1], s[at + 2], s[at + 3]])
}

// The sum with word w of a block added, w + 1 times. The bounds keep the sum of 127 words in 64 bits.
fn add_weighted(sum: u64, w: usize, x: u32) -> u64
    requires { (w < 127) × (sum ≤ 9223372036854775807) }
    ensures { (result ≡ sum + (w + 1) * x) × (result ≤ sum + 545460846592) }
{
    sum + (w as u64 + 1) * x as u64
}

// Reads block b: stores its 127 words from number `at` on, and answers whether its check word is right.
fn take_block(file: &[u8], b: usize, words: &mut [u32], at: usize) -> bool
    requires { (b < length file.now / 512) × (at + 127 ≤ length words.old) }
    ensures value { result ≡ right_check b (get_or (file_blocks file.now) b []) }
    ensures words_after { words.new ≡ overwrite words.old at (block_words file.now b) }
{
    let from = 512 * b;
    let mut sum = b as u64 + 1;
    for w in 0..127 {
        let x = word(file, from + 4 * w);
        words[at + w] = x;
        sum = add_weighted(sum, w, x);
    }
    word(file, from + 508) as u64 == sum % 4294967291
}

// Where the words of block b go: one block after the other, and all from number `most` on to the same place,
// since no file of more than `most` blocks is accepted and only their checks count.
fn place(b: usize, most: usize) -> usize
    requires { 127 * min b most ≤ 9223372036854775807 }
    ensures { result ≡ 127 * min b most }
{
    if b < most { 127 * b } else { 127 * most }
}

// Reads a file in one pass: checks each block up to the first that is wrong, and stores the words. There are places for the file's blocks, up to `most` and one more.
pub fn load(file: &[u8], most: usize, words: &mut [u32]) -> Option<usize>
    requires { 127 * min (length file.now / 512) (most + 1) ≤ length words.old }
    ensures { Loaded file.now most result words.new }
{
    let blocks = file.len() / 512;
    for b in 0..blocks {
        let at = place(b, most);
        if !take_block(file, b, words, at) {
            return Some(b);
        }
    }
    None
}

// Stores a word in the four bytes from number `at` on, the least significant first.
pub fn put_word(out: &mut [u8], at: usize, w: u32)
    requires { at + 4 ≤ length out.old }
    ensures { out.new ≡ overwrite out.old at (bytes_of w) }
{
    out[at..at + 4].copy_from_slice(&w.to_le_bytes());
}

// Word n of the first `count` words, and zero past them.
fn filled(words: &[u32], count: usize, n: usize) -> u32
    requires { count ≤ length words.now }
    ensures { result ≡ get_or (take count words.now) n 0 }
{
    if n < count { words[n] } else { 0 }
}

// Writes block b of the file of the first `count` words, with its fill and its check word.
fn write_block(words: &[u32], count: usize, b: usize, out: &mut [u8])
    requires { (count ≤ length words.now) × ((b < block_count count) × (512 * b + 512 ≤ length out.old)) }
    ensures { out.new ≡ overwrite out.old (512 * b) (checked_block b (block_of (take count words.now) b)) }
{
    let from = 512 * b;
    let mut total = b as u64 + 1;
    for i in 0..127 {
        let x = filled(words, count, 127 * b + i);
        put_word(out, from + 4 * i, x);
        total = add_weighted(total, i, x);
    }
    put_word(out, from + 508, (total % 4294967291) as u32);
}

// Writes the file of the first `count` words at the front of `out`; the bytes behind it stay.
pub fn write_file(words: &[u32], count: usize, out: &mut [u8])
    requires { (count ≤ length words.now) × (512 * block_count count ≤ length out.old) }
    ensures { out.new ≡ file_of (take count words.now) ++ drop (length (file_of (take count words.now))) out.old }
{
    let blocks = (count + 126) / 127;
    for k in 0..blocks {
        write_block(words, count, k, out);
    }
}
