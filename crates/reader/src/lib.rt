// The reader over a file: the lent bytes and the next word's number. The functions over it are thin and leave the work to `step_at`, which
// takes a plain slice; `step_in` stands above them, so that no caller has to hold a reader. No public function asks anything of its caller.
#![tactic(auto)]

ghost use Rattle.std.specs.Prelude.{◌≡◌, ◌*◌, ◌/◌, ◌≤◌, length, take};
ghost use Rattle.definition.specs.Block.{stream_of};
ghost use Rattle.outcome.specs.Meaning.{answer_of};
ghost use Rattle.list_laws.specs.Overwriting.{overwrite};
ghost use Rattle.reader.specs.Words.{value_of, word_in, number_after, sheet_words};

use outcome::Answer;

// The number of words in a file's whole blocks.
fn words_held(file: &[u8]) -> usize
    ensures { result ≡ 127 * (length file.now / 512) }
{
    127 * (file.len() / 512)
}

// The word with number n of the stream that a file holds, or none past its end. A check word has no number: one is skipped after each 127 words.
pub fn word_at(file: &[u8], n: usize) -> Option<u32>
    ensures { value_of result ≡ word_in (stream_of file.now) n }
{
    if n < words_held(file) {
        Some(stream::word(file, 4 * (n + n / 127)))
    } else {
        None
    }
}

// A word, and the number of the one after it; at the end the number stays.
#[derive(Clone, Copy)]
pub struct Step {
    pub word: Option<u32>,
    pub next: usize,
}

// One step of a walk through the stream that a file holds, at the word with number n.
pub fn step_at(file: &[u8], n: usize) -> Step
    ensures { (value_of result.word ≡ word_in (stream_of file.now) n) × (result.next ≡ number_after (stream_of file.now) n) }
{
    let word = word_at(file, n);
    let next = if word.is_some() { n + 1 } else { n };
    Step { word, next }
}

#[derive(Clone, Copy)]
pub struct Reader<'a> {
    pub file: &'a [u8],
    pub next: usize,
}

// A reader at the first word of a file.
pub fn new<'a>(file: &'a [u8]) -> Reader<'a>
    ensures { (result.file ≡ file.entry) × (result.next ≡ 0) }
{
    Reader { file, next: 0 }
}

// The reader of the same file at another word; any number is allowed, also one past the end.
pub fn moved<'a>(r: Reader<'a>, next: usize) -> Reader<'a>
    ensures { (result.file ≡ r.entry.file) × (result.next ≡ next) }
{
    Reader { file: r.file, next }
}

// The reader's next word, and the number to which the reader then moves on.
pub fn next<'a>(r: Reader<'a>) -> Step
    ensures { (value_of result.word ≡ word_in (stream_of r.entry.file.now) r.entry.next) × (result.next ≡ number_after (stream_of r.entry.file.now) r.entry.next) }
{
    step_at(r.file, r.next)
}

// One step at the word with number n of the stream that a file holds, by a reader.
pub fn step_in(file: &[u8], n: usize) -> Step
    ensures { (value_of result.word ≡ word_in (stream_of file.now) n) × (result.next ≡ number_after (stream_of file.now) n) }
{
    next(moved(new(file), n))
}

// The word with number n of the stream that a file holds, by a reader.
pub fn word_in(file: &[u8], n: usize) -> Option<u32>
    ensures { value_of result ≡ word_in (stream_of file.now) n }
{
    step_in(file, n).word
}

// Walks over the first 12 words, and places them at the front of the output.
fn walk_sheet(file: &[u8], output: &mut [u32])
    requires { (512 ≤ length file.now) × (12 ≤ length output.old) }
    ensures { output.new ≡ overwrite output.old 0 (take 12 (stream_of file.now)) }
{
    let mut at = 0;
    while at < 12 {
        let step = step_in(file, at);
        let Some(x) = step.word else {
            return;
        };
        output[at] = x;
        at = step.next;
    }
}

// The sheet that a file holds, judged or not: the first 12 words of its stream, at the front of the output.
pub fn sheet_of(file: &[u8], output: &mut [u32]) -> Answer
    ensures result_value { answer_of result ≡ (sheet_words file.now output.old).answer }
    ensures output_after { output.new ≡ (sheet_words file.now output.old).output }
{
    if file.len() < 512 {
        return Answer::Refusal(1, 0);
    }
    if output.len() < 12 {
        return Answer::Refusal(11, 12);
    }
    walk_sheet(file, output);
    Answer::Done(12)
}
