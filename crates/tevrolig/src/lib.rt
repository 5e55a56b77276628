// The operations as C functions. Nothing is allocated and no state is kept; what is lent is lent for the call alone.
#![tactic(auto)]

ghost use Rattle.std.specs.Prelude.{◌≡◌, length};
ghost use Rattle.definition.specs.Reading.{reading};
ghost use Rattle.definition.specs.Verify.{decide_file, verify, verify_in};
ghost use Rattle.definition.specs.Block.{stream_of};
ghost use Rattle.definition.specs.Prove.{encode, prove, prove_in};
ghost use Rattle.definition.specs.Sheet.{edition1, edition2};
ghost use Rattle.batch_definition.specs.Batch.{prove_batch, verify_batch};
ghost use Rattle.definition.specs.Convert.{to_edition1, to_edition2};
ghost use Rattle.nearest_definition.specs.Nearest.{nearest};
ghost use Rattle.definition.specs.Field.{sum, difference, product, power_of, power_turns_of, inverse_of, sum3, difference3, product3, power3, power_turns3, inverse3};
ghost use Rattle.field3.specs.Words.{quad_at, spelt, inverse_number3, inverse_after3};
ghost use Rattle.reader.specs.Words.{word_in, sheet_words};
ghost use Rattle.device_definition.specs.Device.{fresh, write};
ghost use Rattle.device_words.specs.Words.{device_in};
ghost use Rattle.device_calls.specs.Calls.{fresh_answer, fresh_state, line_call, read_call, write_call};
ghost use Rattle.numbers.specs.Numbers.{number_of, place_in, refusal_of, value_of, word_number, word_after, element_number, element_after, power_number, power_after, turns_after, inverse_number, inverse_after};

use edition::Edition;

// The number of this interface, of which the symbol's name has it too: the header and the Rust interface refer to the symbol, so that neither links with an archive
// of another number.
#[unsafe(no_mangle)]
pub extern "C" fn tevrolig_interface_10() -> u32
    ensures { result ≡ 10 }
{
    10
}

// Judges a file of edition 1. Answers 0 for accepted, else the fault's number, and writes the fault's place (0 where accepted) and the count of reads.
#[unsafe(no_mangle)]
pub extern "C" fn tevrolig_verify(file: &[u8], place: &mut u64, reads: &mut u64) -> u32
    ensures value { result ≡ number_of (verify file.now).outcome }
    ensures place_after { place.new ≡ place_in (verify file.now).outcome }
    ensures reads_after { reads.new ≡ (verify file.now).reads }
{
    let n = numbers::of_verdict(verify::verify(file));
    *place = n.place;
    *reads = n.reads;
    n.number
}

// The same of edition 2.
#[unsafe(no_mangle)]
pub extern "C" fn tevrolig_verify_2(file: &[u8], place: &mut u64, reads: &mut u64) -> u32
    ensures value { result ≡ number_of (verify_in edition2 file.now).outcome }
    ensures place_after { place.new ≡ place_in (verify_in edition2 file.now).outcome }
    ensures reads_after { reads.new ≡ (verify_in edition2 file.now).reads }
{
    let n = numbers::of_verdict(verify::verify_2(file));
    *place = n.place;
    *reads = n.reads;
    n.number
}

// The first step of verify, of a file of edition 1: reading. Answers 0 for accepted, else the fault's number, 1 to 6, and writes the fault's place (0 where accepted).
#[unsafe(no_mangle)]
pub extern "C" fn tevrolig_read(file: &[u8], place: &mut u64) -> u32
    ensures value { result ≡ number_of (reading edition1 file.now) }
    ensures place_after { place.new ≡ place_in (reading edition1 file.now) }
{
    let n = numbers::of_outcome(verify::read_in(Edition::One, file));
    *place = n.place;
    n.number
}

// The same of edition 2.
#[unsafe(no_mangle)]
pub extern "C" fn tevrolig_read_2(file: &[u8], place: &mut u64) -> u32
    ensures value { result ≡ number_of (reading edition2 file.now) }
    ensures place_after { place.new ≡ place_in (reading edition2 file.now) }
{
    let n = numbers::of_outcome(verify::read_in(Edition::Two, file));
    *place = n.place;
    n.number
}

// The second step: deciding, of any file of edition 1. One that fails reading gets reading's refusal, with no reads, so that the verdict is verify's, which is
// what is called. Answers and writes as tevrolig_verify does.
#[unsafe(no_mangle)]
pub extern "C" fn tevrolig_decide(file: &[u8], place: &mut u64, reads: &mut u64) -> u32
    ensures value { result ≡ number_of (decide_file edition1 file.now).outcome }
    ensures place_after { place.new ≡ place_in (decide_file edition1 file.now).outcome }
    ensures reads_after { reads.new ≡ (decide_file edition1 file.now).reads }
{
    let n = numbers::of_verdict(verify::verify(file));
    *place = n.place;
    *reads = n.reads;
    n.number
}

// The same of edition 2.
#[unsafe(no_mangle)]
pub extern "C" fn tevrolig_decide_2(file: &[u8], place: &mut u64, reads: &mut u64) -> u32
    ensures value { result ≡ number_of (decide_file edition2 file.now).outcome }
    ensures place_after { place.new ≡ place_in (decide_file edition2 file.now).outcome }
    ensures reads_after { reads.new ≡ (decide_file edition2 file.now).reads }
{
    let n = numbers::of_verdict(verify::verify_2(file));
    *place = n.place;
    *reads = n.reads;
    n.number
}

// Shows a word of the stream, as the place of a refusal 5, 6, 7 or 14 names it. Answers 0 and writes the word, or answers NO_WORD where the file's whole
// blocks hold no word of that number, and writes nothing.
#[unsafe(no_mangle)]
pub extern "C" fn tevrolig_word(file: &[u8], number: u64, word: &mut u32) -> u32
    ensures value { result ≡ word_number (word_in (stream_of file.now) number) }
    ensures word_after { word.new ≡ word_after (word_in (stream_of file.now) number) word.old }
{
    let shown = numbers::of_word(reader::word_in(file, number as usize));
    if shown.number == 0 {
        *word = shown.word;
    }
    shown.number
}

// Shows the sheet that a file holds, judged or not: writes its 12 words at the front of `output`. Answers 0; or a refusal's number, 1 where the file has no
// whole block and 11 where the output has not room for 12 words, and the output is as before.
#[unsafe(no_mangle)]
pub extern "C" fn tevrolig_sheet_of(file: &[u8], output: &mut [u32]) -> u32
    ensures value { result ≡ refusal_of (sheet_words file.now output.old).answer }
    ensures output_after { output.new ≡ (sheet_words file.now output.old).output }
{
    numbers::refusal_number(reader::sheet_of(file, output))
}

// Writes the honest file of edition 1 of a polynomial and coins at the front of `output`. Answers 0, with the number of blocks in `value`; or a refusal's number, with its
// place in `value`, and the output is as before.
#[unsafe(no_mangle)]
pub extern "C" fn tevrolig_prove(
    sheet: &[u32],
    coefficients: &[u32],
    coins: &[u32],
    output: &mut [u8],
    value: &mut u64,
) -> u32
    ensures value { result ≡ refusal_of (prove sheet.now coefficients.now coins.now output.old).answer }
    ensures value_after { value.new ≡ value_of (prove sheet.now coefficients.now coins.now output.old).answer }
    ensures output_after { output.new ≡ (prove sheet.now coefficients.now coins.now output.old).output }
{
    let answer = prove::prove(sheet, coefficients, coins, output);
    let n = numbers::of_answer(answer);
    *value = n.value;
    n.number
}

// The same of edition 2.
#[unsafe(no_mangle)]
pub extern "C" fn tevrolig_prove_2(
    sheet: &[u32],
    coefficients: &[u32],
    coins: &[u32],
    output: &mut [u8],
    value: &mut u64,
) -> u32
    ensures value { result ≡ refusal_of (prove_in edition2 sheet.now coefficients.now coins.now output.old).answer }
    ensures value_after { value.new ≡ value_of (prove_in edition2 sheet.now coefficients.now coins.now output.old).answer }
    ensures output_after { output.new ≡ (prove_in edition2 sheet.now coefficients.now coins.now output.old).output }
{
    let answer = prove::prove_2(sheet, coefficients, coins, output);
    let n = numbers::of_answer(answer);
    *value = n.value;
    n.number
}

// Writes a file of edition 1 as one of edition 2 at the front of `output`. Answers 0, with the number of blocks in `value`; or a refusal's number, with its place in
// `value`, and the output is as before.
#[unsafe(no_mangle)]
pub extern "C" fn tevrolig_to_edition_2(file: &[u8], output: &mut [u8], value: &mut u64) -> u32
    ensures value { result ≡ refusal_of (to_edition2 file.now output.old).answer }
    ensures value_after { value.new ≡ value_of (to_edition2 file.now output.old).answer }
    ensures output_after { output.new ≡ (to_edition2 file.now output.old).output }
{
    let n = numbers::of_answer(convert::to_edition_2(file, output));
    *value = n.value;
    n.number
}

// And back.
#[unsafe(no_mangle)]
pub extern "C" fn tevrolig_to_edition_1(file: &[u8], output: &mut [u8], value: &mut u64) -> u32
    ensures value { result ≡ refusal_of (to_edition1 file.now output.old).answer }
    ensures value_after { value.new ≡ value_of (to_edition1 file.now output.old).answer }
    ensures output_after { output.new ≡ (to_edition1 file.now output.old).output }
{
    let n = numbers::of_answer(convert::to_edition_1(file, output));
    *value = n.value;
    n.number
}

// Judges a batch.
#[unsafe(no_mangle)]
pub extern "C" fn tevrolig_verify_batch(file: &[u8], place: &mut u64, reads: &mut u64) -> u32
    ensures value { result ≡ number_of (verify_batch file.now).outcome }
    ensures place_after { place.new ≡ place_in (verify_batch file.now).outcome }
    ensures reads_after { reads.new ≡ (verify_batch file.now).reads }
{
    let n = numbers::of_verdict(batch_verify::verify_batch(file));
    *place = n.place;
    *reads = n.reads;
    n.number
}

// Writes the honest batch of bounds, of coefficients table by table, and of coins, of which r is the first, at the front of `output`. Answers as the prover of a plain
// file does.
#[unsafe(no_mangle)]
pub extern "C" fn tevrolig_prove_batch(
    sheet: &[u32],
    bounds: &[u32],
    coefficients: &[u32],
    coins: &[u32],
    output: &mut [u8],
    value: &mut u64,
) -> u32
    ensures value { result ≡ refusal_of (prove_batch sheet.now bounds.now coefficients.now coins.now output.old).answer }
    ensures value_after { value.new ≡ value_of (prove_batch sheet.now bounds.now coefficients.now coins.now output.old).answer }
    ensures output_after { output.new ≡ (prove_batch sheet.now bounds.now coefficients.now coins.now output.old).output }
{
    let answer = batch_prove::prove_batch(sheet, bounds, coefficients, coins, output);
    let n = numbers::of_answer(answer);
    *value = n.value;
    n.number
}

// Writes table 0 of a polynomial at the front of `output`. Answers 0, with the number of its words in `value`; or a refusal's number, with its place in
// `value`, and the output is as before.
#[unsafe(no_mangle)]
pub extern "C" fn tevrolig_encode(
    sheet: &[u32],
    coefficients: &[u32],
    output: &mut [u32],
    value: &mut u64,
) -> u32
    ensures value { result ≡ refusal_of (encode sheet.now coefficients.now output.old).answer }
    ensures value_after { value.new ≡ value_of (encode sheet.now coefficients.now output.old).answer }
    ensures output_after { output.new ≡ (encode sheet.now coefficients.now output.old).output }
{
    let answer = encode::encode(sheet, coefficients, output);
    let n = numbers::of_answer(answer);
    *value = n.value;
    n.number
}

// Finds the nearest polynomial to table 0. Answers 0 for done and writes the number of words written, else the refusal's number and its place, and no word of the
// output.
#[unsafe(no_mangle)]
pub extern "C" fn tevrolig_nearest(
    sheet: &[u32],
    table: &[u32],
    output: &mut [u32],
    value: &mut u64,
) -> u32
    ensures value { result ≡ refusal_of (nearest sheet.now table.now output.old).answer }
    ensures value_after { value.new ≡ value_of (nearest sheet.now table.now output.old).answer }
    ensures output_after { output.new ≡ (nearest sheet.now table.now output.old).output }
{
    let answer = nearest::nearest(sheet, table, output);
    let n = numbers::of_answer(answer);
    *value = n.value;
    n.number
}

// The sum of two words in a field. Each field operation answers 0 and writes the element, or answers why there is none and writes nothing: NO_FIELD where the
// number names no field.
#[unsafe(no_mangle)]
pub extern "C" fn tevrolig_sum(field: u32, a: u32, b: u32, element: &mut u32) -> u32
    ensures value { result ≡ element_number (sum field a b) }
    ensures element_after { element.new ≡ element_after (sum field a b) element.old }
{
    let sum = numbers::of_element(field::sum(field, a, b));
    if sum.number == 0 {
        *element = sum.word;
    }
    sum.number
}

// The difference of two words in a field.
#[unsafe(no_mangle)]
pub extern "C" fn tevrolig_difference(field: u32, a: u32, b: u32, element: &mut u32) -> u32
    ensures value { result ≡ element_number (difference field a b) }
    ensures element_after { element.new ≡ element_after (difference field a b) element.old }
{
    let difference = numbers::of_element(field::difference(field, a, b));
    if difference.number == 0 {
        *element = difference.word;
    }
    difference.number
}

// The product of two words in a field.
#[unsafe(no_mangle)]
pub extern "C" fn tevrolig_product(field: u32, a: u32, b: u32, element: &mut u32) -> u32
    ensures value { result ≡ element_number (product field a b) }
    ensures element_after { element.new ≡ element_after (product field a b) element.old }
{
    let product = numbers::of_element(field::product(field, a, b));
    if product.number == 0 {
        *element = product.word;
    }
    product.number
}

// The power of a word in a field; the exponent is any word as it is.
#[unsafe(no_mangle)]
pub extern "C" fn tevrolig_power(field: u32, a: u32, exponent: u32, element: &mut u32) -> u32
    ensures value { result ≡ element_number (power_of field a exponent) }
    ensures element_after { element.new ≡ element_after (power_of field a exponent) element.old }
{
    let power = numbers::of_element(field::power(field, a, exponent));
    if power.number == 0 {
        *element = power.word;
    }
    power.number
}

// The same power, and the turns that its loop made: as many as the exponent has binary digits, none for 0. Both are written, or neither.
#[unsafe(no_mangle)]
pub extern "C" fn tevrolig_power_turns(
    field: u32,
    a: u32,
    exponent: u32,
    element: &mut u32,
    turns: &mut u32,
) -> u32
    ensures value { result ≡ power_number (power_turns_of field a exponent) }
    ensures element_after { element.new ≡ power_after (power_turns_of field a exponent) element.old }
    ensures turns_after { turns.new ≡ turns_after (power_turns_of field a exponent) turns.old }
{
    let raised = numbers::of_power(field::power_turns(field, a, exponent));
    if raised.number == 0 {
        *element = raised.power;
        *turns = raised.turns;
    }
    raised.number
}

// The inverse of a word in a field; NO_INVERSE where there is none, which is so exactly for 0.
#[unsafe(no_mangle)]
pub extern "C" fn tevrolig_inverse(field: u32, a: u32, element: &mut u32) -> u32
    ensures value { result ≡ inverse_number (inverse_of field a) }
    ensures element_after { element.new ≡ inverse_after (inverse_of field a) element.old }
{
    let inverse = numbers::of_inverse(field::inverse(field, a));
    if inverse.number == 0 {
        *element = inverse.word;
    }
    inverse.number
}

// The sum of two elements of field 3, of four words each, which may be any and are taken modulo p. Each operation of field 3 answers 0 and writes the four words,
// or answers why there is none and writes nothing.
#[unsafe(no_mangle)]
pub extern "C" fn tevrolig_sum_3(a: &[u32; 4], b: &[u32; 4], out: &mut [u32; 4]) -> u32
    ensures value { result ≡ 0 }
    ensures out_after { out.new ≡ spelt (sum3 (quad_at a.now) (quad_at b.now)) }
{
    *out = field3::sum(*a, *b);
    0
}

// The difference.
#[unsafe(no_mangle)]
pub extern "C" fn tevrolig_difference_3(a: &[u32; 4], b: &[u32; 4], out: &mut [u32; 4]) -> u32
    ensures value { result ≡ 0 }
    ensures out_after { out.new ≡ spelt (difference3 (quad_at a.now) (quad_at b.now)) }
{
    *out = field3::difference(*a, *b);
    0
}

// The product.
#[unsafe(no_mangle)]
pub extern "C" fn tevrolig_product_3(a: &[u32; 4], b: &[u32; 4], out: &mut [u32; 4]) -> u32
    ensures value { result ≡ 0 }
    ensures out_after { out.new ≡ spelt (product3 (quad_at a.now) (quad_at b.now)) }
{
    *out = field3::product(*a, *b);
    0
}

// The power; the exponent is one word as it is.
#[unsafe(no_mangle)]
pub extern "C" fn tevrolig_power_3(a: &[u32; 4], exponent: u32, out: &mut [u32; 4]) -> u32
    ensures value { result ≡ 0 }
    ensures out_after { out.new ≡ spelt (power3 (quad_at a.now) exponent) }
{
    *out = field3::power(*a, exponent);
    0
}

// The same power, and the turns that its loop made: as many as the exponent has binary digits, none for 0.
#[unsafe(no_mangle)]
pub extern "C" fn tevrolig_power_turns_3(
    a: &[u32; 4],
    exponent: u32,
    out: &mut [u32; 4],
    turns: &mut u32,
) -> u32
    ensures value { result ≡ 0 }
    ensures out_after { out.new ≡ spelt (power_turns3 (quad_at a.now) exponent).power }
    ensures turns_after { turns.new ≡ (power_turns3 (quad_at a.now) exponent).turns }
{
    let powered = field3::power_turns(*a, exponent);
    let power = powered.value;
    *out = power;
    *turns = powered.turns;
    0
}

// The inverse; NO_INVERSE where there is none, which is so exactly where all four words are multiples of p.
#[unsafe(no_mangle)]
pub extern "C" fn tevrolig_inverse_3(a: &[u32; 4], out: &mut [u32; 4]) -> u32
    ensures value { result ≡ inverse_number3 (inverse3 (quad_at a.now)) }
    ensures out_after { out.new ≡ inverse_after3 (inverse3 (quad_at a.now)) out.old }
{
    let inverse = field3::inverse(*a);
    let Some(x) = inverse else {
        return numbers::NO_INVERSE;
    };
    *out = [x.a, x.b, x.c, x.d];
    0
}

// A fresh device in the words lent. Answers 0; or 16 where they are not TEVROLIG_DEVICE_WORDS, and they are as before.
#[unsafe(no_mangle)]
pub extern "C" fn tevrolig_device_fresh(state: &mut [u32]) -> u32
    ensures value { result ≡ fresh_answer state.old }
    ensures state_after { state.new ≡ fresh_state state.old }
    ensures state_after_2 { length state.old ≡ 1160 → device_in state.new ≡ fresh }
{
    device_calls::fresh(state)
}

// A byte written to a register of the device. Answers 0, with 0 in `place`; or 16, with its place in `place`, 2 where the state has another length, and both state
// and buffer are as before.
#[unsafe(no_mangle)]
pub extern "C" fn tevrolig_device_write(
    state: &mut [u32],
    register: u8,
    value: u8,
    buffer: &mut [u8],
    place: &mut u64,
) -> u32
    ensures value { result ≡ number_of (write_call register value state.old buffer.old).outcome }
    ensures place_after { place.new ≡ place_in (write_call register value state.old buffer.old).outcome }
    ensures state_after { state.new ≡ (write_call register value state.old buffer.old).state }
    ensures buffer_after { buffer.new ≡ (write_call register value state.old buffer.old).buffer }
    ensures state_after_2 { length state.old ≡ 1160 → device_in state.new ≡ (write register value (device_in state.old) buffer.old).device }
{
    let answer = device_calls::write(state, register, value, buffer);
    *place = answer.place;
    answer.number
}

// A register of the device read; 0 where the state has another length.
#[unsafe(no_mangle)]
pub extern "C" fn tevrolig_device_read(state: &[u32], register: u8) -> u8
    ensures { result ≡ read_call state.now register }
{
    device_calls::read(state, register)
}

// The interrupt line, 1 where it is up; 0 where the state has another length.
#[unsafe(no_mangle)]
pub extern "C" fn tevrolig_device_line(state: &[u32]) -> u8
    ensures { result ≡ line_call state.now }
{
    device_calls::line(state)
}
