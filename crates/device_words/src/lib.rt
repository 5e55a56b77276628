// A device's state as words, for callers that lend it: 0 phase (0 idle, 1 busy, 2 done and accepted, any other: done and refused), 1 number, 2 and 3 place (low, high),
// 4 enable, 5 flag, 6 taken, 7 treated, from 8 on the folds.
#![tactic(auto)]

ghost use Rattle.std.specs.Prelude.{◌≡◌, ◌+◌, ◌*◌, ◌≤◌, ◌<◌, ◌++◌, drop, length, take};
ghost use Rattle.device_definition.specs.Device.{fault_place};
ghost use Rattle.registers.specs.Meaning.{device_of, phase_of};
ghost use Rattle.device_words.specs.Words.{device_in, first_words, kind_of, phase_in, words_of};

use outcome::Outcome;
use registers::{Device, Phase};

// The number of words of a state.
pub const WORDS: usize = 1160;

// One more than the largest word.
const LIMIT: usize = 4294967296;

// The phase by its words.
fn phase_of(kind: u32, number: u32, low: u32, high: u32) -> Phase
    ensures { phase_of result ≡ phase_in kind number (high * 4294967296 + low) }
{
    if kind == 0 {
        return Phase::Idle;
    }
    if kind == 1 {
        return Phase::Busy;
    }
    if kind == 2 {
        return Phase::Done(Outcome::Accepted);
    }
    Phase::Done(Outcome::Refused(number, high as usize * LIMIT + low as usize))
}

// Words put in place of those from a number on.
fn put(words: &[u32], out: &mut [u32], at: usize)
    requires { at + length words.now ≤ length out.old }
    ensures { out.new ≡ take at out.old ++ words.now ++ drop (at + length words.now) out.old }
{
    for i in 0..words.len() {
        out[at + i] = words[i];
    }
}

// The folds, from word 8 on.
fn folds_of(state: &[u32]) -> [u32; registers::FOLDS]
    requires { length state.now ≡ 1160 }
    ensures { result ≡ drop 8 state.now }
{
    let mut folds = [0u32; registers::FOLDS];
    put(&state[8..], &mut folds, 0);
    folds
}

// The device that words are of.
pub fn unpack(state: &[u32]) -> Device
    requires { length state.now ≡ 1160 }
    ensures { device_of result ≡ device_in state.now }
{
    let phase = phase_of(state[0], state[1], state[2], state[3]);
    let folds = folds_of(state);
    Device {
        phase: phase,
        enable: state[4] != 0,
        flag: state[5] != 0,
        taken: state[6] as usize,
        treated: state[7] as usize,
        folds: folds,
    }
}

// The word of a phase.
fn kind(phase: Phase) -> u32
    ensures { result ≡ kind_of (phase_of phase) }
{
    match phase {
        Phase::Idle => 0,
        Phase::Busy => 1,
        Phase::Done(outcome) => match outcome {
            Outcome::Accepted => 2,
            Outcome::Refused(number, place) => 3,
        },
    }
}

// The words before the folds; the place of a fault has room in two.
fn first_words(d: Device) -> [u32; 8]
    ensures value { result ≡ first_words (device_of d) }
    ensures d_bound { fault_place (device_of d).phase < 18446744073709551616 }
{
    let phase = d.phase;
    let named = kind(phase);
    let number = registers::number(phase);
    let place = registers::place(phase);
    let enable = registers::bit(d.enable);
    let flag = registers::bit(d.flag);
    [
        named,
        number,
        (place % LIMIT) as u32,
        (place / LIMIT % LIMIT) as u32,
        enable as u32,
        flag as u32,
        (d.taken % LIMIT) as u32,
        (d.treated % LIMIT) as u32,
    ]
}

// All words of a state.
fn put_all(first: [u32; 8], folds: [u32; registers::FOLDS], state: &mut [u32])
    requires { length state.old ≡ 1160 }
    ensures { state.new ≡ first ++ folds }
{
    put(&first, state, 0);
    put(&folds, state, 8);
}

// The words of a device, which give it back where its counts have room in a word.
pub fn pack(d: Device, state: &mut [u32])
    requires { length state.old ≡ 1160 }
    ensures state_after { state.new ≡ words_of (device_of d) }
    ensures state_after_2 { d.taken < 4294967296 → d.treated < 4294967296 → device_in state.new ≡ device_of d }
{
    let first = first_words(d);
    let folds = d.folds;
    put_all(first, folds, state);
}
