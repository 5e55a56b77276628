// The device's state and its registers, by value, without the judge: what a write or a coin leaves, and what a read shows.
#![tactic(auto)]

ghost use Rattle.std.specs.Prelude.{◌≡◌, [], ◌∷◌, ◌<◌};
ghost use Rattle.device_definition.specs.Device.{began as began_by, busy_test, cleared as cleared_by, enabled as enabled_by, ended as ended_with, flagged as flagged_by, fresh as fresh_device, is_busy, line as line_of, fault_number, fault_place, overwritten, read as read_of, status_in, took_byte, treated_one, write_tests};
ghost use Rattle.device_definition.specs.Device as definition;
ghost use Rattle.definition.specs.Field.{spelling_of, words_of};
ghost use Rattle.definition.specs.Verdict.{◌then◌};
ghost use Rattle.spelling.specs.ByField.{words_at};
ghost use Rattle.elements.specs.Meaning.{value_at};
ghost use Rattle.outcome.specs.Meaning.{outcome_of};
ghost use Rattle.registers.specs.Meaning.{device_of, phase_of};

use outcome::Outcome;
use quartic::Four;

// Places for the words of the folds of all shift and final coins of a file, six levels of at most 48, of up to four words each.
pub const FOLDS: usize = 1152;

// The length of the lent buffer.
pub const BUFFER: usize = 65536;

// Neither running nor done, running, or done with an outcome.
#[derive(Clone, Copy)]
pub enum Phase {
    Idle,
    Busy,
    Done(Outcome),
}

// The state between two calls: how many bytes were taken, how many coins were treated, and the words of the folds at them.
#[derive(Clone, Copy)]
pub struct Device {
    pub phase: Phase,
    pub enable: bool,
    pub flag: bool,
    pub taken: usize,
    pub treated: usize,
    pub folds: [u32; FOLDS],
}

pub fn fresh() -> Device
    ensures { device_of result ≡ fresh_device }
{
    Device {
        phase: Phase::Idle,
        enable: false,
        flag: false,
        taken: 0,
        treated: 0,
        folds: [0u32; FOLDS],
    }
}

// A run begins: no coin is treated, and done is dropped.
pub fn began(d: Device) -> Device
    ensures { device_of result ≡ began_by (device_of d) }
{
    Device {
        phase: Phase::Busy,
        enable: d.enable,
        flag: d.flag,
        taken: d.taken,
        treated: 0,
        folds: [0u32; FOLDS],
    }
}

// A run ends: done sets the flag.
pub fn ended(d: Device, o: Outcome) -> Device
    ensures { device_of result ≡ ended_with (device_of d) (outcome_of o) }
{
    let folds = d.folds;
    Device {
        phase: Phase::Done(o),
        enable: d.enable,
        flag: true,
        taken: d.taken,
        treated: d.treated,
        folds: folds,
    }
}

// The words of folds with one fold more, number `at`.
fn with_fold(field: u32, folds: [u32; FOLDS], at: usize, fold: Four) -> [u32; FOLDS]
    requires { at < 288 }
    ensures { result ≡ overwritten folds (words_at field at) (words_of (spelling_of field) (value_at field fold ∷ [])) }
{
    let mut next = folds;
    if field == 3 {
        next[4 * at] = fold.a;
        next[4 * at + 1] = fold.b;
        next[4 * at + 2] = fold.c;
        next[4 * at + 3] = fold.d;
    } else {
        next[at] = fold.a;
    }
    next
}

// One coin more is treated, with this fold.
pub fn treated_one(field: u32, d: Device, fold: Four) -> Device
    requires { d.treated < 288 }
    ensures { device_of result ≡ treated_one (spelling_of field) (device_of d) (value_at field fold) }
{
    let phase = d.phase;
    let at = d.treated;
    let old = d.folds;
    let folds = with_fold(field, old, at, fold);
    Device {
        phase: phase,
        enable: d.enable,
        flag: d.flag,
        taken: d.taken,
        treated: at + 1,
        folds: folds,
    }
}

// Clear: no bytes, no run, neither done nor flag; enable stays.
pub fn cleared(d: Device) -> Device
    ensures { device_of result ≡ cleared_by (device_of d) }
{
    Device {
        phase: Phase::Idle,
        enable: d.enable,
        flag: false,
        taken: 0,
        treated: 0,
        folds: [0u32; FOLDS],
    }
}

// Register 2 written: of the byte only bit 0 counts.
pub fn enabled(d: Device, value: u8) -> Device
    ensures { device_of result ≡ enabled_by value (device_of d) }
{
    let phase = d.phase;
    let folds = d.folds;
    Device {
        phase: phase,
        enable: value % 2 == 1,
        flag: d.flag,
        taken: d.taken,
        treated: d.treated,
        folds: folds,
    }
}

// Register 3 written: a 1 in bit 0 clears the flag.
pub fn flagged(d: Device, value: u8) -> Device
    ensures { device_of result ≡ flagged_by value (device_of d) }
{
    let phase = d.phase;
    let folds = d.folds;
    let mut flag = false;
    if value % 2 == 0 {
        flag = d.flag;
    }
    Device {
        phase: phase,
        enable: d.enable,
        flag: flag,
        taken: d.taken,
        treated: d.treated,
        folds: folds,
    }
}

// Register 9 written, where there is room: one byte more is taken.
pub fn took_byte(d: Device) -> Device
    requires { d.taken < 65536 }
    ensures { device_of result ≡ took_byte (device_of d) }
{
    let phase = d.phase;
    let folds = d.folds;
    Device {
        phase: phase,
        enable: d.enable,
        flag: d.flag,
        taken: d.taken + 1,
        treated: d.treated,
        folds: folds,
    }
}

// Does it run?
pub fn is_busy(phase: Phase) -> bool
    ensures { result ≡ is_busy (phase_of phase) }
{
    match phase {
        Phase::Idle => false,
        Phase::Busy => true,
        Phase::Done(outcome) => false,
    }
}

// 16 at place 0 or 1: a data byte or a start while busy, a data byte into a full buffer.
fn busy_or_full(d: Device, register: u8, value: u8) -> Outcome
    ensures { outcome_of result ≡ (definition.busy_test register value (device_of d) then definition.full_test register (device_of d)) }
{
    let phase = d.phase;
    let busy = is_busy(phase);
    if register == 9 {
        if busy {
            return Outcome::Refused(16, 0);
        }
        if BUFFER <= d.taken {
            return Outcome::Refused(16, 1);
        }
        return Outcome::Accepted;
    }
    if register == 0 {
        if value == 1 {
            if busy {
                return Outcome::Refused(16, 0);
            }
        }
    }
    Outcome::Accepted
}

// 16: a buffer of another length first.
pub fn write_tests(d: Device, register: u8, value: u8, buffer: &[u8]) -> Outcome
    ensures { outcome_of result ≡ write_tests register value (device_of d) buffer.now }
{
    if buffer.len() != BUFFER {
        return Outcome::Refused(16, 2);
    }
    busy_or_full(d, register, value)
}

// The interrupt line.
pub fn line(d: Device) -> bool
    ensures { result ≡ line_of (device_of d) }
{
    if d.flag {
        return d.enable;
    }
    false
}

fn status(phase: Phase) -> u8
    ensures { result ≡ status_in (phase_of phase) }
{
    match phase {
        Phase::Idle => 0,
        Phase::Busy => 1,
        Phase::Done(outcome) => 2,
    }
}

// The fault's number and its place, 0 until done.
pub fn number(phase: Phase) -> u32
    ensures { result ≡ fault_number (phase_of phase) }
{
    match phase {
        Phase::Idle => 0,
        Phase::Busy => 0,
        Phase::Done(outcome) => match outcome {
            Outcome::Accepted => 0,
            Outcome::Refused(number, place) => number,
        },
    }
}

pub fn place(phase: Phase) -> usize
    ensures { result ≡ fault_place (phase_of phase) }
{
    match phase {
        Phase::Idle => 0,
        Phase::Busy => 0,
        Phase::Done(outcome) => match outcome {
            Outcome::Accepted => 0,
            Outcome::Refused(number, place) => place,
        },
    }
}

// One or none.
pub fn bit(b: bool) -> u8
    ensures { result ≡ definition.bit b }
{
    if b {
        return 1;
    }
    0
}

// A register read.
pub fn read(d: Device, register: u8) -> u8
    ensures { result ≡ read_of (device_of d) register }
{
    let phase = d.phase;
    match register {
        1 => status(phase),
        2 => bit(d.enable),
        3 => bit(d.flag),
        4 => (number(phase) % 256) as u8,
        5 => (place(phase) % 256) as u8,
        6 => (place(phase) / 256 % 256) as u8,
        7 => (place(phase) / 65536 % 256) as u8,
        8 => (place(phase) / 16777216 % 256) as u8,
        _ => 0,
    }
}
