// The device's operations over a lent state of words: what the C functions call. A call that is refused changes nothing, neither state nor buffer.
#![tactic(auto)]

ghost use Rattle.std.specs.Prelude.{◌≡◌, ◌<◌, length};
ghost use Rattle.definition.specs.Verdict.{accepted};
ghost use Rattle.device_definition.specs.Device.{fresh as fresh_device, write as write_by};
ghost use Rattle.outcome.specs.Meaning.{outcome_of};
ghost use Rattle.numbers.specs.Numbers.{number_of, place_in};
ghost use Rattle.registers.specs.Meaning.{device_of};
ghost use Rattle.device_words.specs.Words.{device_in};
ghost use Rattle.device_calls.specs.Calls.{fresh_answer, fresh_state, line_call, read_call, state_after, write_call};

use device::Stepped;
use numbers::Fault;
use outcome::Outcome;

// A fresh device. Answers 0, or 16 where the state has another length.
pub fn fresh(state: &mut [u32]) -> u32
    ensures value { result ≡ fresh_answer state.old }
    ensures state_after { state.new ≡ fresh_state state.old }
    ensures state_after_2 { length state.old ≡ 1160 → device_in state.new ≡ fresh_device }
{
    if state.len() != device_words::WORDS {
        return 16;
    }
    device_words::pack(registers::fresh(), state);
    0
}

// What a step leaves in the words, and its answer.
fn leave(s: Stepped, state: &mut [u32]) -> Fault
    requires { length state.old ≡ 1160 }
    ensures number_value { result.number ≡ number_of (outcome_of s.outcome) }
    ensures place_value { result.place ≡ place_in (outcome_of s.outcome) }
    ensures state_after { state.new ≡ state_after (outcome_of s.outcome) state.old (device_of s.device) }
    ensures state_after_2 { (device_of s.device).taken < 4294967296 → (device_of s.device).treated < 4294967296 → outcome_of s.outcome ≡ accepted → device_in state.new ≡ device_of s.device }
{
    let outcome = s.outcome;
    let answer = numbers::of_outcome(outcome);
    if let Outcome::Refused(number, place) = outcome {
        return answer;
    }
    let next = s.device;
    device_words::pack(next, state);
    answer
}

// A byte written to a register.
pub fn write(state: &mut [u32], register: u8, value: u8, buffer: &mut [u8]) -> Fault
    ensures number_value { result.number ≡ number_of (write_call register value state.old buffer.old).outcome }
    ensures place_value { result.place ≡ place_in (write_call register value state.old buffer.old).outcome }
    ensures state_after { state.new ≡ (write_call register value state.old buffer.old).state }
    ensures buffer_after { buffer.new ≡ (write_call register value state.old buffer.old).buffer }
    ensures state_after_2 { length state.old ≡ 1160 → device_in state.new ≡ (write_by register value (device_in state.old) buffer.old).device }
{
    if state.len() != device_words::WORDS {
        return Fault {
            number: 16,
            place: 2,
        };
    }
    let d = device_words::unpack(state);
    let s = device::write(d, register, value, buffer);
    leave(s, state)
}

// A register read.
pub fn read(state: &[u32], register: u8) -> u8
    ensures { result ≡ read_call state.now register }
{
    if state.len() != device_words::WORDS {
        return 0;
    }
    registers::read(device_words::unpack(state), register)
}

// The line, 1 where it is up.
pub fn line(state: &[u32]) -> u8
    ensures { result ≡ line_call state.now }
{
    if state.len() != device_words::WORDS {
        return 0;
    }
    if registers::line(device_words::unpack(state)) {
        return 1;
    }
    0
}
