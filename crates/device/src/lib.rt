// The judge behind registers: a byte written to a register, with the buffer lent for the call.
#![tactic(auto)]

ghost use Rattle.std.specs.Prelude.{◌≡◌, take};
ghost use Rattle.device_definition.specs.Device.{command as command_by, start as start_by, write as write_by, written as written_by};
ghost use Rattle.outcome.specs.Meaning.{outcome_of};
ghost use Rattle.registers.specs.Meaning.{device_of};

use outcome::Outcome;
use registers::Device;

// What a call answers, and the device after it.
#[derive(Clone, Copy)]
pub struct Stepped {
    pub outcome: Outcome,
    pub device: Device,
}

// The bytes taken, at the front of the buffer.
fn taken(buffer: &[u8], count: usize) -> &[u8]
    ensures { result.now ≡ take count buffer.now }
{
    if buffer.len() < count {
        return &buffer[..buffer.len()];
    }
    &buffer[..count]
}

// A start, of the bytes taken: a refusal is done at once.
fn start(d: Device, file: &[u8]) -> Device
    ensures { device_of result ≡ start_by (device_of d) file.now }
{
    let began = registers::began(d);
    let tests = start_tests::start_tests(file);
    if let Outcome::Refused(number, place) = tests {
        return registers::ended(began, Outcome::Refused(number, place));
    }
    began
}

// Register 0 written: 1 starts, 2 clears.
fn command(d: Device, value: u8, file: &[u8]) -> Device
    ensures { device_of result ≡ command_by value (device_of d) file.now }
{
    if value == 1 {
        return start(d, file);
    }
    if value == 2 {
        return registers::cleared(d);
    }
    d
}

// A byte written that no test refuses and that is no data.
fn written(d: Device, register: u8, value: u8, buffer: &[u8]) -> Device
    requires { register ≡ 9 → ⊥ }
    ensures { device_of result ≡ written_by register value (device_of d) buffer.now }
{
    if register == 0 {
        return command(d, value, taken(buffer, d.taken));
    }
    if register == 2 {
        return registers::enabled(d, value);
    }
    if register == 3 {
        return registers::flagged(d, value);
    }
    d
}

// A byte written to a register.
pub fn write(d: Device, register: u8, value: u8, buffer: &mut [u8]) -> Stepped
    ensures outcome_value { outcome_of result.outcome ≡ (write_by register value (device_of d) buffer.old).outcome }
    ensures device_value { device_of result.device ≡ (write_by register value (device_of d) buffer.old).device }
    ensures buffer_after { buffer.new ≡ (write_by register value (device_of d) buffer.old).buffer }
{
    let tests = registers::write_tests(d, register, value, buffer);
    if let Outcome::Refused(number, place) = tests {
        return Stepped {
            outcome: Outcome::Refused(number, place),
            device: d,
        };
    }
    if register == 9 {
        let at = d.taken;
        buffer[at] = value;
        let next = registers::took_byte(d);
        return Stepped {
            outcome: Outcome::Accepted,
            device: next,
        };
    }
    let next = written(d, register, value, buffer);
    Stepped {
        outcome: Outcome::Accepted,
        device: next,
    }
}
