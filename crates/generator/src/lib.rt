// The load's seed, its generator by value, and its draws below a limit.
#![tactic(auto)]

ghost use Rattle.std.specs.Prelude.{◌≡◌, ◌<◌, length, get_or};
ghost use Rattle.definition.specs.Load.{step as step_of, draw_below, seed_of};
ghost use Rattle.generator.specs.Draws.{draw_many};

#[derive(Clone, Copy)]
pub struct Generator {
    pub v: u32,
}

// What is drawn, and the generator as it then is.
#[derive(Clone, Copy)]
pub struct Draw {
    pub value: u32,
    pub next: Generator,
}

impl Generator {
    // v xor (v shifted left 13), then xor right 17, then xor left 5, on 32 bits.
    pub fn step(self) -> Generator
        ensures { result.v ≡ step_of self.v }
    {
        let v = self.v;
        let a = v ^ (v << 13);
        let b = a ^ (a >> 17);
        Generator { v: b ^ (b << 5) }
    }

    // One of 0 to limit - 1.
    pub fn below(self, limit: u32) -> Draw
        requires { 0 < limit }
        ensures { record { value = result.value; next = result.next.v } ≡ draw_below limit self.v }
    {
        let next = self.step();
        Draw {
            value: next.v % limit,
            next: next,
        }
    }

    // A draw below the limit for each place; answers the generator as it then is.
    pub fn fill(self, limit: u32, out: &mut [u32]) -> Generator
        requires { 0 < limit }
        ensures { record { value = out.new; next = result.v } ≡ draw_many limit (length out.old) self.v }
    {
        let mut generator = self;
        for i in 0..out.len() {
            let d = generator.below(limit);
            out[i] = d.value;
            generator = d.next;
        }
        generator
    }
}

// The word in the first four bytes, the least significant first.
pub fn seed(bytes: &[u8]) -> u32
    ensures { result ≡ seed_of bytes.now }
{
    // byte i, or 0 where it is missing
    let at = |i: usize| bytes.get(i).copied().unwrap_or(0);
    u32::from_le_bytes([at(0), at(1), at(2), at(3)])
}
