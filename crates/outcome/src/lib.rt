// What tests and operations answer.
#![tactic(auto)]

// Accepted, or a fault with number and place. An enum of its own and no Result: the scope of the project names this form, and a device's state, which a caller
// makes up, may hold any number.
#[derive(Clone, Copy)]
pub enum Outcome {
    Accepted,
    Refused(u32, usize),
}

// An outcome and a count of reads.
#[derive(Clone, Copy)]
pub struct Verdict {
    pub outcome: Outcome,
    pub reads: usize,
}

// Done with a count, or a refusal with number and place.
#[derive(Clone, Copy)]
pub enum Answer {
    Done(usize),
    Refusal(u32, usize),
}
