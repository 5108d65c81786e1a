// Answers as they cross the C interface: plain structs.
#![tactic(auto)]

pub mod answers;

// What the check and refinement answer.
#[repr(C)]
#[derive(Clone, Copy)]
pub struct CountsAnswer {
    pub number: u32,
    pub place: usize,
    pub v: usize,
    pub e: usize,
    pub f: usize,
}

// What every other call answers.
#[repr(C)]
#[derive(Clone, Copy)]
pub struct ValueAnswer {
    pub number: u32,
    pub place: usize,
    pub value: usize,
}
