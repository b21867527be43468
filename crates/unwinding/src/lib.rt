// What skipping and undoing codes mean on any machine: the definitions stand in specs/, over the type of the codes, their sizes, the
// state and one code's step. Nothing here knows ARM.
#![tactic(auto)]

use words::CodeBytes;

// An epilogue starts at an offset in bytes, or so that it ends where the function does.
#[derive(Clone, Copy)]
pub enum Start {
    From(u32),
    Ending,
}

// An epilogue as a record lists it: the index is that of its first code.
#[derive(Clone, Copy)]
pub struct Scope {
    pub start: Start,
    pub condition: u32,
    pub index: CodeBytes,
}
