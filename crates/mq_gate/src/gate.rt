//! The gate that a script's worker passes before each try of a call.

/// A script's next line: places in the scenario, from 0.
#[derive(Clone, Copy)]
pub struct Point {
    /// The script's place in the scenario.
    pub script: u16,
    /// The line's place in the script.
    pub line: u32,
}

/// What a script's worker calls before each try of a call in a phase, outside every lock. It may hold its thread, so that
/// calls of two scripts are seen to overlap.
pub trait Gate {
    /// Returns where the worker may go on.
    fn pass(&self, point: &Point);
}

/// A gate that holds nobody.
#[derive(Clone, Copy)]
pub struct OpenGate;

impl Gate for OpenGate {
    fn pass(&self, _point: &Point) {}
}
