//! The failure of a call that reaches outside.

/// A call failed. Whoever gives it has raised its count of faults in that call.
#[derive(Debug, Clone, Copy, PartialEq, Eq)]
pub struct Failed;
