//! A gate is one byte: what follows it is valid only if the gate is open.

/// A gate with this byte is open. With any other byte it is closed.
pub const OPEN_GATE: u8 = 165;

/// The byte that closes a gate.
pub const CLOSED_GATE: u8 = 0;
