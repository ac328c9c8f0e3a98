//! The exit statuses of tasks that succeeded.

/// The exit status of a task that succeeded.
pub const LEGAL_STATUS: u8 = 0;

/// The exit status of a check, a description or a repair that succeeded, if the design is not fully
/// legal.
pub const ILLEGAL_STATUS: u8 = 4;
