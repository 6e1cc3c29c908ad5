//! What no contract says: what each call tells, eight threads that make them of the same keys, and where memory is refused.
mod atomic;
mod memory;
