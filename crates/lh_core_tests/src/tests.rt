//! Lists of steps, calls one after another, and texts.

mod calls;
mod equality;
mod memory;
mod opened;
mod refusing;
mod serial;
mod steps;
mod texts;
