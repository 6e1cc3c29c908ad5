//! What no contract says: how evenly keys are spread, that each call works, and which counts are refused.
mod calls;
mod looks;
mod memory;
mod narrow;
mod opened;
mod spread;
mod threads;
mod traced;
mod whole;
