//! What no contract says.
mod building;
mod census;
mod checked;
mod faults;
mod faults_2;
mod leading;
mod looking;
mod memory;
mod old_limits;
mod pages;
mod reading;
mod round_trip;
mod streams;
mod version_2;
mod writing;
