//! What no contract says: worked histories, the first fault of each kind and its text, and listings of closed files.
mod closed_files;
mod settle_faults;
mod settling;
