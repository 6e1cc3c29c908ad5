//! What no contract says: the right to split, acts and their counts, hands in threads, texts, and where memory is refused.
mod crew;
mod hands;
mod memory;
mod texts;
mod threads;
