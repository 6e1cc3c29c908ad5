//! Laws of scans, each the contract of a function that does nothing: a caller whose proof needs a law calls it.
ghost use Rattle.lh_file.specs.Snapshots.ScannedKeys.{KeyScanLaw, OneHandLaw, TwiceLaw};

/// A scan that went on to its end, at once or after faults, by one hand or by several, has met each key once: no key is
/// in two of its copies, nor twice in one, whatever was split meanwhile. In a traced file the one copy that may have a
/// key has just what the log of its moment leaves of that, so a record that is in the file all along is met.
pub fn a_finished_scan_meets_each_key_once()
    ensures once { KeyScanLaw }
    ensures by_one_hand { OneHandLaw }
    ensures twice { TwiceLaw }
{}
