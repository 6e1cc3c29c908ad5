//! The part of a world that the rules of the steps speak of: all but its buckets.
ghost use Rattle.std.specs.Prelude.{◌≡◌, ◌<◌, ◌≤◌, ◌||◌};
ghost use Rattle.std.specs.List.{list_any};
ghost use Rattle.lh_addr.specs.Limits.{most_level};
ghost use Rattle.lh_core.specs.State.{local_level};
ghost use Rattle.lh_core.specs.Holds.{holds, holds_alone, split_holds, is_held, is_held_alone, is_barred};
ghost use Rattle.lh_core.specs.Control.{IsControl, control_state};

use crate::state::{SplitState, WorkerState};
use lh_addr::{Config, Root};
use lh_bucket::Call;

/// All of a world but its buckets: the root, a root of the filled buckets, and who does what. Which
/// buckets are held follows from that.
#[derive(Clone, Copy)]
pub(crate) struct Control {
    pub(crate) config: Config,
    pub(crate) root: Root,
    pub(crate) filled: Root,
    pub(crate) workers: [WorkerState; 16],
    pub(crate) splitter: SplitState,
}

/// A worker's call that is to be served at a bucket, at the bucket's own level.
#[derive(Clone, Copy)]
pub(crate) struct Act<'a> {
    pub(crate) call: &'a Call,
    pub(crate) level: u8,
    pub(crate) bucket: u32,
}

impl WorkerState {
    /// Whether a worker that does this holds a bucket.
    fn holds(&self, bucket: u32) -> bool
        ensures { result ≡ holds bucket self.now }
    {
        match self {
            WorkerState::Holding(_, _, m) => *m == bucket,
            WorkerState::Acted(_, m) => *m == bucket,
            _ => false,
        }
    }

    /// Whether it holds the bucket exclusively.
    fn holds_alone(&self, bucket: u32) -> bool
        ensures { result ≡ holds_alone bucket self.now }
    {
        match self {
            WorkerState::Holding(call, _, m) => *m == bucket && !call.is_search(),
            WorkerState::Acted(call, m) => *m == bucket && !call.is_search(),
            _ => false,
        }
    }
}

fn any_holds(workers: &[WorkerState], bucket: u32) -> bool
    ensures { result ≡ list_any (holds bucket) workers.now }
{
    workers.iter().any(|doing| doing.holds(bucket))
}

fn any_holds_alone(workers: &[WorkerState], bucket: u32) -> bool
    ensures { result ≡ list_any (holds_alone bucket) workers.now }
{
    workers.iter().any(|doing| doing.holds_alone(bucket))
}

impl Control {
    fn split_holds(&self, bucket: u32) -> bool
        requires { IsControl self.now }
        ensures { result ≡ split_holds self.now.config (control_state self.now) bucket }
    {
        match self.splitter {
            SplitState::Locked => bucket == self.root.pointer() || bucket == self.root.buckets(),
            SplitState::LockedMoved => {
                bucket == self.root.pointer() || bucket == self.root.buckets()
            }
            _ => false,
        }
    }

    /// Whether anyone holds a bucket.
    #[tactic(auto, unfolding(crate::specs::Holds::is_held))]
    pub(crate) fn is_held(&self, bucket: u32) -> bool
        requires { IsControl self.now }
        ensures { result ≡ is_held self.now.config (control_state self.now) bucket }
    {
        any_holds(&self.workers, bucket) || self.split_holds(bucket)
    }

    #[tactic(auto, unfolding(crate::specs::Holds::is_held_alone))]
    fn is_held_alone(&self, bucket: u32) -> bool
        requires { IsControl self.now }
        ensures { result ≡ is_held_alone self.now.config (control_state self.now) bucket }
    {
        any_holds_alone(&self.workers, bucket) || self.split_holds(bucket)
    }

    /// Whether a call may not lock a bucket now.
    #[tactic(auto, unfolding(crate::specs::Holds::is_barred))]
    pub(crate) fn is_barred(&self, call: &Call, bucket: u32) -> bool
        requires { IsControl self.now }
        ensures { result ≡ is_barred self.now.config (control_state self.now) call.now bucket }
    {
        if call.is_search() {
            self.is_held_alone(bucket)
        } else {
            self.is_held(bucket)
        }
    }

    /// The local level of a filled bucket.
    pub(crate) fn level(&self, bucket: u32) -> u8
        requires control { IsControl self.now }
        requires filled { bucket < self.now.filled.buckets }
        ensures value { result ≡ local_level self.now.config (control_state self.now) bucket }
        ensures low { result ≤ most_level }
    {
        self.filled.level_of(bucket)
    }
}
