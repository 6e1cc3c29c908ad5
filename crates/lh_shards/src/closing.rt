//! How shards are closed.
ghost use Rattle.std.specs.Prelude.{IfOk};
ghost use Rattle.lh_file.specs.FileState.{IsOf};
ghost use Rattle.lh_shards.specs.Closing.{AreClosedBy, IsClosedBy};
ghost use Rattle.lh_shards.specs.Hands.{AreOf};

use crate::closed::ClosedShards;
use crate::closed_shard::ClosedShard;
use crate::hands::Hands;
use crate::shards::SizedShards;
use lh_file::{FileBrand, Hand, Memory, Mode, NoGate, SizedFile};
use std::sync::Wait;

/// Closes one file by its hand.
fn close_shard<M: Mode, J: FileBrand, R: Wait, const ROOM: usize>(
    rt: &R,
    file: SizedFile<NoGate, M, J, ROOM>,
    hand: Hand,
) -> Result<ClosedShard, Memory>
    requires { IsOf file.state hand }
    ensures { IfOk result (IsClosedBy M.traced file.state hand) }
{
    let (closed, acts) = file.close(rt, hand)?;
    Ok(ClosedShard { closed, acts })
}

impl<M: Mode, J: FileBrand, const ROOM: usize> SizedShards<M, J, ROOM> {
    /// Closes all files, each by the hand of its shard: how far each has grown, with the records of its buckets, and
    /// the acts of that hand. Hands that were not joined into these are lost with their acts. Without memory for the
    /// records, the files and the hands are gone.
    ///
    /// What was done with each file of traced shards is one legal history, as
    /// [`HashFile::close`](lh_file::HashFile::close) says of it.
    pub fn close<R: Wait>(self, rt: &R, hands: Hands) -> Result<ClosedShards, Memory>
        requires { AreOf self hands }
        ensures { IfOk result (AreClosedBy M.traced self hands) }
    {
        let count = self.count() as usize;
        let SizedShards { files } = self;
        let Hands { hands } = hands;
        let mut shards = Vec::with_capacity(*files.allocator(), count)?;
        let mut files = files.into_iter();
        let mut hands = hands.into_iter();
        for _shard in 0..count {
            let Some(file) = files.next() else {
                unreachable!()
            };
            let Some(hand) = hands.next() else {
                unreachable!()
            };
            let shard = close_shard(rt, file, hand)?;
            shards.push(shard)?;
        }
        Ok(ClosedShards { shards })
    }
}
