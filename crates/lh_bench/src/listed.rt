//! The records of a table as listings, one a file: what images are written of.
ghost use Rattle.std.specs.Prelude.{length};
ghost use Rattle.lh_shards.specs.Hands.{IsCount};

use crate::on_file::OnFile;
use crate::on_shards::OnShards;
use crate::order::Order;
use crate::table::Table;
use crate::workloads::{empty_file, empty_shards, load};
use anyhow::Result;
use lh_bucket::{Listing, WIDEST_ROOM};
use std::sync::Wait;

/// The listings of a table that records were inserted into, one a file.
#[derive(Drop)]
pub struct Listed {
    pub listings: Vec<Listing>,
    /// Whether all records were inserted.
    pub has_all: bool,
    ghost count: { IsCount (length listings.items) },
}

/// Inserts the records into an empty table, and lists snapshots of its files.
pub fn list<T: Table, R: Wait + AllocGlobal>(rt: &R, table: T, order: &Order) -> Result<Listed> {
    let mut caller = load(rt, table, order, 1);
    let mut listings = Vec::new(rt.alloc());
    for snapshot in caller.table.snapshots(rt)? {
        listings.push(snapshot.into_known_listing())?;
    }
    Ok(Listed {
        listings,
        has_all: caller.tally.inserted == order.records,
    })
}

/// Inserts the records into an empty table of the order's kind, and lists it.
pub fn list_table<R: Wait + AllocGlobal>(rt: &R, order: &Order) -> Result<Listed> {
    match order.shards {
        None => {
            let (file, hand) = empty_file(rt.alloc(), false)?;
            list(rt, OnFile::new(&file, hand), order)
        }
        Some(shards) => {
            let (shards, hands) = empty_shards::<WIDEST_ROOM>(rt.alloc(), shards)?;
            list(rt, OnShards::new(&shards, hands), order)
        }
    }
}
