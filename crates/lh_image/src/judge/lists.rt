//! The lists of records that faultless pages hold.
ghost use Rattle.std.specs.Prelude.{◌≡◌, length, map, IfOk, IfErr};
ghost use Rattle.std.specs.List.{flat_map};
ghost use Rattle.std.specs.Io.Iter.{u64_saturate};
ghost use Rattle.lh_image.specs.Table.{AreWithin, page_records};

use crate::fault::ImageFault;
use crate::table::Table;
use lh_page::Pair;
use std::alloc::Global;

/// How many records the pages of a chain have, where that is below 2^64.
fn count_of(table: &Table, chain: &[u32]) -> usize
    requires { AreWithin table.now.entries.items table.now.pairs.items }
    ensures { result ≡ u64_saturate
        (length (flat_map (page_records table.now.entries.items table.now.pairs.items) chain.now)) }
{
    let mut count = 0_usize;
    for page in chain {
        count = count.saturating_add(table.records(*page).len());
    }
    count
}

/// The records of a chain. Room for all of them is got at once.
fn list_of(alloc: Global, table: &Table, chain: &[u32]) -> Result<Vec<Pair>, ImageFault>
    requires { AreWithin table.now.entries.items table.now.pairs.items }
    ensures ok { IfOk result (λ v. v.items ≡ flat_map
        (page_records table.now.entries.items table.now.pairs.items) chain.now) }
    ensures fault { IfErr result (λ f. f ≡ ImageFault.Memory) }
{
    let mut list = Vec::with_capacity(alloc, count_of(table, chain))?;
    for page in chain {
        list.extend_from_slice(table.records(*page))?;
    }
    Ok(list)
}

/// The records of each chain.
pub(crate) fn lists_of(
    alloc: Global,
    table: &Table,
    chains: &[Vec<u32>],
) -> Result<Vec<Vec<Pair>>, ImageFault>
    requires { AreWithin table.now.entries.items table.now.pairs.items }
    ensures ok { IfOk result (λ v. map (λ list. list.items) v.items
        ≡ map (λ chain. flat_map (page_records table.now.entries.items table.now.pairs.items) chain.items)
        chains.now) }
    ensures fault { IfErr result (λ f. f ≡ ImageFault.Memory) }
{
    let mut lists = Vec::new(alloc);
    for chain in chains {
        lists.push(list_of(alloc, table, chain)?)?;
    }
    Ok(lists)
}
