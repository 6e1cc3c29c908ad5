//! From the table of all pages to the listing.
ghost use Rattle.std.specs.Prelude.{◌≡◌, None, length, map, IfOk, IfErr};
ghost use Rattle.std.specs.List.{range_with_len};
ghost use Rattle.lh_image.specs.Header.{AreInRange};
ghost use Rattle.lh_image.specs.Chains.{chain};
ghost use Rattle.lh_image.specs.Faults.{first_fault_of, link_rows};
ghost use Rattle.lh_image.specs.Listed.{IsMemoryOr, IsViewKept, IsLate};
ghost use Rattle.lh_image.specs.Reading.{IsDueAnswer, judged};
ghost use Rattle.lh_image.specs.Table.{AreWithin, links_in, next_in};
ghost use Rattle.lh_image.specs.View.{View};

use crate::fault::ImageFault;
use crate::header::Header;
use crate::judge::chains::{all_chains, least_on_no_chain};
use crate::judge::links::{least_bad_next, least_named_twice};
use crate::judge::lists::lists_of;
use crate::judge::misplaced::least_misfit;
use crate::judge::page_checks::PageFaults;
use crate::table::Table;
use lh_bucket::Listing;
use std::alloc::Global;

/// The chain of each bucket, or the first fault between the pages.
fn chains_of(alloc: Global, header: &Header, table: &Table) -> Result<Vec<Vec<u32>>, ImageFault>
    requires in_range { AreInRange header.now }
    requires size { length table.now.entries.items ≡ header.now.pages }
    ensures faultless { IfOk result (λ v.
        first_fault_of (link_rows (links_in table.now.entries.items header.now.buckets)) ≡ None) }
    ensures chains { IfOk result (λ v. map (λ chain. chain.items) v.items
        ≡ map (chain (next_in table.now.entries.items) (length table.now.entries.items))
        (range_with_len 0 header.now.buckets)) }
    ensures fault { IfErr result (λ f. IsMemoryOr f
        (first_fault_of (link_rows (links_in table.now.entries.items header.now.buckets)))) }
    ensures late { IfErr result IsLate }
{
    if let Some(page) = least_bad_next(&table.entries, header.buckets) {
        return Err(ImageFault::Next(page));
    }
    if let Some(page) = least_named_twice(alloc, &table.entries)? {
        return Err(ImageFault::Twice(page));
    }
    let chains = all_chains(alloc, &table.entries, header.buckets)?;
    match least_on_no_chain(alloc, header.pages, &chains)? {
        Some(page) => Err(ImageFault::Never(page)),
        None => Ok(chains),
    }
}

/// The listing of a file of the right size, or its first fault.
pub(crate) fn listing_of_pages(
    alloc: Global,
    header: &Header,
    table: &Table,
    faults: &PageFaults,
) -> Result<Listing, ImageFault>
    requires in_range { AreInRange header.now }
    requires size { length table.now.entries.items ≡ header.now.pages }
    requires within { AreWithin table.now.entries.items table.now.pairs.items }
    ensures exact { (v : View) → v.header ≡ header.now →
        IsViewKept v table.now.entries.items table.now.pairs.items faults.now →
        IsDueAnswer (λ listing l. listing ≡ l) result (judged v) }
    ensures late { IfErr result IsLate }
{
    faults.of_heads(header.records)?;
    let chains = chains_of(alloc, header, table)?;
    faults.of_slots()?;
    let lists = lists_of(alloc, table, &chains)?;
    if let Ok(listing) = Listing::new(alloc, header.config, header.buckets, lists) {
        return Ok(listing);
    }
    // Of the pages with a record at fault the least is answered.
    let root = header.config.root(header.buckets);
    match least_misfit(alloc, &root, table, &chains)? {
        Some(page) => Err(ImageFault::Misfit(page)),
        // Lists without a fault are refused only when memory runs out.
        None => Err(ImageFault::Memory),
    }
}
