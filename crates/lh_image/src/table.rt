//! What is kept of the pages that came: where each leads, and its records.
ghost use Rattle.std.specs.Prelude.{◌≡◌, ◌++◌, ◌∷◌, ◌≤◌, [], length, IfOk, IfErr, OnOk};
ghost use Rattle.lh_page.specs.PageFields.{fault_of, head_of};
ghost use Rattle.lh_image.specs.Table.{AreWithin, IsPushed, is_of_slot, no_entry, page_records};
ghost use Rattle.lh_image.specs.Version.{format_of, page_bytes, slots};

use crate::fault::ImageFault;
use crate::header::Header;
use lh_page::{PageFault, PageHead, Pair, Pairs, pairs_behind_head};
use std::alloc::Global;

/// Where a page leads, and where its records stand among those of all pages.
#[derive(Clone, Copy)]
pub(crate) struct PageEntry {
    pub bucket: u32,
    /// The next page of the chain, 0 for none.
    pub next: u32,
    pub start: usize,
    pub used: usize,
}

/// The pages that came, by their numbers, and the records of all of them.
#[derive(Drop)]
pub(crate) struct Table {
    pub entries: Vec<PageEntry>,
    pub pairs: Vec<Pair>,
    // Room for the records of one page.
    page: Pairs,
}

/// Appends the records of a page.
fn append(pairs: &mut Vec<Pair>, page: &Pairs) -> Result<(), ImageFault>
    ensures ok { OnOk result (pairs.new.items ≡ pairs.old.items ++ page.now) }
    ensures fault { IfErr result (λ f. f ≡ ImageFault.Memory) }
{
    for place in 0..page.len() {
        pairs.push(page.at(place))?;
    }
    Ok(())
}

impl Table {
    /// The table of the header alone, which is on no chain.
    pub(crate) fn new(alloc: Global) -> Result<Self, ImageFault>
        ensures entries { IfOk result (λ table. table.entries.items ≡ no_entry ∷ []) }
        ensures pairs { IfOk result (λ table. table.pairs.items ≡ []) }
        ensures fault { IfErr result (λ f. f ≡ ImageFault.Memory) }
    {
        let mut entries = Vec::new(alloc);
        entries.push(PageEntry {
            bucket: 0,
            next: 0,
            start: 0,
            used: 0,
        })?;
        Ok(Table {
            entries,
            pairs: Vec::new(alloc),
            page: Pairs::new(),
        })
    }

    /// Takes one page more: whether a slot of it is at fault. Of a page at fault the records aren't kept.
    pub(crate) fn push(
        &mut self,
        header: &Header,
        head: &PageHead,
        bytes: &[u8],
    ) -> Result<bool, ImageFault>
        requires head { head.now ≡ head_of bytes.now }
        requires size { length bytes.now ≡ page_bytes header.now.version }
        requires room { header.now.config.capacity ≤ slots header.now.version }
        ensures pushed { OnOk result (IsPushed self.old.entries.items self.old.pairs.items self.new.entries.items
            self.new.pairs.items head.now.bucket head.now.next header.now.version bytes.now
            header.now.config.capacity) }
        ensures slot { IfOk result (λ bad. bad
            ≡ is_of_slot (fault_of (format_of header.now.version) bytes.now header.now.config.capacity)) }
        ensures fault { IfErr result (λ f. f ≡ ImageFault.Memory) }
    {
        let start = self.pairs.len();
        let format = header.version.format();
        let capacity = header.config.capacity();
        let has_bad_slot = match pairs_behind_head(head, bytes, format, capacity, &mut self.page) {
            Ok(()) => {
                append(&mut self.pairs, &self.page)?;
                false
            }
            Err(PageFault::Slot(_)) => true,
            Err(_) => false,
        };
        self.entries.push(PageEntry {
            bucket: head.bucket,
            next: head.next,
            start,
            used: self.pairs.len() - start,
        })?;
        Ok(has_bad_slot)
    }

    /// The records of a page, none where there is no such page.
    #[tactic(auto, unfolding(crate::specs::Table::page_records))]
    pub(crate) fn records(&self, page: u32) -> &[Pair]
        requires { AreWithin self.now.entries.items self.now.pairs.items }
        ensures { result.now ≡ page_records self.now.entries.items self.now.pairs.items page }
    {
        if page as usize >= self.entries.len() {
            return &[];
        }
        let entry = self.entries[page as usize];
        &self.pairs[entry.start..entry.start + entry.used]
    }
}
