//! The faults of pages by themselves: of each, the least page that has it.
ghost use Rattle.std.specs.Prelude.{◌≡◌, ℕ, ◌*◌, ◌≤◌, None, option_map};
ghost use Rattle.std.specs.Result.{result_err};
ghost use Rattle.lh_image.specs.Faults.{bad_bucket, bad_kind, bad_used, first_fault_of};
ghost use Rattle.lh_image.specs.PageChecks.{known_bad_level, noted, noted_rows, seen};

use crate::fault::ImageFault;
use crate::header::Header;
use lh_addr::Root;
use lh_page::PageHead;

/// The least page of each fault that a page has by itself, and the number of records of all pages.
#[derive(Clone, Copy)]
pub(crate) struct PageFaults {
    kind: Option<u32>,
    bucket: Option<u32>,
    level: Option<u32>,
    used: Option<u32>,
    slot: Option<u32>,
    sum: u64,
}

/// Notes a page that has a fault, unless one was noted before.
fn note(least: &mut Option<u32>, page: u32, at_fault: bool)
    ensures { least.new ≡ noted least.old page at_fault }
{
    if at_fault && least.is_none() {
        *least = Some(page);
    }
}

/// Whether a page isn't of the kind of its place, or a reserved byte isn't zero.
#[tactic(auto, unfolding(crate::specs::Faults::bad_kind))]
pub(crate) fn has_bad_kind(header: &Header, page: u32, head: &PageHead) -> bool
    ensures { result ≡ bad_kind header.now page head.now }
{
    let kind = if page <= header.buckets { 1 } else { 2 };
    head.kind != kind || !head.clear
}

/// Whether a page has another bucket than its own, or one that the file hasn't.
#[tactic(auto, unfolding(crate::specs::Faults::bad_bucket))]
pub(crate) fn has_bad_bucket(header: &Header, page: u32, head: &PageHead) -> bool
    requires { 1 ≤ page }
    ensures { result ≡ bad_bucket header.now page head.now }
{
    page <= header.buckets && head.bucket != page - 1 || head.bucket >= header.buckets
}

/// Whether a page's level isn't the local level of its bucket, where the file has that bucket.
#[tactic(auto, unfolding(crate::specs::Faults::bad_level))]
pub(crate) fn has_bad_level(header: &Header, root: &Root, head: &PageHead) -> bool
    requires { root.now ≡ record { initial = header.now.config.initial; buckets = header.now.buckets } }
    ensures { (page : ℕ) → result ≡ known_bad_level header.now page head.now }
{
    head.bucket < header.buckets && head.level != root.level_of(head.bucket)
}

/// Whether a page can't have this many records.
#[tactic(auto, unfolding(crate::specs::Faults::bad_used))]
pub(crate) fn has_bad_used(header: &Header, head: &PageHead) -> bool
    ensures { (page : ℕ) → result ≡ bad_used header.now page head.now }
{
    let used = head.used as u32;
    let capacity = header.config.capacity();
    used > capacity || head.next != 0 && used < capacity || head.kind == 2 && used == 0
}

impl PageFaults {
    ghost use Rattle.std.specs.Prelude.{IfErr};
    ghost use Rattle.lh_image.specs.Listed.{IsLate};

    /// No page was seen.
    pub(crate) fn new() -> Self
        ensures { result ≡ record { kind = None; bucket = None; level = None; used = None; slot = None; sum = 0 } }
    {
        PageFaults {
            kind: None,
            bucket: None,
            level: None,
            used: None,
            slot: None,
            sum: 0,
        }
    }

    /// Looks at one page more.
    pub(crate) fn see(
        &mut self,
        header: &Header,
        root: &Root,
        page: u32,
        head: &PageHead,
        has_bad_slot: bool,
    )
        requires page { 1 ≤ page }
        requires sum { self.old.sum ≤ 255 * page }
        requires root { root.now ≡ record { initial = header.now.config.initial; buckets = header.now.buckets } }
        ensures { self.new ≡ seen self.old header.now page head.now has_bad_slot }
    {
        note(&mut self.kind, page, has_bad_kind(header, page, head));
        note(&mut self.bucket, page, has_bad_bucket(header, page, head));
        note(&mut self.level, page, has_bad_level(header, root, head));
        note(&mut self.used, page, has_bad_used(header, head));
        note(&mut self.slot, page, has_bad_slot);
        self.sum += head.used as u64;
    }

    /// The first fault of the pages' heads.
    #[tactic(auto, unfolding(crate::specs::Faults::first_fault_of))]
    pub(crate) fn of_heads(&self, records: u64) -> Result<(), ImageFault>
        ensures fault { result_err result ≡ first_fault_of (noted_rows self.now records) }
        ensures late { IfErr result IsLate }
    {
        if let Some(page) = self.kind {
            return Err(ImageFault::Kind(page));
        }
        if let Some(page) = self.bucket {
            return Err(ImageFault::BucketNumber(page));
        }
        if let Some(page) = self.level {
            return Err(ImageFault::Level(page));
        }
        if self.sum != records {
            return Err(ImageFault::Used(0));
        }
        match self.used {
            Some(page) => Err(ImageFault::Used(page)),
            None => Ok(()),
        }
    }

    /// The fault of the pages' slots.
    pub(crate) fn of_slots(&self) -> Result<(), ImageFault>
        ensures fault { result_err result ≡ option_map ImageFault.Slot self.now.slot }
        ensures late { IfErr result IsLate }
    {
        match self.slot {
            Some(page) => Err(ImageFault::Slot(page)),
            None => Ok(()),
        }
    }
}
