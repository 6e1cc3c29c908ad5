//! The pages behind the header, one after the other.
ghost use Rattle.std.specs.Prelude.{◌≡◌, ℕ, ◌+◌, ◌*◌, ◌<◌, ◌≤◌, List, length, drop, IfErr, IfOk, IfSome, OnOk, Some};
ghost use Rattle.lh_image.specs.Header.{AreInRange, HasHeader};
ghost use Rattle.lh_image.specs.Layout.{page};
ghost use Rattle.lh_image.specs.Pages.{HaveCome, ReadsAll, ReadsTo, ReadsEnd};
ghost use Rattle.lh_image.specs.Table.{AreWithin};
ghost use Rattle.lh_image.specs.Version.{page_bytes, slots, version_of};

use crate::fault::ImageFault;
use crate::header::Header;
use crate::judge::page_checks::PageFaults;
use crate::reading::filling::{read_into, read_whole};
use crate::reading::page::head_of;
use crate::table::Table;
use lh_addr::Root;
use lh_page::format::PAGE_2;
use std::alloc::Global;
use std::io::Read;

/// Takes one page more: keeps its records, and looks at it by itself.
pub(crate) fn take_page(
    bytes: &[u8],
    header: &Header,
    root: &Root,
    number: u32,
    table: &mut Table,
    faults: &mut PageFaults,
) -> Result<(), ImageFault>
    requires size { length bytes.now ≡ page_bytes header.now.version }
    requires room { header.now.config.capacity ≤ slots header.now.version }
    requires number { 1 ≤ number }
    requires sum { faults.old.sum ≤ 255 * number }
    requires root { root.now ≡ record { initial = header.now.config.initial; buckets = header.now.buckets } }
    requires within { AreWithin table.old.entries.items table.old.pairs.items }
    ensures within { OnOk result (AreWithin table.new.entries.items table.new.pairs.items) }
    ensures size { OnOk result (length table.new.entries.items ≡ length table.old.entries.items + 1) }
    ensures sum { OnOk result (faults.new.sum ≤ faults.old.sum + 255) }
    ensures come { (all : List ℕ) → bytes.now ≡ page all number →
        page_bytes (version_of all) * (number + 1) ≤ length all →
        HaveCome all header.now number table.old.entries.items table.old.pairs.items faults.old →
        OnOk result
        (HaveCome all header.now (number + 1) table.new.entries.items table.new.pairs.items faults.new) }
    ensures fault { IfErr result (λ f. f ≡ ImageFault.Memory) }
{
    let head = head_of(header.version, bytes);
    let has_bad_slot = table.push(header, &head, bytes)?;
    faults.see(header, root, number, &head, has_bad_slot);
    Ok(())
}

/// Reads one page more into these bytes, and takes it.
fn read_page<R: Read>(
    reader: &mut R,
    bytes: &mut [u8],
    header: &Header,
    root: &Root,
    page: u32,
    table: &mut Table,
    faults: &mut PageFaults,
) -> Result<(), ImageFault>
    requires size { length bytes.old ≡ page_bytes header.now.version }
    requires room { header.now.config.capacity ≤ slots header.now.version }
    requires page { 1 ≤ page }
    requires sum { faults.old.sum ≤ 255 * page }
    requires root { root.now ≡ record { initial = header.now.config.initial; buckets = header.now.buckets } }
    requires within { AreWithin table.old.entries.items table.old.pairs.items }
    ensures within { OnOk result (AreWithin table.new.entries.items table.new.pairs.items) }
    ensures size { OnOk result (length table.new.entries.items ≡ length table.old.entries.items + 1) }
    ensures sum { OnOk result (faults.new.sum ≤ faults.old.sum + 255) }
    ensures read { (bytes : List ℕ) →
        R.remaining reader.old ≡ Some (drop (page_bytes (version_of bytes) * page) bytes) →
        HaveCome bytes header.now page table.old.entries.items table.old.pairs.items faults.old →
        ReadsTo bytes header.now (page + 1) result table.new.entries.items table.new.pairs.items faults.new
        (R.remaining reader.new) }
{
    read_whole(reader, bytes)?;
    take_page(bytes, header, root, page, table, faults)
}

/// Reads the pages behind the header.
pub(crate) fn read_pages<R: Read>(
    alloc: Global,
    header: &Header,
    reader: &mut R,
) -> Result<(Table, PageFaults), ImageFault>
    requires { AreInRange header.now }
    ensures within { IfOk result (λ r. AreWithin r.0.entries.items r.0.pairs.items) }
    ensures size { IfOk result (λ r. length r.0.entries.items ≡ header.now.pages) }
    ensures read { (bytes : List ℕ) → HasHeader header.now bytes (R.remaining reader.old) →
        ReadsAll bytes header.now result (R.remaining reader.new) }
{
    let root = header.config.root(header.buckets);
    let mut table = Table::new(alloc)?;
    let mut faults = PageFaults::new();
    let mut room = [0; PAGE_2];
    let bytes = &mut room[..header.version.page_bytes()];
    for page in 1..header.pages {
        read_page(reader, bytes, header, &root, page, &mut table, &mut faults)?;
    }
    Ok((table, faults))
}

/// There is no byte behind the last page.
pub(crate) fn read_end<R: Read>(reader: &mut R) -> Result<(), ImageFault>
    ensures { IfSome (R.remaining reader.old) (λ rest. ReadsEnd rest result (R.remaining reader.new)) }
{
    let mut byte = [0; 1];
    if read_into(reader, &mut byte)? == 0 {
        Ok(())
    } else {
        Err(ImageFault::Trailing)
    }
}
