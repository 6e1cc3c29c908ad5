//! All pages of bytes that were opened, one after the other.
ghost use Rattle.std.specs.Prelude.{◌≡◌, length, IfErr, IfOk};
ghost use Rattle.lh_image.specs.LookUp.{IsOpenedImage};
ghost use Rattle.lh_image.specs.Pages.{HaveCome};
ghost use Rattle.lh_image.specs.Table.{AreWithin};

use crate::fault::ImageFault;
use crate::header::Header;
use crate::image::walk::page_at;
use crate::judge::page_checks::PageFaults;
use crate::reading::pages::take_page;
use crate::table::Table;
use lh_addr::Root;
use std::alloc::Global;

/// What is kept and noted of the pages behind the header.
pub(crate) fn pages_in(
    alloc: Global,
    bytes: &[u8],
    header: &Header,
    root: &Root,
) -> Result<(Table, PageFaults), ImageFault>
    requires { IsOpenedImage bytes.now header.now root.now }
    ensures within { IfOk result (λ r. AreWithin r.0.entries.items r.0.pairs.items) }
    ensures size { IfOk result (λ r. length r.0.entries.items ≡ header.now.pages) }
    ensures come { IfOk result (λ r.
        HaveCome bytes.now header.now header.now.pages r.0.entries.items r.0.pairs.items r.1) }
    ensures fault { IfErr result (λ f. f ≡ ImageFault.Memory) }
{
    let mut table = Table::new(alloc)?;
    let mut faults = PageFaults::new();
    for page in 1..header.pages {
        let own = page_at(bytes, header, root, page);
        take_page(own, header, root, page, &mut table, &mut faults)?;
    }
    Ok((table, faults))
}
