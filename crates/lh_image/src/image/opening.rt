//! What the first page and the number of bytes decide.
ghost use Rattle.std.specs.Prelude.{◌≡◌, ◌*◌, length, IfOk};
ghost use Rattle.std.specs.Result.{result_err};
ghost use Rattle.lh_image.specs.Faults.{first_fault_of, size_rows};
ghost use Rattle.lh_image.specs.Header.{AreInRange};
ghost use Rattle.lh_image.specs.Layout.{header_of};
ghost use Rattle.lh_image.specs.LookUp.{OpensHeader};
ghost use Rattle.lh_image.specs.Version.{page_bytes, version_of};

use crate::fault::ImageFault;
use crate::header::Header;
use crate::reading::first_page::header_of;
use crate::version::Version;

/// The header that bytes begin with.
pub(crate) fn header_in(bytes: &[u8]) -> Result<Header, ImageFault>
    ensures header { OpensHeader bytes.now result }
    ensures in_range { IfOk result AreInRange }
{
    let Some(version) = Version::of(bytes) else {
        return Err(ImageFault::Magic);
    };
    if bytes.len() < version.page_bytes() {
        return Err(ImageFault::Short);
    }
    header_of(version, &bytes[..version.page_bytes()])
}

/// There are as many bytes as a header's pages have.
pub(crate) fn check_size(bytes: &[u8], header: &Header) -> Result<(), ImageFault>
    requires fields { header.now ≡ header_of bytes.now }
    requires in_range { AreInRange header.now }
    ensures fault { result_err result ≡ first_fault_of (size_rows bytes.now) }
    ensures size { IfOk result (λ _. length bytes.now ≡ page_bytes (version_of bytes.now) * header.now.pages) }
{
    let size = header.version.page_bytes() * header.pages as usize;
    if bytes.len() < size {
        return Err(ImageFault::Short);
    }
    if bytes.len() > size {
        return Err(ImageFault::Trailing);
    }
    Ok(())
}
