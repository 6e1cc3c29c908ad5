//! Whole images that are looked at where they stand.
ghost use Rattle.std.specs.Prelude.{◌≡◌, length, true};
ghost use Rattle.lh_image.specs.Checked.{IsChecked};
ghost use Rattle.lh_image.specs.LookUp.{IsOpenedImage};

use crate::checked::apart::are_apart;
use crate::checked::index::PageIndex;
use crate::checked::plain::are_plain;
use crate::header::Header;
use crate::laws::faultless_bytes_are_an_image;
use lh_addr::Root;

/// Whether bytes that were opened are an image without long chains, whose records are looked at where they stand. Then
/// the index has what look-ups want of its pages. No memory is taken.
pub(crate) fn is_plain(bytes: &[u8], header: &Header, root: &Root, index: &mut [PageIndex]) -> bool
    requires opened { IsOpenedImage bytes.now header.now root.now }
    requires size { length index.old ≡ header.now.pages }
    ensures size { length index.new ≡ length index.old }
    ensures checked { result ≡ true → IsChecked bytes.now header.now root.now index.new }
{
    // Its law: bytes without a fault are an image.
    faultless_bytes_are_an_image();
    are_plain(bytes, header, root, index) && are_apart(bytes, header.version, index, header.buckets)
}
