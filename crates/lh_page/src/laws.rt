//! Laws over the definitions that the contracts cite.
ghost use Rattle.lh_page.specs.PackedList.{PackingLaw, PiecesLaw};
ghost use Rattle.lh_page.specs.PageLaws.{PageTextLaw, ReadBackLaw, FaultlessLaw};

/// The pages of a chain are its records cut into full pieces, and there is no other way to pack them.
pub fn pages_are_packed()
    ensures { PackingLaw }
{}

/// How many pages a chain has, and which records each of them holds.
pub fn pages_are_pieces()
    ensures { PiecesLaw }
{}

/// The table of a page is one row of bytes, and no other row has it.
pub fn a_page_is_its_bytes()
    ensures { PageTextLaw }
{}

/// What is written is read back, without a fault.
pub fn pages_read_back()
    ensures { ReadBackLaw }
{}

/// A page's bytes are the writing of their fields exactly where the reserved bytes are zero, the kind and the number
/// of records are in range, and no slot is faulty.
pub fn faultless_bytes_are_a_page()
    ensures { FaultlessLaw }
{}
