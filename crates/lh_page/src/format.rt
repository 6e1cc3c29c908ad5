//! What the pages of an image have room for, by the version of the image.
ghost use Rattle.std.specs.Prelude.{◌≡◌, ◌≤◌};
ghost use Rattle.lh_page.specs.Format.{slot_size, slot_start, IsWithinLimits};

/// What the pages of an image have room for.
#[derive(Clone, Copy)]
pub struct Format {
    /// The slots of a page.
    pub slots: usize,
    /// The bytes of a slot for its record's key.
    pub key: usize,
    /// The bytes of a slot for its record's value.
    pub value: usize,
}

/// Version 1 of the image.
pub const VERSION_1: Format = Format {
    slots: 14,
    key: 30,
    value: 40,
};

/// Version 2 of the image.
pub const VERSION_2: Format = Format {
    slots: 24,
    key: 56,
    value: 112,
};

/// The bytes of a page before its slots.
pub const HEAD: usize = 16;

/// The bytes of a slot before its record's key: the lengths of key and value.
pub const LENGTHS: usize = 2;

/// The bytes of a page of version 1.
pub const PAGE_1: usize = HEAD + VERSION_1.slots * (LENGTHS + VERSION_1.key + VERSION_1.value);

/// The bytes of a page of version 2.
pub const PAGE_2: usize = HEAD + VERSION_2.slots * (LENGTHS + VERSION_2.key + VERSION_2.value);

impl Format {
    /// The bytes of a slot.
    pub fn slot_size(&self) -> usize
        requires { IsWithinLimits self.now }
        ensures { result ≡ slot_size self.now }
    {
        LENGTHS + self.key + self.value
    }

    /// Where a slot begins, and behind the last one where the page ends.
    pub fn slot_start(&self, place: usize) -> usize
        requires limits { IsWithinLimits self.now }
        requires within { place ≤ self.now.slots }
        ensures { result ≡ slot_start self.now place }
    {
        HEAD + place * self.slot_size()
    }
}
