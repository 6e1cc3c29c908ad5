//! What each code says.
ghost use Rattle.std.specs.Prelude.{◌<◌, ◌≤◌, length, IfSome, IsNone, IsSome};
ghost use Rattle.lhf.specs.Replies.{too_small};

/// What a code says, if there is such a code.
pub(crate) fn text_of(code: u32) -> Option<&'static str>
    ensures known { code ≤ too_small → IsSome result }
    ensures long { IfSome result (λ text. 1 ≤ length text.now) }
    ensures unknown { too_small < code → IsNone result }
{
    match code {
        0 => Some("there it is"),
        1 => Some("it begins neither with LHF1 nor with LHF2"),
        2 => Some("a field of the header is out of its range"),
        3 => Some("the header's number of pages or of records can't be"),
        4 => Some("it has fewer bytes than its pages"),
        5 => Some("it has more bytes than its pages"),
        6 => Some("a page's kind or a reserved byte of it is wrong"),
        7 => Some("a page's bucket is wrong"),
        8 => Some("a page's level isn't that of its bucket"),
        9 => Some("a page's number of records can't be"),
        10 => Some("a page names a wrong next page"),
        11 => Some("a page is the next one of two"),
        12 => Some("a page is on no chain"),
        13 => Some("a slot has no record, or isn't zeros"),
        14 => Some("a record belongs elsewhere, or its key stands before it"),
        15 => Some("there is no memory"),
        16 => Some("bytes, index and numbers aren't those of one check"),
        17 => Some("there is no such key, or no record more"),
        18 => Some("a setting is out of its range"),
        19 => Some("a key or a value has a length that none has"),
        20 => Some("it would have more than 1,048,576 pages"),
        21 => Some("there is too little room for it"),
        _ => None,
    }
}
