//! The bars of a drawing and what belongs to them, each as the SVG text that a type displays.
ghost use Rattle.std.specs.Prelude.{◌≡◌, Some};
ghost use Rattle.lh_draw.specs.DrawingTexts.{bar_text, colour_of, cuts_text, dashes_text, more_text, part_text};

use crate::sizes::{MOST_DRAWN, NUMBER_FOOT, PAGE_GAP, PAGE_HEIGHT};
use std::fmt;

/// The colour of a bucket that was split at the file's level or came of such a split, or of another;
/// for slots in use or free ones. The orange and the blue are two that colour-blind readers can tell apart (Okabe and
/// Ito, "Color Universal Design", 2002), and free slots have three parts of ten of them on white.
fn colour_of(is_next: bool, is_used: bool) -> &'static str
    ensures { result.now ≡ colour_of is_next is_used }
{
    if is_next {
        if is_used { "#e69f00" } else { "#f8e2b3" }
    } else {
        if is_used { "#0072b2" } else { "#b3d5e8" }
    }
}

/// A part of a bar, which rises from its foot.
#[derive(Clone, Copy)]
struct BarPart {
    left: u32,
    foot: u32,
    width: u32,
    height: u32,
    is_next: bool,
    is_used: bool,
}

impl fmt::Display for BarPart {
    ghost output = { λ part. Some (part_text part) };

    #[tactic(auto, unfolding(crate::specs::DrawingTexts::part_text))]
    fn fmt<W: fmt::Write>(&self, f: &mut fmt::Formatter<W>) -> fmt::Result {
        let BarPart {
            left,
            foot,
            width,
            height,
            is_next,
            is_used,
        } = *self;
        let colour = colour_of(is_next, is_used);
        write!(
            f,
            "<path fill='{colour}' d='M{left} -{foot}v-{height}h{width}v{height}z'/>"
        )
    }
}

/// A bar: it stands on a foot above the floor, and is coloured from there as far as it is used. `is_next` says
/// that its bucket was split at the file's level or came of such a split.
#[derive(Clone, Copy)]
pub struct Bar {
    pub left: u32,
    pub foot: u32,
    pub width: u32,
    pub height: u32,
    pub used: u32,
    pub is_next: bool,
}

impl fmt::Display for Bar {
    ghost output = { λ bar. Some (bar_text bar) };

    #[tactic(auto, unfolding(crate::specs::DrawingTexts::bar_text))]
    fn fmt<W: fmt::Write>(&self, f: &mut fmt::Formatter<W>) -> fmt::Result {
        let Bar {
            left,
            foot,
            width,
            height,
            used,
            is_next,
        } = *self;
        let whole = BarPart {
            left,
            foot,
            width,
            height,
            is_next,
            is_used: false,
        };
        let part = BarPart {
            left,
            foot,
            width,
            height: used,
            is_next,
            is_used: true,
        };
        write!(f, "{whole}{part}\n")
    }
}

/// How many pages a chain has beyond those that are drawn, if it has more: a number that stands upright, so that it is
/// no broader than the column.
#[derive(Clone, Copy)]
pub struct More {
    pub centre: u32,
    pub pages: usize,
}

impl fmt::Display for More {
    ghost output = { λ more. Some (more_text more) };

    #[tactic(auto, unfolding(crate::specs::DrawingTexts::more_text))]
    fn fmt<W: fmt::Write>(&self, f: &mut fmt::Formatter<W>) -> fmt::Result {
        if self.pages <= MOST_DRAWN {
            return Ok(());
        }
        let centre = self.centre;
        let foot = NUMBER_FOOT;
        let beyond = self.pages - MOST_DRAWN;
        write!(
            f,
            "<text transform='translate({centre} -{foot})rotate(-90)' dy='3' font-size='8'>+{beyond}</text>\n"
        )
    }
}

/// The dashes of the lines across all columns, from the top down: what is left free above a page, and the page.
#[derive(Clone, Copy)]
struct Dashes;

impl fmt::Display for Dashes {
    ghost output = { λ dashes. Some dashes_text };

    #[tactic(auto, unfolding(crate::specs::DrawingTexts::dashes_text))]
    fn fmt<W: fmt::Write>(&self, f: &mut fmt::Formatter<W>) -> fmt::Result {
        let gap = PAGE_GAP;
        let page = PAGE_HEIGHT;
        write!(f, "{gap} {page}")
    }
}

/// White lines across all columns, one above each page.
#[derive(Clone, Copy)]
pub struct Cuts {
    pub middle: u32,
    pub width: u32,
    pub height: u32,
}

impl fmt::Display for Cuts {
    ghost output = { λ cuts. Some (cuts_text cuts) };

    #[tactic(auto, unfolding(crate::specs::DrawingTexts::cuts_text))]
    fn fmt<W: fmt::Write>(&self, f: &mut fmt::Formatter<W>) -> fmt::Result {
        let Cuts {
            middle,
            width,
            height,
        } = *self;
        let dashes = Dashes;
        write!(
            f,
            "<path stroke='#ffffff' stroke-width='{width}' stroke-dasharray='{dashes}' d='M{middle} -{height}v{height}'/>\n"
        )
    }
}
