//! What is drawn of a step beside its label.
ghost use Rattle.std.specs.Prelude.{◌≡◌, Some};
ghost use Rattle.lh_replay.specs.PictureTexts.{held_colour, held_text, rectangle_text, shape_text};

use std::fmt;

/// What is drawn of a step in its lane; heights are in pixels, from the step's row down.
#[derive(Clone, Copy, Debug, PartialEq, Eq)]
pub enum Shape {
    /// Nothing but its label.
    Plain,
    /// A box for the bucket that a worker holds from here on.
    Held { bucket: u32, height: u128 },
    /// Two boxes, for the bucket that splits and the new one, which the splitter holds from here on.
    BothHeld { old: u32, new: u32, height: u128 },
    /// An arrow to the lock that a rehash leads to, so far down.
    Way { down: u128 },
    /// A mark for records that are moved to the new bucket.
    Moved,
    /// A mark for the split pointer.
    Pointed,
}

/// The colour of what a worker holds, or of what the splitter holds: free slots have them in a drawing of a file.
fn colour_of(is_split: bool) -> &'static str
    ensures { result.now ≡ held_colour is_split }
{
    if is_split { "#f8e2b3" } else { "#b3d5e8" }
}

/// A rectangle from the step's row down.
#[derive(Clone, Copy)]
struct Rectangle {
    left: u32,
    width: u32,
    height: u128,
    is_split: bool,
}

impl fmt::Display for Rectangle {
    ghost output = { λ rectangle. Some (rectangle_text rectangle) };

    #[tactic(auto, unfolding(crate::specs::PictureTexts::rectangle_text))]
    fn fmt<W: fmt::Write>(&self, f: &mut fmt::Formatter<W>) -> fmt::Result {
        let Rectangle {
            left,
            width,
            height,
            is_split,
        } = *self;
        let colour = colour_of(is_split);
        write!(
            f,
            "<rect fill='{colour}' x='{left}' y='2' width='{width}' height='{height}'/>"
        )
    }
}

/// A box for a bucket that is held, with its number.
#[derive(Clone, Copy)]
struct HeldBox {
    left: u32,
    width: u32,
    bucket: u32,
    height: u128,
    is_split: bool,
}

impl fmt::Display for HeldBox {
    ghost output = { λ held. Some (held_text held) };

    #[tactic(auto, unfolding(crate::specs::PictureTexts::held_text))]
    fn fmt<W: fmt::Write>(&self, f: &mut fmt::Formatter<W>) -> fmt::Result {
        let HeldBox {
            left,
            width,
            bucket,
            height,
            is_split,
        } = *self;
        let rectangle = Rectangle {
            left,
            width,
            height,
            is_split,
        };
        write!(
            f,
            "{rectangle}<text transform='translate({left} 16)' x='6' font-weight='bold'>{bucket}</text>"
        )
    }
}

impl fmt::Display for Shape {
    ghost output = { λ shape. Some (shape_text shape) };

    fn fmt<W: fmt::Write>(&self, f: &mut fmt::Formatter<W>) -> fmt::Result {
        match self {
            Shape::Plain => Ok(()),
            Shape::Held { bucket, height } => {
                let held = HeldBox {
                    left: 148,
                    width: 112,
                    bucket: *bucket,
                    height: *height,
                    is_split: false,
                };
                write!(f, "{held}")
            }
            Shape::BothHeld { old, new, height } => {
                let first = HeldBox {
                    left: 148,
                    width: 54,
                    bucket: *old,
                    height: *height,
                    is_split: true,
                };
                let second = HeldBox {
                    left: 206,
                    width: 54,
                    bucket: *new,
                    height: *height,
                    is_split: true,
                };
                write!(f, "{first}{second}")
            }
            Shape::Way { down } => write!(
                f,
                "<path d='M264 12c16 0 16 {down} 6 {down}' fill='none' stroke='#b85000' stroke-width='2'/><path transform='translate(262 {down})' d='M0 12l8 -4v8z' fill='#b85000'/>"
            ),
            Shape::Moved => write!(
                f,
                "<path d='M188 12h32m-6 -5l6 5l-6 5' fill='none' stroke='#333333' stroke-width='2'/>"
            ),
            Shape::Pointed => write!(f, "<path d='M204 4l8 14h-16z'/>"),
        }
    }
}
