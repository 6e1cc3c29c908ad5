//! The elements of a picture, each as the SVG text that a type displays.
ghost use Rattle.std.specs.Prelude.{Some};
ghost use Rattle.lh_replay.specs.PictureTexts.{end_text, heading_text, lane_name};
ghost use Rattle.lh_replay.specs.PictureTexts.{picture_caption_text, step_text};

use crate::label::EventLabel;
use crate::shapes::Shape;
use std::fmt;

/// The picture's title and its description, and two lines of text that say what its marks are, on a white ground.
#[derive(Clone, Copy)]
pub struct PictureCaption {
    pub steps: usize,
}

impl fmt::Display for PictureCaption {
    ghost output = { λ caption. Some (picture_caption_text caption) };

    #[tactic(auto, unfolding(crate::specs::PictureTexts::picture_caption_text))]
    fn fmt<W: fmt::Write>(&self, f: &mut fmt::Formatter<W>) -> fmt::Result {
        let steps = self.steps;
        write!(
            f,
            "<title id='title'>Schedule of a linear hash file, steps {steps}</title>\n<desc id='desc'>A lane for the splitter and one for each place, and downwards a row for each step. A box is a bucket that is held, from its lock to its release; an arrow leads from a rehash to the lock after it; an arrow between two boxes marks the move of a split, and a triangle the step of its pointer.</desc>\n<rect width='100%' height='100%' fill='#ffffff'/>\n<text x='16' y='20'>a box is a bucket that is held, and a curved arrow a rehash</text>\n<text x='16' y='38'>a straight arrow is the move of a split, and a triangle the step of its pointer</text>\n"
        )
    }
}

/// The name of a lane: lane 0 is the splitter's, and the others are the workers' places.
#[derive(Clone, Copy)]
struct LaneName {
    lane: u32,
}

impl fmt::Display for LaneName {
    ghost output = { λ name. Some (lane_name name.lane) };

    fn fmt<W: fmt::Write>(&self, f: &mut fmt::Formatter<W>) -> fmt::Result {
        if self.lane == 0 {
            write!(f, "splitter")
        } else {
            let place = self.lane - 1;
            write!(f, "place {place}")
        }
    }
}

/// A lane's name, and the line on its left.
#[derive(Clone, Copy)]
pub struct Heading {
    pub lane: u32,
    pub left: u32,
    pub height: u128,
}

impl fmt::Display for Heading {
    ghost output = { λ heading. Some (heading_text heading) };

    #[tactic(auto, unfolding(crate::specs::PictureTexts::heading_text))]
    fn fmt<W: fmt::Write>(&self, f: &mut fmt::Formatter<W>) -> fmt::Result {
        let Heading { lane, left, height } = *self;
        let name = LaneName { lane };
        write!(
            f,
            "<g transform='translate({left} 64)'><path stroke='#cccccc' d='M0 -8v{height}'/><text x='8' font-weight='bold'>{name}</text></g>\n"
        )
    }
}

/// A step: its number, from 1 on, at the left of its row, and in its lane its label and what is drawn of it.
#[derive(Clone, Copy)]
pub struct Step {
    pub number: u128,
    pub top: u128,
    pub left: u32,
    pub label: EventLabel,
    pub shape: Shape,
}

impl fmt::Display for Step {
    ghost output = { λ step. Some (step_text step) };

    #[tactic(auto, unfolding(crate::specs::PictureTexts::step_text))]
    fn fmt<W: fmt::Write>(&self, f: &mut fmt::Formatter<W>) -> fmt::Result {
        let Step {
            number,
            top,
            left,
            label,
            shape,
        } = *self;
        write!(
            f,
            "<g transform='translate(0 {top})'><text x='36' y='16' text-anchor='end' fill='#757575'>{number}</text><g transform='translate({left} 0)'>{shape}{label}</g></g>\n"
        )
    }
}

/// The picture's end.
#[derive(Clone, Copy)]
pub struct End;

impl fmt::Display for End {
    ghost output = { λ end. Some end_text };

    fn fmt<W: fmt::Write>(&self, f: &mut fmt::Formatter<W>) -> fmt::Result {
        write!(f, "</svg>\n")
    }
}
