//! What a picture says of a step.
ghost use Rattle.std.specs.Prelude.{Some};
ghost use Rattle.lh_replay.specs.PictureTexts.{event_word, told_text, label_text};

use lh_bucket::{Call, Reply};
use lh_core::{Effect, Event, Refusal};
use lh_script::{EffectText, Notation, RefusalText};
use std::fmt;

/// An event in one word: a call by its verb.
#[derive(Clone, Copy)]
struct EventWord {
    event: Event,
}

impl fmt::Display for EventWord {
    ghost output = { λ word. Some (event_word word.event) };

    fn fmt<W: fmt::Write>(&self, f: &mut fmt::Formatter<W>) -> fmt::Result {
        match self.event {
            Event::Call(_, Call::Search(_)) => write!(f, "search"),
            Event::Call(_, Call::Insert(_, _)) => write!(f, "insert"),
            Event::Call(_, Call::Delete(_)) => write!(f, "delete"),
            Event::Call(_, Call::Replace(_, _)) => write!(f, "replace"),
            Event::Read(_) => write!(f, "read"),
            Event::Lock(_) => write!(f, "lock"),
            Event::Rehash(_) => write!(f, "rehash"),
            Event::Act(_) => write!(f, "act"),
            Event::Release(_) => write!(f, "release"),
            Event::SplitBegin => write!(f, "split-begin"),
            Event::SplitLock => write!(f, "split-lock"),
            Event::SplitMove => write!(f, "split-move"),
            Event::SplitRelease => write!(f, "split-release"),
            Event::SplitPoint => write!(f, "split-point"),
            Event::SplitDrop => write!(f, "split-drop"),
        }
    }
}

/// What was told of an event: as `steps` writes it, but of a value that was found nothing.
#[derive(Clone, Copy)]
struct Told {
    entry: Result<Effect, Refusal>,
}

impl fmt::Display for Told {
    ghost output = { λ told. Some (told_text told.entry) };

    fn fmt<W: fmt::Write>(&self, f: &mut fmt::Formatter<W>) -> fmt::Result {
        match self.entry {
            Ok(Effect::Answered(Reply::Found(_))) => write!(f, "found"),
            Ok(effect) => {
                let notation = Notation::Hexadecimal;
                write!(
                    f,
                    "{}",
                    EffectText {
                        notation,
                        effect: &effect
                    }
                )
            },
            Err(refusal) => write!(f, "{}", RefusalText(&refusal)),
        }
    }
}

/// An event and what was told of it, a refusal in a colour of its own.
#[derive(Clone, Copy)]
pub struct EventLabel {
    pub event: Event,
    pub entry: Result<Effect, Refusal>,
}

impl fmt::Display for EventLabel {
    ghost output = { λ label. Some (label_text label) };

    #[tactic(auto, unfolding(crate::specs::PictureTexts::label_text))]
    fn fmt<W: fmt::Write>(&self, f: &mut fmt::Formatter<W>) -> fmt::Result {
        let EventLabel { event, entry } = *self;
        let word = EventWord { event };
        let told = Told { entry };
        let ink = if entry.is_ok() { "#333333" } else { "#b85000" };
        write!(f, "<text x='8' y='16' fill='{ink}'>{word}: {told}</text>")
    }
}
