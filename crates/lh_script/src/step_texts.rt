//! The texts of effects and refusals, each as what a type displays.
ghost use Rattle.std.specs.Prelude.{Some};
ghost use Rattle.lh_script.specs.StepTexts.{effect_text, entry_text, refusal_text};

use crate::notation::Notation;
use crate::texts::ReplyText;
use lh_core::{Effect, Refusal};
use std::fmt;

/// The effect of an accepted event as one line of a text, without the line's end.
#[derive(Clone, Copy)]
pub struct EffectText<'a> {
    pub notation: Notation,
    pub effect: &'a Effect,
}

impl fmt::Display for EffectText<'_> {
    ghost output = { λ text. Some (effect_text text.notation text.effect.now) };

    fn fmt<W: fmt::Write>(&self, f: &mut fmt::Formatter<W>) -> fmt::Result {
        match self.effect {
            Effect::Called => write!(f, "called"),
            Effect::Aim { level, bucket } => write!(f, "aim {level} {bucket}"),
            Effect::Locked { bucket, level } => write!(f, "locked {bucket} {level}"),
            Effect::Answered(reply) => {
                let notation = self.notation;
                write!(f, "{}", ReplyText { notation, reply })
            },
            Effect::Released => write!(f, "released"),
            Effect::GivenUp => write!(f, "given up"),
            Effect::Begun { old, new } => write!(f, "begun {old} {new}"),
            Effect::Both { old, new } => write!(f, "both {old} {new}"),
            Effect::Moved { old, new } => write!(f, "moved {old} {new}"),
            Effect::Freed => write!(f, "freed"),
            Effect::Point { buckets } => write!(f, "point {buckets}"),
            Effect::Dropped => write!(f, "dropped"),
        }
    }
}

/// The refusal of an event as one line of a text, without the line's end.
#[derive(Clone, Copy)]
pub struct RefusalText<'a>(pub &'a Refusal);

impl fmt::Display for RefusalText<'_> {
    ghost output = { λ text. Some (refusal_text text.0.now) };

    fn fmt<W: fmt::Write>(&self, f: &mut fmt::Formatter<W>) -> fmt::Result {
        match self.0 {
            Refusal::WrongState => write!(f, "refused C1"),
            Refusal::Held => write!(f, "refused C2"),
            Refusal::MustRehash => write!(f, "refused C3"),
            Refusal::NothingToRehash => write!(f, "refused C4"),
            Refusal::SplitBusy => write!(f, "refused C5"),
            Refusal::FileFull => write!(f, "refused C6"),
            Refusal::Memory => write!(f, "refused C7"),
        }
    }
}

/// The effect of an event or its refusal as one line of a text, without the line's end.
#[derive(Clone, Copy)]
pub struct EntryText<'a> {
    pub notation: Notation,
    pub entry: &'a Result<Effect, Refusal>,
}

impl fmt::Display for EntryText<'_> {
    ghost output = { λ text. Some (entry_text text.notation text.entry.now) };

    fn fmt<W: fmt::Write>(&self, f: &mut fmt::Formatter<W>) -> fmt::Result {
        match self.entry {
            Ok(effect) => {
                let notation = self.notation;
                write!(f, "{}", EffectText { notation, effect })
            },
            Err(refusal) => write!(f, "{}", RefusalText(refusal)),
        }
    }
}
