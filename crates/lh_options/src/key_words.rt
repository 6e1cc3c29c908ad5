//! The words of the keys that `get` looks up.
ghost use Rattle.std.specs.Prelude.{◌≡◌, IfOk, map};
ghost use Rattle.std.specs.String.{string_bytes};

use std::alloc::{AllocError, Global};
use std::marker::Model;

/// Words in their order, as the command line has them. What they spell is not looked at.
#[derive(Debug, Drop)]
pub struct KeyWords {
    words: Vec<String>,
}

impl Model for KeyWords {
    ghost use Rattle.std.specs.Prelude.{ℕ, List, map};
    ghost use Rattle.std.specs.String.{string_bytes};

    ghost Value = { List (List ℕ) };

    ghost view = { λ k. map string_bytes k.words.items };
}

impl KeyWords {
    /// Copies of some texts.
    pub(crate) fn of(alloc: Global, texts: &[&str]) -> Result<KeyWords, AllocError>
        ensures { IfOk result (λ words. words ≡ map (λ text. text.now) texts.now) }
    {
        let mut words = Vec::new(alloc);
        for text in texts {
            words.push(String::from_str(alloc, text)?)?;
        }
        Ok(KeyWords { words })
    }

    /// The words as texts.
    pub fn as_slice(&self) -> &[String]
        ensures { map string_bytes result.now ≡ self.now }
    {
        self.words.as_slice()
    }
}
