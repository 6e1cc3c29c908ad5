//! Keys, with their codes or without.
ghost use Rattle.std.specs.Prelude.{◌≡◌, ℕ, List};
ghost use Rattle.lh_addr.specs.Fnv.{code_of};

use lh_addr::fnv1a;
use lh_page::Key;
use std::marker::Model;

/// A key of which a call wants the code: a [`Key`], whose code each call computes, or a [`CodedKey`], which has it.
pub trait Coded {
    // The bytes of the key.
    ghost bytes: { Self → List ℕ };

    /// The key.
    fn key(&self) -> &Key
        ensures { result.now ≡ bytes self.now };

    /// Its code: FNV-1a, 64 bits, of its bytes.
    fn code(&self) -> u64
        ensures { result ≡ code_of (bytes self.now) };
}

impl Coded for Key {
    ghost bytes = { λ key. key };

    #[inline]
    fn key(&self) -> &Key {
        self
    }

    #[inline]
    fn code(&self) -> u64 {
        fnv1a(self.bytes())
    }
}

/// A key with its code, which is computed once: for one that is looked for often, or in several files.
#[derive(Clone, Copy, Debug, PartialEq, Eq)]
pub struct CodedKey {
    key: Key,
    code: u64,
}

impl Model for CodedKey {
    ghost use Rattle.std.specs.Prelude.{◌≡◌, ℕ, List};
    ghost use Rattle.std.proofs.Common.{ap, sym};
    ghost use Rattle.lh_addr.specs.Fnv.{code_of};

    ghost Value = { List ℕ };

    ghost view = { λ k. k.key };

    ghost invariant = { λ k. k.code ≡ code_of k.key };

    ghost inverse = { λ key. record { key = key; code = code_of key } };

    ghost inverse_ok = { λ k h. ap (λ c. record { key = k.key; code = c }) (sym h) };
}

impl CodedKey {
    /// The key, with its code.
    pub fn new(key: Key) -> CodedKey
        ensures { result ≡ key }
    {
        CodedKey {
            key,
            code: fnv1a(key.bytes()),
        }
    }
}

impl Coded for CodedKey {
    ghost bytes = { λ key. key };

    #[inline]
    fn key(&self) -> &Key {
        &self.key
    }

    #[inline]
    fn code(&self) -> u64 {
        self.code
    }
}
