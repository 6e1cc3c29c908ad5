//! Sets of keys that are known by a test.
ghost use Rattle.std.specs.Prelude.{◌≡◌, ℕ, Bool, List};
ghost use Rattle.lh_page.specs.Limits.{IsKey};

/// A set of keys, by the test whether it contains one: which records leave a chain.
pub trait KeySet {
    /// Whether the set contains a key, by the key's bytes.
    ghost member: { Self → List ℕ → Bool };

    fn contains(&self, key: &[u8]) -> bool
        requires { IsKey key.now }
        ensures { result ≡ member self.now key.now };
}
