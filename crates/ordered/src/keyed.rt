// What a record shows so that a table can seek it.
ghost use Rattle.std.specs.Prelude.{◌≡◌, ◌↔◌, List, ℕ, IsTrue};

// A record that tells its key, and can be sought by a probe of type `P`. The key may lie in the text bytes, which each
// search is lent. Each type of probe says anew what the key is; for probes of one type it is the same.
pub trait Keyed<P> {
    // the key of a record over the text bytes
    ghost key: { Self → List ℕ → List ℕ };

    // the key that a probe asks for
    ghost asked: { P → List ℕ };

    // Whether the record has the probe's key.
    fn matches(&self, texts: &[u8], probe: &P) -> bool
        ensures { IsTrue result ↔ (key self.now texts.now ≡ asked probe.now) };
}
