// A text: a name as it is entered, held once.
ghost use Rattle.std.specs.Prelude.{◌≡◌};
ghost use Rattle.store.specs.Mangling.{text_of};
ghost use Rattle.store.specs.Texts.{spelled};

use crate::mangle::Mangled;
use ordered::Keyed;

// A text is `len` of the text bytes, from `start` on.
#[derive(Clone, Copy, Drop)]
pub struct Text {
    pub start: usize,
    pub len: usize,
}

impl Text {
    // The bytes of the text, or as many of them as there are.
    fn spelling<'b>(&self, bytes: &'b [u8]) -> &'b [u8]
        ensures { result.now ≡ spelled bytes.now self.now }
    {
        let rest = &bytes[self.start.min(bytes.len())..];
        &rest[..self.len.min(rest.len())]
    }
}

// A text is sought by the name that it spells.
impl Keyed<Mangled<'_, '_>> for Text {
    ghost key = { λ text bytes. spelled bytes text };

    ghost asked = { λ name. text_of name };

    fn matches(&self, bytes: &[u8], name: &Mangled<'_, '_>) -> bool {
        name.is_spelled(self.spelling(bytes))
    }
}
