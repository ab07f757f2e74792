// Private names: in a class, a private name is entered under the class's name.
//
// The text of a name so mangled is never built: it is sought and appended in its two parts, the class's and its own.
ghost use Rattle.std.specs.Prelude.{◌≡◌, ◌↔◌, [], IsTrue};
ghost use Rattle.store.specs.Mangling.{begins_with_two, ends_in_two, dotted, is_private, stripped, class_part, mangled, text_of};
ghost use Rattle.store.specs.Memory.{Appends};

use ordered::{NoRoom, Ordered};

// A name as it is entered: an underscore, the prefix and the name, or the name alone where the prefix is empty.
#[derive(Clone, Copy, Drop)]
pub struct Mangled<'c, 'n> {
    pub prefix: &'c [u8],
    pub name: &'n [u8],
}

// The name alone.
impl<'n> From<&'n [u8]> for Mangled<'n, 'n> {
    ghost from_gives = { λ name mangled. (mangled.prefix.now ≡ []) × (mangled.name ≡ name) };

    fn from(name: &'n [u8]) -> Mangled<'n, 'n> {
        Mangled { prefix: b"", name }
    }
}

// `name` as it is entered in a class: where it is private, under the class's name without its leading underscores.
pub fn mangle_name<'c, 'n>(class: &'c [u8], name: &'n [u8]) -> Mangled<'c, 'n>
    ensures prefix { result.prefix.now ≡ class_part class.now name.now }
    ensures name { result.name.now ≡ name.now }
    ensures text { text_of result ≡ mangled class.now name.now }
{
    let prefix = if is_private(name) { strip(class) } else { b"" };
    Mangled { prefix, name }
}

impl Mangled<'_, '_> {
    // Whether `text` is the name as it is entered.
    pub(crate) fn is_spelled(&self, text: &[u8]) -> bool
        ensures { IsTrue result ↔ (text.now ≡ text_of self.now) }
    {
        if self.prefix.is_empty() {
            return text == self.name;
        }
        let [b'_', rest @ ..] = text else {
            return false;
        };
        match rest.strip_prefix(self.prefix) {
            Some(last) => last == self.name,
            None => false,
        }
    }

    // Appends the name as it is entered; or nothing, where it does not fit.
    pub(crate) fn append_to(&self, bytes: &mut Ordered<'_, u8>) -> Result<(), NoRoom>
        ensures { Appends bytes.old bytes.new (text_of self.now) result }
    {
        if self.prefix.is_empty() {
            return bytes.extend(self.name);
        }
        let start = bytes.count();
        if bytes.extend(b"_").is_ok()
            && bytes.extend(self.prefix).is_ok()
            && bytes.extend(self.name).is_ok()
        {
            return Ok(());
        }
        bytes.truncate(start);
        Err(NoRoom)
    }
}

// `name` without the underscores at its start.
fn strip(name: &[u8]) -> &[u8]
    ensures { result.now ≡ stripped name.now }
{
    let mut left = name;
    while let [b'_', rest @ ..] = left {
        left = rest;
    }
    left
}

// Whether `name` begins with two underscores, does not end in two, and holds no dot.
fn is_private(name: &[u8]) -> bool
    ensures { result ≡ is_private name.now }
{
    begins_with_two(name) && !ends_in_two(name) && !is_dotted(name)
}

fn begins_with_two(name: &[u8]) -> bool
    ensures { result ≡ begins_with_two name.now }
{
    matches!(name, [b'_', b'_', ..])
}

fn ends_in_two(name: &[u8]) -> bool
    ensures { result ≡ ends_in_two name.now }
{
    name.ends_with(b"__")
}

fn is_dotted(name: &[u8]) -> bool
    ensures { result ≡ dotted name.now }
{
    name.contains(&b'.')
}
