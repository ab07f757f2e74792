// Two small records that tell their keys: one by numbers, one by a part of the text bytes.
ghost use Rattle.std.specs.Prelude.{◌≡◌, [], ◌∷◌, take, drop};

use crate::keyed::Keyed;
use crate::table::{NoRoom, Ordered};

// A road between two places, whose key is the two.
#[derive(Clone, Copy, Debug, PartialEq, Eq)]
struct Road {
    from: u8,
    to: u8,
    length: u32,
}

// The two places that a road is sought by.
#[derive(Drop)]
struct Ends {
    from: u8,
    to: u8,
}

impl Keyed<Ends> for Road {
    ghost key = { λ road _. road.from ∷ road.to ∷ [] };

    ghost asked = { λ ends. ends.from ∷ ends.to ∷ [] };

    fn matches(&self, _texts: &[u8], ends: &Ends) -> bool {
        self.from == ends.from && self.to == ends.to
    }
}

// A word, whose key is `len` of the text bytes from `start` on.
#[derive(Clone, Copy, Debug, PartialEq, Eq)]
struct Word {
    start: usize,
    len: usize,
}

// The part of `texts` from `start` on that is `len` long, or as much of it as there is.
fn part(texts: &[u8], start: usize, len: usize) -> &[u8]
    ensures { result.now ≡ take len (drop start texts.now) }
{
    let rest = texts.get(start..).unwrap_or_default();
    rest.get(..len).unwrap_or(rest)
}

impl Keyed<&[u8]> for Word {
    ghost key = { λ word texts. take word.len (drop word.start texts) };

    ghost asked = { λ bytes. bytes.now };

    fn matches(&self, texts: &[u8], bytes: &&[u8]) -> bool {
        part(texts, self.start, self.len) == *bytes
    }
}

fn new_road(from: u8, to: u8, length: u32) -> Road {
    Road { from, to, length }
}

fn new_ends(from: u8, to: u8) -> Ends {
    Ends { from, to }
}

#[test]
fn roads(rt: HostRuntime) {
    let mut places = [new_road(0, 0, 0); 4];
    let mut table = Ordered::new(&mut places, 0, 3);
    assert_eq!(rt;
        table.enter(b"", &new_ends(1, 2), new_road(1, 2, 10)),
        Ok(0)
    );
    assert_eq!(rt;
        table.enter(b"", &new_ends(2, 1), new_road(2, 1, 20)),
        Ok(1)
    );
    assert_eq!(rt;
        table.enter(b"", &new_ends(1, 2), new_road(1, 2, 30)),
        Ok(0)
    );
    assert_eq!(rt; table.push(new_road(3, 1, 40)), Ok(2));
    assert_eq!(rt; table.push(new_road(3, 2, 50)), Err(new_road(3, 2, 50)));
    assert_eq!(rt; table.find(b"", &new_ends(3, 1)), Some(2));
    table.truncate(2);
    assert_eq!(rt; table.find(b"", &new_ends(3, 1)), None);
    assert_eq!(rt; table.set(1, new_road(2, 1, 60)), Some(new_road(2, 1, 20)));
    assert_eq!(rt; table.set(2, new_road(2, 1, 70)), None);
    assert_eq!(rt; table.get(1), Some(new_road(2, 1, 60)));
    assert_eq!(rt; table.get(2), None);
    assert_eq!(rt; table.count(), 2);
}

#[test]
fn words(rt: HostRuntime) {
    let mut places = [Word { start: 0, len: 2 }, Word { start: 2, len: 3 }];
    let table = Ordered::new(&mut places, 9, 9);
    assert_eq!(rt; table.count(), 2);
    assert_eq!(rt; table.room(), 2);
    assert_eq!(rt; table.find(b"abcde", &b"cde".as_slice()), Some(1));
    assert_eq!(rt; table.find(b"abcde", &b"cd".as_slice()), None);
    assert_eq!(rt; table.find(b"abcd", &b"cd".as_slice()), Some(1));
}

#[test]
fn bytes(rt: HostRuntime) {
    let mut places = [0u8; 5];
    let mut area = Ordered::new(&mut places, 0, 4);
    assert_eq!(rt; area.extend(b"ab"), Ok(()));
    assert_eq!(rt; area.extend(b"cde"), Err(NoRoom));
    assert_eq!(rt; area.extend(b"cd"), Ok(()));
    assert!(rt; area.as_slice() == b"abcd".as_slice());
}
