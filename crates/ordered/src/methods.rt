// What can be done with a table.
ghost use Rattle.std.specs.Prelude.{◌≡◌, min, length, take};
ghost use Rattle.std.specs.List.{slice_get};
ghost use Rattle.ordered.specs.Keys.{keys, Found, Distinct};
ghost use Rattle.ordered.specs.Records.{listed, room, over, Pushed, Extended, Replaced, Entered};

use crate::keyed::Keyed;
use crate::table::{NoRoom, Ordered};

impl<'a, R> Ordered<'a, R> {
    // The table of the first `count` records in `places`, which is to hold at most `limit`.
    pub fn new(places: &'a mut [R], count: usize, limit: usize) -> Ordered<'a, R>
        ensures { result ≡ record { places = places.entry; count = count; limit = limit } }
    {
        Ordered {
            places,
            count,
            limit,
        }
    }

    // How many records there are.
    pub fn count(&self) -> usize
        ensures { result ≡ length (listed self.now) }
    {
        self.count.min(self.places.len())
    }

    // How many records there can be.
    pub fn room(&self) -> usize
        ensures { result ≡ room self.now }
    {
        self.limit.min(self.places.len())
    }

    // The list of records.
    pub fn as_slice(&self) -> &[R]
        ensures { result.now ≡ listed self.now }
    {
        &self.places[..self.count()]
    }

    // The index of the first record with the probe's key, or `None` where no record has it.
    pub fn find<P>(&self, texts: &[u8], probe: &P) -> Option<usize>
    where
        R: Keyed<P>,
        ensures { Found (keys R.Keyed.key texts.now (listed self.now)) (R.Keyed.asked probe.now) result }
    {
        let first = self
            .as_slice()
            .iter()
            .position(|item| item.matches(texts, probe))?;
        Some(first)
    }

    // Keeps the first `n` records; all of them if there are fewer.
    pub fn truncate(&mut self, n: usize)
        ensures list { listed self.new ≡ take n (listed self.old) }
        ensures whole { self.new ≡ over self.old self.old.places.now (min n self.old.count) }
    {
        self.count = n.min(self.count);
    }
}

impl<'a, R: Copy> Ordered<'a, R> {
    // The record at `i`, if there is one.
    pub fn get(&self, i: usize) -> Option<R>
        ensures { result ≡ slice_get (listed self.now) i }
    {
        self.as_slice().get(i).copied()
    }

    // Puts `item` in the place of the record at `i`, and answers the record that was there, if there was one.
    pub fn set(&mut self, i: usize, item: R) -> Option<R>
        ensures { Replaced self.old self.new i item result }
    {
        if i < self.count() {
            let found = self.places[i];
            self.places[i] = item;
            Some(found)
        } else {
            None
        }
    }

    // Appends `item`, and answers its index; or gives it back where there is no room for one more.
    pub fn push(&mut self, item: R) -> Result<usize, R>
        ensures { Pushed self.old self.new item result }
    {
        let end = self.count;
        if end < self.room() {
            self.places[end] = item;
            self.count = end + 1;
            Ok(end)
        } else {
            Err(item)
        }
    }

    // Appends all of `more`; or nothing, where there is no room for all.
    pub fn extend(&mut self, more: &[R]) -> Result<(), NoRoom>
        ensures { Extended self.old self.new more.now result }
    {
        let start = self.count();
        let free = self.room().checked_sub(start).ok_or(NoRoom)?;
        if free < more.len() {
            return Err(NoRoom);
        }
        let end = start + more.len();
        self.places[start..end].copy_from_slice(more);
        self.count = end;
        Ok(())
    }

    // The index of the first record with the probe's key; where there is none, appends `item` as `push` does.
    // If `item` has the probe's key, distinct keys stay distinct.
    pub fn enter<P>(&mut self, texts: &[u8], probe: &P, item: R) -> Result<usize, R>
    where
        R: Keyed<P>,
        ensures entered { Entered (keys R.Keyed.key texts.now (listed self.old)) (R.Keyed.asked probe.now) self.old self.new item result }
        ensures distinct { R.Keyed.key item texts.now ≡ R.Keyed.asked probe.now → Distinct (keys R.Keyed.key texts.now (listed self.old)) → Distinct (keys R.Keyed.key texts.now (listed self.new)) }
    {
        match self.find(texts, probe) {
            Some(i) => Ok(i),
            None => self.push(item),
        }
    }
}
