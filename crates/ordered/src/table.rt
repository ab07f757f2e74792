// The table itself.

// The records are the first `count` of `places`, or all of them if `count` is more. None is added past `limit`.
//
// It has no ghost field: a struct that holds it by value may then have some, and may lend it.
#[derive(Drop)]
pub struct Ordered<'a, R> {
    pub(crate) places: &'a mut [R],
    pub(crate) count: usize,
    pub(crate) limit: usize,
}

// There is no room for what was to be appended.
#[derive(Clone, Copy, Debug, PartialEq, Eq)]
pub struct NoRoom;
