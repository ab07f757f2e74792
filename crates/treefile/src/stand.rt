// A node, by its number, and how deep it stands, the root at 1.
#[derive(Clone, Copy, Drop)]
pub struct Stand {
    pub node: usize,
    pub depth: usize,
}
