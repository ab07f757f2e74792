// Why something is refused: a reason, and where it lies.
ghost use Rattle.std.specs.Prelude.{◌≡◌, ℕ};
ghost use Rattle.treefile.specs.Faults.{layer_of, number_of};
ghost use Rattle.treefile.specs.declared.fault.Layer.{Layer};

// The layers of the program, in the order in which data flows.
#[derive(Clone, Copy, Drop, PartialEq, Eq, Debug)]
pub enum Layer {
    Tree,
    Scan,
    Resolve,
    Memory,
    LookUp,
}

// A node of the tree, and its row in the script.
#[derive(Clone, Copy, Drop, PartialEq, Eq, Debug)]
pub struct Spot {
    pub node: u32,
    pub row: u32,
}

// What can be wrong: each reason has a number and a layer.
pub trait Reason {
    ghost number_of: { Self → ℕ };

    ghost layer_of: { Self → Layer };

    // The number that a listing prints.
    fn number(self) -> u8
        ensures { result ≡ number_of self };

    // The layer that refuses.
    fn layer(self) -> Layer
        ensures { result ≡ layer_of self };
}

// A reason, and the node and the row that it belongs to.
#[derive(Clone, Copy, Drop, PartialEq, Eq, Debug)]
pub struct Refusal<R> {
    pub reason: R,
    pub spot: Spot,
}

impl<R> Refusal<R> {
    // A reason, at a node in a row.
    pub(crate) fn new(reason: R, node: u32, row: u32) -> Refusal<R>
        ensures { result ≡ record { reason = reason; spot = record { node = node; row = row } } }
    {
        Refusal {
            reason,
            spot: Spot { node, row },
        }
    }
}

impl<R: Reason + Copy> Refusal<R> {
    pub fn number(&self) -> u8
        ensures { result ≡ R.number_of self.now.reason }
    {
        self.reason.number()
    }

    pub fn layer(&self) -> Layer
        ensures { result ≡ R.layer_of self.now.reason }
    {
        self.reason.layer()
    }
}

// What is wrong with a tree file, by the number that a listing prints.
#[derive(Clone, Copy, Drop, PartialEq, Eq, Debug)]
pub enum TreeReason {
    Frame = 1,
    Counts = 2,
    Name = 3,
    Record = 4,
    Slots = 5,
    Depth = 6,
}

// Why a tree file is refused.
pub type TreeFault = Refusal<TreeReason>;

impl Reason for TreeReason {
    ghost number_of = { number_of };

    ghost layer_of = { layer_of };

    fn number(self) -> u8 {
        self as u8
    }

    fn layer(self) -> Layer {
        Layer::Tree
    }
}
