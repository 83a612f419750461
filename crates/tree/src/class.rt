// The classes of nodes.
ghost use Rattle.std.specs.Prelude.{◌≡◌};
ghost use Rattle.tree.specs.Tree.{class_number};

// What a node is, numbered 0 to 6 in this order.
#[derive(Clone, Copy, Debug, Default, PartialEq, Eq)]
pub enum Class {
    // Nothing at all.
    #[default]
    Empty,
    // A token of one kind.
    Token,
    // What a name stands for.
    Name,
    // Its children one after another.
    Chain,
    // One of its children.
    Alternative,
    // Its child or nothing.
    Optional,
    // Its child any number of times.
    Repetition,
}

impl Class {
    // The number by which a class is told.
    pub fn number(self) -> u8
        ensures { result ≡ class_number self }
    {
        self as u8
    }
}
