//! Sizes of trees, counted before the trees are built.
ghost use Rattle.std.specs.Prelude.{◌≡◌};
ghost use Rattle.cedar_parser_limits.specs.Limits.{nothing, leaf, above, above_both, both};
ghost use Rattle.cedar_parser_limits.specs.Private.Capped.{capped};

/// How many nodes a tree has, and how many are on its longest path down. Both stop at the greatest `usize`.
#[derive(Clone, Copy, Debug)]
pub struct Size {
    /// The nodes.
    pub nodes: usize,
    /// The nodes on the longest path down.
    pub height: usize,
}

/// The size of an empty list of trees.
pub fn nothing() -> Size
    ensures { result ≡ nothing }
{
    Size {
        nodes: 0,
        height: 0,
    }
}

/// The size of one node with nothing below it.
pub fn leaf() -> Size
    ensures { result ≡ leaf }
{
    Size {
        nodes: 1,
        height: 1,
    }
}

impl Size {
    /// One node with this tree below it.
    pub fn above(self) -> Size
        ensures { result ≡ capped (above self) }
    {
        Size {
            nodes: self.nodes.saturating_add(1),
            height: self.height.saturating_add(1),
        }
    }

    /// One node with this tree and another below it.
    pub fn above_both(self, other: Size) -> Size
        ensures { result ≡ capped (above_both self other) }
    {
        Size {
            nodes: self.nodes.saturating_add(other.nodes).saturating_add(1),
            height: self.height.max(other.height).saturating_add(1),
        }
    }

    /// This tree and another beside it.
    pub fn both(self, other: Size) -> Size
        ensures { result ≡ capped (both self other) }
    {
        Size {
            nodes: self.nodes.saturating_add(other.nodes),
            height: self.height.max(other.height),
        }
    }
}
