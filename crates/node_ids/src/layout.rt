ghost use Rattle.std.specs.Prelude.{◌≡◌, ℕ, ◌<◌, Bool, true};

/// A numbering of the nodes of a network: each node that the layout holds has a place of its own below
/// the size. An implementor gives the four ghost members and proves the four laws below the functions.
pub trait Layout {
    type Node: Copy + Eq;

    /// How many nodes there are.
    ghost node_count: { Self → ℕ };

    /// The place of a node.
    ghost index_of: { Self → Self.Node → ℕ };

    /// The node at a place.
    ghost node_at: { Self → ℕ → Self.Node };

    /// Whether a node is one of the layout's.
    ghost is_member: { Self → Self.Node → Bool };

    /// How many nodes there are.
    fn size(&self) -> usize
        ensures { result ≡ node_count self.now };

    /// The place of a node, from 0.
    fn index(&self, node: Self::Node) -> usize
        requires { is_member self.now node ≡ true }
        ensures { result ≡ index_of self.now node };

    /// The node at a place.
    fn node(&self, index: usize) -> Self::Node
        requires { index < node_count self.now }
        ensures { result ≡ node_at self.now index };

    /// Whether the node is one of the layout's.
    fn holds(&self, node: Self::Node) -> bool
        ensures { result ≡ is_member self.now node };

    ghost node_is_member: { (l : Self) (i : ℕ) → i < node_count l → is_member l (node_at l i) ≡ true };

    ghost index_of_node: { (l : Self) (i : ℕ) → i < node_count l → index_of l (node_at l i) ≡ i };

    ghost index_below: { (l : Self) (n : Self.Node) → is_member l n ≡ true → index_of l n < node_count l };

    ghost node_of_index: { (l : Self) (n : Self.Node) → is_member l n ≡ true → node_at l (index_of l n) ≡ n };
}
