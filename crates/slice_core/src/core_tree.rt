//! A core that is well formed, and how large it is.
ghost use Rattle.std.specs.Prelude.{◌≡◌, ◌≤◌, ◌<◌, ◌+◌, max};
ghost use Rattle.slice_core.specs.WellFormed.{IsWellFormed};
ghost use Rattle.slice_core.specs.OneProof.{IsWellFormed-prop};
ghost use Rattle.slice_core.specs.Nodes.{tree_of};
ghost use Rattle.slice_core.specs.Sizes.{nodes, depth, most_cuts, size_of_tree};

use crate::node::Node;
use slice_num::Word;

/// How large a core is.
#[derive(Clone, Copy, Debug, PartialEq, Eq)]
pub struct Size {
    /// All nodes, ends among them; at most 200,000.
    pub nodes: u64,
    /// The most nodes on a way, its end among them; at most 512.
    pub depth: u64,
    /// The most cuts on a way; at most 64.
    pub cuts: u64,
}

/// A well-formed core: its name is a name of the language, it has 1 to 16 agents, at most 200,000 nodes, 512 nodes and
/// 64 cuts on a way, pieces and registers are made before they are used, each piece is used at most once on a way, and
/// agents in nodes are in range.
#[derive(Drop)]
pub struct Core {
    name: Word,
    agents: u32,
    root: Node,
    ghost formed: { IsWellFormed (record { name = name; agents = agents; tree = tree_of root }) } by { IsWellFormed-prop (record { name = name; agents = agents; tree = tree_of root }) },
}

impl Core {
    ghost use Rattle.slice_core.specs.Cores.{core_of};

    /// The core of that name, for so many agents, that does what the root says.
    pub fn new(name: Word, agents: u32, root: Node) -> Core
        requires formed { IsWellFormed (record { name = name; agents = agents; tree = tree_of root }) }
        ensures { core_of result ≡ record { name = name; agents = agents; tree = tree_of root } }
    {
        Core { name, agents, root }
    }

    /// The protocol's name.
    pub fn name(&self) -> &Word
        ensures { result.now ≡ (core_of self.now).name }
    {
        &self.name
    }

    /// How many agents the protocol has, 1 to 16.
    pub fn agents(&self) -> u32
        ensures value { result ≡ (core_of self.now).agents }
        ensures formed { IsWellFormed (core_of self.now) }
    {
        self.agents
    }

    /// What is done first.
    pub fn root(&self) -> &Node
        ensures { tree_of result.now ≡ (core_of self.now).tree }
    {
        &self.root
    }

    /// How many nodes the core has, and how many nodes and cuts at most on a way. It takes no memory, and goes no deeper
    /// than a way.
    pub fn size(&self) -> Size
        ensures nodes { result.nodes ≡ nodes (core_of self.now).tree }
        ensures depth { result.depth ≡ depth (core_of self.now).tree }
        ensures cuts { result.cuts ≡ most_cuts (core_of self.now).tree }
    {
        size_of(&self.root)
    }
}

impl Size {
    // The same with one node more on each way, and with so many cuts more.
    fn with_node(self, cuts: u64) -> Size
        requires few { self.nodes < 200000 }
        requires few_deep { self.depth ≤ self.nodes }
        requires few_cuts { self.cuts ≤ self.depth }
        requires one { cuts ≤ 1 }
        ensures { result ≡ record { nodes = 1 + self.nodes; depth = 1 + self.depth; cuts = cuts + self.cuts } }
    {
        Size {
            nodes: 1 + self.nodes,
            depth: 1 + self.depth,
            cuts: cuts + self.cuts,
        }
    }

    // Two ways on.
    fn with_other(self, other: Size) -> Size
        requires few { self.nodes + other.nodes < 200000 }
        ensures { result ≡ record { nodes = self.nodes + other.nodes; depth = max self.depth other.depth; cuts = max self.cuts other.cuts } }
    {
        Size {
            nodes: self.nodes + other.nodes,
            depth: self.depth.max(other.depth),
            cuts: self.cuts.max(other.cuts),
        }
    }
}

// How large the tree of a node is.
fn size_of(node: &Node) -> Size
    requires few { nodes (tree_of node.now) ≤ 200000 }
    ensures size { result ≡ size_of_tree (tree_of node.now) }
    ensures few_deep { result.depth ≤ result.nodes }
    ensures few_cuts { result.cuts ≤ result.depth }
{
    match node {
        Node::Ask { next, .. }
        | Node::Set { next, .. }
        | Node::Join { next, .. }
        | Node::Give { next, .. } => size_of(next.get()).with_node(0),
        Node::Cut { next, .. } => size_of(next.get()).with_node(1),
        Node::Test { yes, no, .. } => {
            let both = size_of(yes.get()).with_other(size_of(no.get()));
            both.with_node(0)
        }
        Node::Done => Size {
            nodes: 1,
            depth: 1,
            cuts: 0,
        },
    }
}
