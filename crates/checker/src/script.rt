// Tables of which the check knows something.
ghost use Rattle.std.specs.Prelude.{◌≡◌, ◌≤◌, length, Some};
ghost use Rattle.checker.specs.Tree.{Linked, item_at};

use crate::chain::Chain;
use crate::node::Node;
use crate::refusal::{Question, Refusal};

// A table of 1 to 4,096 nodes.
#[derive(Clone, Copy, Debug, PartialEq, Eq)]
pub(crate) struct Table<'a> {
    pub(crate) nodes: &'a [Node],
    ghost some: { 1 ≤ length nodes.now },
    ghost most: { length nodes.now ≤ 4096 },
}

// A table whose links go up and stay inside.
#[derive(Clone, Copy, Debug, PartialEq, Eq)]
pub(crate) struct Script<'a> {
    pub(crate) nodes: &'a [Node],
    ghost some: { 1 ≤ length nodes.now },
    ghost linked: { Linked nodes.now },
}

// A node of a script, with its number. Each walk makes its own of what a chain hands it, since
// chains also run over tables that are no script yet.
#[derive(Clone, Copy, Debug, PartialEq, Eq)]
pub(crate) struct Place<'a> {
    pub(crate) script: Script<'a>,
    pub(crate) number: u16,
    pub(crate) node: Node,
    ghost is: { item_at script.nodes.now number ≡ Some node },
}

impl<'a> Script<'a> {
    // The items of the chain on a link.
    pub(crate) fn chain(self, first: u16) -> Chain<'a>
        ensures table { result.table.now ≡ self.entry.nodes.now }
        ensures first { result.at ≡ first }
    {
        Chain::new(self.nodes, first)
    }
}

impl Place<'_> {
    // A no to a question, at this node.
    pub(crate) fn no(self, question: Question) -> Refusal
        ensures { result ≡ record { question = question; node = self.entry.number; line = self.entry.node.line } }
    {
        Refusal::new(question, self.number, self.node.line)
    }
}
