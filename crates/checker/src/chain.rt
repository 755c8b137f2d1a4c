// The items of a chain, which follow one another by `next`.
ghost use Rattle.std.specs.Prelude.{◌≡◌};
ghost use Rattle.std.specs.Iterator.{at_most};
ghost use Rattle.checker.specs.Tree.{left};
ghost use Rattle.checker.specs.Chain.{following, ChainGives};

use crate::node::Node;
use crate::shape::link_fits;
use crate::table::item_at;

// What follows a node on this link; nothing does where the link is wrong.
fn following(len: usize, number: u16, link: u16) -> u16
    ensures { result ≡ following len number link }
{
    if link_fits(len, number, link) {
        link
    } else {
        0
    }
}

// Each item of a chain with its number, as far as the links between them are right.
#[derive(Debug, Drop)]
pub(crate) struct Chain<'a> {
    table: &'a [Node],
    at: u16,
}

impl<'a> Chain<'a> {
    pub(crate) fn new(table: &'a [Node], first: u16) -> Chain<'a>
        ensures table { result.table.now ≡ table.now }
        ensures first { result.at ≡ first }
    {
        Chain { table, at: first }
    }
}

impl Iterator for Chain<'_> {
    type Item = (u16, Node);

    ghost next_gives = { λ s r t. ChainGives s.table.now s.at r t.table.now t.at };

    ghost remaining = { λ s. at_most (left s.table.now s.at) };

    fn next(&mut self) -> Option<(u16, Node)> {
        let at = self.at;
        let node = item_at(self.table, at)?;
        self.at = following(self.table.len(), at, node.next);
        Some((at, node))
    }
}
