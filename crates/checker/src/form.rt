// The questions about the whole table: its size, the form of each node, that
// each is linked once, and that none is too deep.
ghost use Rattle.std.specs.Prelude.{◌≡◌, ◌<◌, ◌≤◌, ℕ, Bool, length, Ok, Err, IfOk, IfSome, MatchResult};
ghost use Rattle.checker.specs.declared.node.Node.{Node};
ghost use Rattle.checker.specs.Tree.{blank, tree};
ghost use Rattle.checker.specs.Form.{chain_fits, one_fits, child_fits, shape_fits, node_fits, ask_each, hit, times_linked, linked_once, lower, lowest_deep, shallow, ask_size, formed};

use crate::chain::Chain;
use crate::node::{MOST_NODES, Node};
use crate::refusal::{Question, Refusal};
use crate::script::{Script, Table};
use crate::shape::{
    Child, Class, Shape, content_fits, is_of_class, link_fits, links_fit, root_fits, shape_of,
    type_fits,
};
use crate::table::item_at;

const DEEPEST: u8 = 200;

// Is every item of the chain of this class, as far as the links between them
// are right? A wrong link is its own node's fault.
fn chain_fits(table: &[Node], class: Class, first: u16) -> bool
    ensures { result ≡ chain_fits table.now class first }
{
    Chain::new(table, first).all(|(_, node)| is_of_class(class, node.kind))
}

fn one_fits(table: &[Node], class: Class, link: u16) -> bool
    ensures { result ≡ one_fits table.now class link }
{
    item_at(table, link).is_some_and(|node| is_of_class(class, node.kind) && node.next == 0)
}

fn child_fits(table: &[Node], child: Child, link: u16) -> bool
    ensures { result ≡ child_fits table.now child link }
{
    match child {
        Child::Absent => link == 0,
        Child::One(class) => one_fits(table, class, link),
        Child::Optional(class) => link == 0 || one_fits(table, class, link),
        Child::Chain(class) => chain_fits(table, class, link),
    }
}

fn shape_fits(table: &[Node], node: Node, shape: Option<Shape>) -> bool
    ensures { result ≡ shape_fits table.now node shape }
{
    let Some(shape) = shape else {
        return false;
    };
    type_fits(shape.typed, node.ty)
        && content_fits(shape.content, node.value)
        && child_fits(table, shape.a, node.a)
        && child_fits(table, shape.b, node.b)
        && child_fits(table, shape.c, node.c)
}

fn node_fits(table: &[Node], number: u16, node: Node) -> bool
    ensures { result ≡ node_fits table.now number node }
{
    links_fit(table.len(), number, node)
        && root_fits(number, node)
        && shape_fits(table, node, shape_of(node.kind))
}

// A question asked of each node, in number order.
fn ask_each<F: Fn(u16, Node) -> bool>(
    table: Table,
    question: Question,
    test: F,
) -> Result<(), Refusal>
    requires { F.IsAlwaysCallable test }
    ensures { (answers : ℕ → Node → Bool)
        → ((n : ℕ) (d : Node) (b : Bool) → F.post test n d b → b ≡ answers n d)
        → result ≡ ask_each answers question table.entry.nodes.now }
{
    for (i, node) in table.nodes.iter().enumerate() {
        let number = i as u16 + 1;
        if !test(number, *node) {
            return Err(Refusal::new(question, number, node.line));
        }
    }
    Ok(())
}

fn ask_form(table: Table) -> Result<(), Refusal>
    ensures { result ≡ ask_each (node_fits table.entry.nodes.now) Question.NodeForm table.entry.nodes.now }
{
    ask_each(table, Question::NodeForm, |number, node| {
        node_fits(table.nodes, number, node)
    })
}

// 1 where the link leads to that node.
fn hits(number: u16, link: u16) -> usize
    ensures { result ≡ hit number link }
{
    usize::from(link == number)
}

fn times_linked(table: Table, number: u16) -> usize
    ensures { result ≡ times_linked table.entry.nodes.now number }
{
    let mut times = 0;
    for node in table.nodes {
        times += hits(number, node.a)
            + hits(number, node.b)
            + hits(number, node.c)
            + hits(number, node.next);
    }
    times
}

fn linked_once(table: Table, number: u16) -> bool
    ensures { result ≡ linked_once table.entry.nodes.now number blank }
{
    number == 1 || times_linked(table, number) == 1
}

fn ask_links(table: Table) -> Result<(), Refusal>
    ensures { result ≡ ask_each (linked_once table.entry.nodes.now) Question.LinkedOnce table.entry.nodes.now }
{
    ask_each(table, Question::LinkedOnce, |number, _| {
        linked_once(table, number)
    })
}

// The lower of two nodes, each by its number.
fn lower_of(x: Option<u16>, y: Option<u16>) -> Option<u16>
    ensures { result ≡ lower x y }
{
    match (x, y) {
        (Some(x), Some(y)) => Some(x.min(y)),
        (Some(x), None) => Some(x),
        (None, y) => y,
    }
}

// The number of the lowest node from this link on that is too deep. It calls
// itself along a chain too, so it answers no node.
fn lowest_deep(script: Script, link: u16, depth: u8) -> Option<u16>
    requires level { depth ≤ 201 }
    ensures value { result ≡ lowest_deep depth (tree script.entry.nodes.now link) }
    ensures within { IfSome result (λ n. (0 < n) × (n ≤ length script.entry.nodes.now)) }
{
    let node = item_at(script.nodes, link)?;
    let too_deep = depth > DEEPEST;
    if too_deep {
        return Some(link);
    }
    let a = lowest_deep(script, node.a, depth + 1);
    let b = lowest_deep(script, node.b, depth + 1);
    let c = lowest_deep(script, node.c, depth + 1);
    let next = lowest_deep(script, node.next, depth);
    lower_of(lower_of(a, lower_of(b, c)), next)
}

fn ask_depth(script: Script) -> Result<(), Refusal>
    ensures { result ≡ shallow script.entry.nodes.now (lowest_deep 1 (tree script.entry.nodes.now 1)) }
{
    match lowest_deep(script, 1, 1) {
        None => Ok(()),
        Some(number) => {
            let line = script.nodes[number as usize - 1].line;
            Err(Refusal::new(Question::Depth, number, line))
        }
    }
}

// Are there 1 to 4,096 nodes, and as many places for notes?
pub(crate) fn ask_size(len: usize, places: usize) -> Result<(), Refusal>
    ensures { result ≡ ask_size len places }
{
    // Node 0 and line 0 tell hosts that no node is at fault.
    if len < 1 || len > MOST_NODES || len > places {
        return Err(Refusal::new(Question::TableSize, 0, 0));
    }
    Ok(())
}

// The questions about every node, in their order.
pub(crate) fn ask_nodes(table: Table) -> Result<Script, Refusal>
    ensures script { IfOk result (λ s. s.nodes ≡ table.entry.nodes) }
    ensures answer { MatchResult result (λ _. formed table.entry.nodes.now ≡ Ok tt) (λ f. formed table.entry.nodes.now ≡ Err f) }
{
    ask_form(table)?;
    ask_links(table)?;
    let script = Script { nodes: table.nodes };
    ask_depth(script)?;
    Ok(script)
}
