// The form of each kind of node.
ghost use Rattle.std.specs.Prelude.{◌≡◌};
ghost use Rattle.checker.specs.Chain.{link_fits};
ghost use Rattle.checker.specs.Form.{of_class, plain, shape_of, type_fits, content_fits, links_fit, root_fits};

use crate::node::Node;
use crate::shelf::MAIN;

// What may stand at a child's place.
#[derive(Clone, Copy, Debug, PartialEq, Eq)]
pub enum Class {
    Declaration,
    Block,
    Statement,
    Expression,
}

// What a link may hold. The items of a chain follow one another by `next`;
// a single child has no `next`.
#[derive(Clone, Copy, Debug, PartialEq, Eq)]
pub enum Child {
    Absent,
    One(Class),
    Optional(Class),
    Chain(Class),
}

// What the value of a node holds.
#[derive(Clone, Copy, Debug, PartialEq, Eq)]
pub enum Content {
    Nothing,
    MainName,
    CalledName,
    IntLiteral,
}

#[derive(Clone, Copy, Debug, PartialEq, Eq)]
pub struct Shape {
    pub typed: bool,
    pub content: Content,
    pub a: Child,
    pub b: Child,
    pub c: Child,
}

// Statements are kinds 10 to 12 and 14 to 18, expressions 20 to 41.
pub(crate) fn is_of_class(class: Class, kind: u8) -> bool
    ensures { result ≡ of_class class kind }
{
    match class {
        Class::Declaration => matches!(kind, 2..=4),
        Class::Block => kind == 10,
        Class::Statement => matches!(kind, 10..=12 | 14..=18),
        Class::Expression => matches!(kind, 20..=41),
    }
}

// A shape without a type.
fn untyped(content: Content, a: Child, b: Child) -> Shape
    ensures { result ≡ plain content a b Child.Absent }
{
    Shape {
        typed: false,
        content,
        a,
        b,
        c: Child::Absent,
    }
}

// The form that a kind has; `None` where it is no kind. Kinds are told by number, as tables write them.
pub(crate) fn shape_of(kind: u8) -> Option<Shape>
    ensures { result ≡ shape_of kind }
{
    match kind {
        1 => Some(untyped(
            Content::Nothing,
            Child::Chain(Class::Declaration),
            Child::Absent,
        )),
        2 => Some(Shape {
            typed: true,
            content: Content::MainName,
            a: Child::Absent,
            b: Child::One(Class::Block),
            c: Child::Absent,
        }),
        10 => Some(untyped(
            Content::Nothing,
            Child::Absent,
            Child::Chain(Class::Statement),
        )),
        18 => Some(untyped(
            Content::Nothing,
            Child::Optional(Class::Expression),
            Child::Absent,
        )),
        20 => Some(untyped(Content::IntLiteral, Child::Absent, Child::Absent)),
        25 => Some(untyped(
            Content::CalledName,
            Child::Chain(Class::Expression),
            Child::Absent,
        )),
        _ => None,
    }
}

pub(crate) fn type_fits(typed: bool, ty: u8) -> bool
    ensures { result ≡ type_fits typed ty }
{
    if typed { ty <= 3 } else { ty == 0 }
}

pub(crate) fn content_fits(content: Content, value: u32) -> bool
    ensures { result ≡ content_fits content value }
{
    match content {
        Content::Nothing => value == 0,
        Content::MainName => value == MAIN,
        Content::CalledName => matches!(value, 2 | 3 | 9 | 10 | 16..=255),
        Content::IntLiteral => value <= 2_147_483_647,
    }
}

// A link is 0, or above its node's number and inside the table.
pub(crate) fn link_fits(len: usize, number: u16, link: u16) -> bool
    ensures { result ≡ link_fits len number link }
{
    link == 0 || (number < link && link as usize <= len)
}

pub(crate) fn links_fit(len: usize, number: u16, node: Node) -> bool
    ensures { result ≡ links_fit len number node }
{
    link_fits(len, number, node.a)
        && link_fits(len, number, node.b)
        && link_fits(len, number, node.c)
        && link_fits(len, number, node.next)
}

// Node 1 is the program, and nothing follows it.
pub(crate) fn root_fits(number: u16, node: Node) -> bool
    ensures { result ≡ root_fits number node }
{
    number != 1 || (node.kind == 1 && node.next == 0)
}
