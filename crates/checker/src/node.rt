// The most nodes of a table.
pub const MOST_NODES: usize = 4096;

// One node of a script's table.
//
// Nodes are numbered from 1. `a`, `b` and `c` name children and `next` the
// following item of a chain; 0 is no link. All are numbers, as hosts write them.
#[derive(Clone, Copy, Debug, Default, PartialEq, Eq)]
pub struct Node {
    pub kind: u8,
    pub ty: u8,
    pub value: u32,
    pub a: u16,
    pub b: u16,
    pub c: u16,
    pub next: u16,
    pub line: u16,
}
