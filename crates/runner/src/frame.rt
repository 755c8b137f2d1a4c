// What is begun and not finished.

// What a node that is begun and not finished waits for.
#[derive(Clone, Copy, Debug, Eq, PartialEq)]
pub enum Frame {
    // the end of a statement of a block
    InBlock { block: u16, statement: u16 },
    // the expression of an expression statement
    InStatement { statement: u16 },
    // the argument of a built-in
    InCall { call: u16 },
}

// What stands in the places of a stack that hold no frame. By hand: a default is derived of a case without fields alone, and each case here has some.
impl Default for Frame {
    fn default() -> Frame {
        Frame::InStatement { statement: 0 }
    }
}
