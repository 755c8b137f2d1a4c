// The type of an expression, by its number in a note.
#[derive(Clone, Copy, Debug, PartialEq, Eq)]
pub enum Ty {
    Void = 7,
    Int = 2,
}

// An argument as far as a call asks about it.
#[derive(Clone, Copy, Debug, PartialEq, Eq)]
pub struct Valued {
    pub node: u16,
    pub line: u16,
    pub ty: Ty,
}

// What the arguments of a call come to: how many, and the first of them that
// does not have the type that is wanted.
#[derive(Clone, Copy, Debug, PartialEq, Eq)]
pub struct Arguments {
    pub count: usize,
    pub unfit: Option<Valued>,
}
