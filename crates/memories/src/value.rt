// What a cell can hold: a type from 1 to 6 and a word.
// 1 boolean, 2 int, 3 float, 4 to 6 arrays of these.
// The type is a byte, since a place may hold any byte, and a write at one that is no type is refused.
#[derive(Clone, Copy, Debug, Default, PartialEq, Eq)]
pub struct Value {
    pub ty: u8,
    pub word: u32,
}
