// What the check notes of a node, in numbers that hosts read.
// Notes lie beside the table, since hosts lend the places for them.
#[derive(Clone, Copy, Debug, Default, PartialEq, Eq)]
pub struct Note {
    // the type of an expression: 1 boolean, 2 int, 3 float, 7 a call without a value
    pub ty: u8,
    // whether this int is to become a float
    pub turned: bool,
    // the script's declaration of the name used here
    pub declaration: u16,
}
