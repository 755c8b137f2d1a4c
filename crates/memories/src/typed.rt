// Which types are those of values, and what a place that holds a type and a word means.
ghost use Rattle.std.specs.Prelude.{◌≡◌};
ghost use Rattle.memories.specs.Cells.{typed, record_cell};

use crate::value::Value;

pub fn is_type(ty: u8) -> bool
    ensures { result ≡ typed ty }
{
    matches!(ty, 1..=6)
}

pub fn seen(place: Value) -> Option<Value>
    ensures { result ≡ record_cell place }
{
    is_type(place.ty).then_some(place)
}
