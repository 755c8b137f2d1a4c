// A memory: a size and, for each cell below it, unset or a value.
ghost use Rattle.std.specs.Prelude.{◌≡◌, List, length, if◌then◌else◌, Some, None, Option, slice_index_or, slice_set};
ghost use Rattle.memories.specs.declared.value.Value.{Value};
ghost use Rattle.memories.specs.Cells.{AllTyped, writable, inside};

use crate::value::Value;

pub trait Memory {
    ghost cells: { Self → List (Option Value) };

    fn size(&self) -> usize
        ensures { result ≡ length (cells self.now) };

    fn read(&self, cell: usize) -> Option<Value>
        ensures { result ≡ slice_index_or (cells self.now) cell None };

    // Says no outside and at a type that is none, and then leaves all as it is.
    // A boolean, as a set's `insert` answers: users of a memory are promised no more than the no.
    fn write(&mut self, cell: usize, value: Value) -> bool
        ensures says { result ≡ writable (cells self.old) cell value.ty }
        ensures after { cells self.new ≡ (if result then slice_set (cells self.old) cell (Some value) else cells self.old) };

    // Says no outside, and then leaves all as it is; a boolean for the same reason.
    fn clear(&mut self, cell: usize) -> bool
        ensures says { result ≡ inside (cells self.old) cell }
        ensures after { cells self.new ≡ (if result then slice_set (cells self.old) cell None else cells self.old) };

    // A law: every value has a type from 1 to 6.
    ghost values: { (m : Self) → AllTyped (cells m) };
}
