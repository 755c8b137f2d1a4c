// A memory seen from a shift on: its cell i is cell i + shift below.
ghost use Rattle.std.specs.Prelude.{◌≡◌, take, drop, if◌then◌else◌, Some, None, slice_set};
ghost use Rattle.memories.specs.Cells.{writable, inside, shifted};
ghost use Rattle.memories.specs.Typed.{window_typed};

use crate::memory::Memory;
use crate::value::Value;

#[derive(Debug, Drop)]
pub struct Window<M: Memory> {
    memory: M,
    shift: usize,
}

impl<M: Memory> Window<M> {
    pub fn new(memory: M, shift: usize) -> Window<M>
        ensures below { result.memory ≡ memory }
        ensures from { result.shift ≡ shift }
    {
        Window { memory, shift }
    }

    // The cell below that a cell is; none outside, so that the sum fits.
    fn below(&self, cell: usize) -> Option<usize>
        ensures { result ≡ shifted self.now.shift (M.Memory.cells self.now.memory) cell }
    {
        if cell < self.memory.size().saturating_sub(self.shift) {
            Some(self.shift + cell)
        } else {
            None
        }
    }

    // The memory below.
    pub fn into_inner(self) -> M
        ensures { result ≡ self.memory }
    {
        let Window { memory, shift: _ } = self;
        memory
    }
}

// Write and clear match by hand: `is_some_and` does not say that a closure that was not called left the memory as it was.
impl<M: Memory> Memory for Window<M> {
    ghost cells = { λ w. drop w.shift (M.Memory.cells w.memory) };

    ghost values = { λ w. window_typed w.shift (M.Memory.cells w.memory) (M.Memory.values w.memory) };

    fn size(&self) -> usize {
        self.memory.size().saturating_sub(self.shift)
    }

    fn read(&self, cell: usize) -> Option<Value> {
        self.memory.read(self.below(cell)?)
    }

    fn write(&mut self, cell: usize, value: Value) -> bool
        ensures says { result ≡ writable (drop self.old.shift (M.Memory.cells self.old.memory)) cell value.ty }
        ensures after { drop self.new.shift (M.Memory.cells self.new.memory) ≡ (if result then slice_set (drop self.old.shift (M.Memory.cells self.old.memory)) cell (Some value) else drop self.old.shift (M.Memory.cells self.old.memory)) }
        ensures kept { take self.old.shift (M.Memory.cells self.new.memory) ≡ take self.old.shift (M.Memory.cells self.old.memory) }
        ensures shift { self.new.shift ≡ self.old.shift }
    {
        match self.below(cell) {
            Some(below) => self.memory.write(below, value),
            None => false,
        }
    }

    fn clear(&mut self, cell: usize) -> bool
        ensures says { result ≡ inside (drop self.old.shift (M.Memory.cells self.old.memory)) cell }
        ensures after { drop self.new.shift (M.Memory.cells self.new.memory) ≡ (if result then slice_set (drop self.old.shift (M.Memory.cells self.old.memory)) cell None else drop self.old.shift (M.Memory.cells self.old.memory)) }
        ensures kept { take self.old.shift (M.Memory.cells self.new.memory) ≡ take self.old.shift (M.Memory.cells self.old.memory) }
        ensures shift { self.new.shift ≡ self.old.shift }
    {
        match self.below(cell) {
            Some(below) => self.memory.clear(below),
            None => false,
        }
    }
}
