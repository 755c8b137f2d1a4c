// A memory over lent bytes: five for each cell, its type and then its word, high byte first.
// Bytes at the end that make no whole cell are left alone.
ghost use Rattle.std.specs.Prelude.{◌≡◌, ◌/◌, length, if◌then◌else◌, Some, None, nat_lt, slice_set};
ghost use Rattle.memories.specs.Cells.{writable, inside, cleared};
ghost use Rattle.memories.specs.Layout.{byte_cells, put_cell};
ghost use Rattle.memories.specs.Typed.{bytes_typed};

use crate::memory::Memory;
use crate::typed::{is_type, seen};
use crate::value::Value;

#[derive(Debug, Drop)]
pub struct CellBytes<'a> {
    bytes: &'a mut [u8],
}

impl<'a> CellBytes<'a> {
    pub fn new(bytes: &'a mut [u8]) -> CellBytes<'a>
        ensures holds { result.bytes.now ≡ bytes.old }
        ensures lent { result.bytes.ghost_name ≡ bytes.entry.ghost_name }
    {
        CellBytes { bytes }
    }

    // Says no outside, and then leaves all as it is.
    fn put(&mut self, cell: usize, value: Value) -> bool
        ensures says { result ≡ nat_lt cell (length self.old.bytes.now / 5) }
        ensures bytes { self.new.bytes.now ≡ (if result then put_cell self.old.bytes.now cell value else self.old.bytes.now) }
        ensures lent { self.new.bytes.ghost_name ≡ self.old.bytes.ghost_name }
    {
        let inside = cell < self.bytes.len() / 5;
        if inside {
            let [a, b, c, d] = value.word.to_be_bytes();
            self.bytes[5 * cell..5 * cell + 5].copy_from_slice(&[value.ty, a, b, c, d]);
        }
        inside
    }
}

impl Memory for CellBytes<'_> {
    ghost cells = { λ m. byte_cells m.bytes.now };

    ghost values = { λ m. bytes_typed m.bytes.now };

    #[tactic(auto, using(crate::proofs::Fives::length_bytes))]
    fn size(&self) -> usize {
        self.bytes.len() / 5
    }

    fn read(&self, cell: usize) -> Option<Value> {
        let (cells, _) = self.bytes.as_chunks::<5>();
        let [ty, a, b, c, d] = *cells.get(cell)?;
        let word = u32::from_be_bytes([a, b, c, d]);
        seen(Value { ty, word })
    }

    #[tactic(auto, using(crate::proofs::Fives::length_bytes))]
    fn write(&mut self, cell: usize, value: Value) -> bool
        ensures says { result ≡ writable (byte_cells self.old.bytes.now) cell value.ty }
        ensures after { byte_cells self.new.bytes.now ≡ (if result then slice_set (byte_cells self.old.bytes.now) cell (Some value) else byte_cells self.old.bytes.now) }
        ensures bytes { self.new.bytes.now ≡ (if result then put_cell self.old.bytes.now cell value else self.old.bytes.now) }
        ensures lent { self.new.bytes.ghost_name ≡ self.old.bytes.ghost_name }
    {
        is_type(value.ty) && self.put(cell, value)
    }

    #[tactic(auto, using(crate::proofs::Fives::length_bytes))]
    fn clear(&mut self, cell: usize) -> bool
        ensures says { result ≡ inside (byte_cells self.old.bytes.now) cell }
        ensures after { byte_cells self.new.bytes.now ≡ (if result then slice_set (byte_cells self.old.bytes.now) cell None else byte_cells self.old.bytes.now) }
        ensures bytes { self.new.bytes.now ≡ (if result then put_cell self.old.bytes.now cell cleared else self.old.bytes.now) }
        ensures lent { self.new.bytes.ghost_name ≡ self.old.bytes.ghost_name }
    {
        self.put(cell, Value::default())
    }
}
