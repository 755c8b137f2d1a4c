// A memory over lent records: a record for each cell, unset where its type is none.
ghost use Rattle.std.specs.Prelude.{◌≡◌, if◌then◌else◌, length, Some, None, nat_lt, slice_set};
ghost use Rattle.memories.specs.Cells.{writable, inside, record_cells, cleared};
ghost use Rattle.memories.specs.Typed.{records_typed};

use crate::memory::Memory;
use crate::typed::{is_type, seen};
use crate::value::Value;

// Not one type with `CellBytes`: a trait for their places would be longer than the three lines that the two share.
#[derive(Debug, Drop)]
pub struct CellRecords<'a> {
    records: &'a mut [Value],
}

impl<'a> CellRecords<'a> {
    pub fn new(records: &'a mut [Value]) -> CellRecords<'a>
        ensures holds { result.records.now ≡ records.old }
        ensures lent { result.records.ghost_name ≡ records.entry.ghost_name }
    {
        CellRecords { records }
    }

    // Says no outside, and then leaves all as it is.
    // By index, since `get_mut` of a slice promises nothing of what the slice holds afterwards.
    fn put(&mut self, cell: usize, value: Value) -> bool
        ensures says { result ≡ nat_lt cell (length self.old.records.now) }
        ensures records { self.new.records.now ≡ (if result then slice_set self.old.records.now cell value else self.old.records.now) }
        ensures lent { self.new.records.ghost_name ≡ self.old.records.ghost_name }
    {
        let inside = cell < self.records.len();
        if inside {
            self.records[cell] = value;
        }
        inside
    }
}

impl Memory for CellRecords<'_> {
    ghost cells = { λ m. record_cells m.records.now };

    ghost values = { λ m. records_typed m.records.now };

    fn size(&self) -> usize {
        self.records.len()
    }

    fn read(&self, cell: usize) -> Option<Value> {
        seen(*self.records.get(cell)?)
    }

    fn write(&mut self, cell: usize, value: Value) -> bool
        ensures says { result ≡ writable (record_cells self.old.records.now) cell value.ty }
        ensures after { record_cells self.new.records.now ≡ (if result then slice_set (record_cells self.old.records.now) cell (Some value) else record_cells self.old.records.now) }
        ensures records { self.new.records.now ≡ (if result then slice_set self.old.records.now cell value else self.old.records.now) }
        ensures lent { self.new.records.ghost_name ≡ self.old.records.ghost_name }
    {
        is_type(value.ty) && self.put(cell, value)
    }

    fn clear(&mut self, cell: usize) -> bool
        ensures says { result ≡ inside (record_cells self.old.records.now) cell }
        ensures after { record_cells self.new.records.now ≡ (if result then slice_set (record_cells self.old.records.now) cell None else record_cells self.old.records.now) }
        ensures records { self.new.records.now ≡ (if result then slice_set self.old.records.now cell cleared else self.old.records.now) }
        ensures lent { self.new.records.ghost_name ≡ self.old.records.ghost_name }
    {
        self.put(cell, Value::default())
    }
}
