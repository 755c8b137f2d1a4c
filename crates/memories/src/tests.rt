ghost use Rattle.std.specs.Prelude.{◌≡◌};

use crate::bytes::CellBytes;
use crate::memory::Memory;
use crate::records::CellRecords;
use crate::value::Value;
use crate::window::Window;

fn int(word: u32) -> Value {
    Value { ty: 2, word }
}

fn array(word: u32) -> Value {
    Value { ty: 6, word }
}

// What was written stands in the lent records once the memory is gone.
fn lent() -> u32
    ensures { result ≡ 9 }
{
    let mut row = [Value::default(); 2];
    {
        let mut memory = CellRecords::new(&mut row);
        let _said = memory.write(1, Value { ty: 2, word: 9 });
    }
    row[1].word
}

#[test]
fn unset_in_bytes(rt: HostRuntime) {
    let mut image = [0, 9, 9, 9, 9, 7, 0, 0, 0, 1, 255, 1, 2, 3, 4, 6, 6, 6];
    let memory = CellBytes::new(&mut image);
    assert_eq!(rt; memory.size(), 3);
    assert!(rt; memory.read(0).is_none() && memory.read(1).is_none());
    assert!(rt; memory.read(2).is_none() && memory.read(3).is_none());
}

#[test]
fn set_in_bytes(rt: HostRuntime) {
    let mut image = [2, 0, 0, 1, 44, 255, 0, 0, 0, 9, 8, 8, 8];
    let mut memory = CellBytes::new(&mut image);
    assert!(rt; memory.read(0) == Some(int(300)));
    assert!(rt; memory.write(1, array(0x01020304)) && memory.clear(0));
    assert!(rt; !memory.clear(2) && !memory.write(2, int(1)));
    assert!(rt; !memory.write(1, Value::default()) && !memory.write(1, Value { ty: 7, word: 0 }));
    assert!(rt; image == [0, 0, 0, 0, 0, 6, 1, 2, 3, 4, 8, 8, 8]);
}

#[test]
fn records_as_cells(rt: HostRuntime) {
    let mut row = [int(1), Value { ty: 7, word: 1 }, Value::default()];
    let mut memory = CellRecords::new(&mut row);
    assert!(rt;
        memory.read(0) == Some(int(1)) && memory.read(1).is_none() && memory.read(2).is_none()
    );
    assert!(rt; memory.write(2, array(5)) && memory.clear(0));
    assert!(rt; memory.read(2) == Some(array(5)) && memory.read(0).is_none());
    assert!(rt; !memory.write(3, int(1)) && !memory.write(0, Value::default()) && !memory.clear(3));
    assert_eq!(rt; lent(), 9);
}

#[test]
fn windows(rt: HostRuntime) {
    let mut row = [int(10), int(11), int(12), int(13)];
    let outer = Window::new(CellRecords::new(&mut row), 1);
    let mut inner = Window::new(outer, 2);
    assert_eq!(rt; inner.size(), 1);
    assert!(rt; inner.read(0) == Some(int(13)) && inner.read(1).is_none());
    assert!(rt; inner.write(0, int(7)) && !inner.clear(1));
    let outer = inner.into_inner();
    assert!(rt; outer.read(2) == Some(int(7)) && outer.read(0) == Some(int(11)));
}

#[test]
fn window_past_the_end(rt: HostRuntime) {
    let mut image = [2, 0, 0, 0, 1, 2, 0, 0, 0, 2];
    let mut past = Window::new(CellBytes::new(&mut image), 3);
    assert!(rt; past.size() == 0 && past.read(0).is_none() && !past.clear(0));
    let mut far = Window::new(past.into_inner(), usize::MAX);
    assert!(rt; far.read(1).is_none() && !far.write(1, int(3)) && !far.clear(2));
    let near = Window::new(far.into_inner(), 1);
    assert!(rt; near.size() == 1 && near.read(0) == Some(int(2)));
}
