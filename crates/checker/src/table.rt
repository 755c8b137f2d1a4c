// Nodes and notes by their number, which counts from 1.
ghost use Rattle.std.specs.Prelude.{◌≡◌};
ghost use Rattle.checker.specs.Tree.{item_at};

pub fn item_at<T: Copy>(items: &[T], number: u16) -> Option<T>
    ensures { result ≡ item_at items.now number }
{
    let place = number.checked_sub(1)?;
    items.get(place as usize).copied()
}
