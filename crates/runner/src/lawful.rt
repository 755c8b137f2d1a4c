// Which values may be given to a script.
ghost use Rattle.std.specs.Prelude.{◌≡◌, Some, None, if◌then◌else◌};
ghost use Rattle.runner.specs.Given.{lawful_float, lawful, all_lawful, acceptable, kept};

use arrayvec::ArrayVec;
use memories::Value;

// The most inputs of a script.
pub const MOST_INPUTS: usize = 64;

// The inputs that a script is opened with.
pub type Inputs = ArrayVec<Value, MOST_INPUTS>;

// There is one NaN.
#[tactic(auto, using(crate::proofs::Floats::nan_lawful))]
fn is_lawful_float(word: u32) -> bool
    ensures { result ≡ lawful_float word }
{
    word % 0x8000_0000 <= 0x7F80_0000 || word == 0x7FC0_0000
}

fn is_lawful(value: Value) -> bool
    ensures { result ≡ lawful value }
{
    match value.ty {
        1 => value.word <= 1,
        2 => true,
        3 => is_lawful_float(value.word),
        _ => false,
    }
}

fn all_lawful(values: &[Value]) -> bool
    ensures { result ≡ all_lawful values.now }
{
    values.iter().all(|value| is_lawful(*value))
}

// The inputs, if there are at most 64, each lawful.
pub fn accepted(inputs: &[Value]) -> Option<Inputs>
    ensures { result ≡ (if acceptable inputs.now then Some (kept inputs.now) else None) }
{
    match Inputs::try_from(inputs) {
        Ok(values) if all_lawful(inputs) => Some(values),
        _ => None,
    }
}
