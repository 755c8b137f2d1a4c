// What an operator answers.
use memories::Value;

// Why there is no value.
#[derive(Clone, Copy, Debug, PartialEq, Eq)]
pub enum NoAnswer {
    // an int was to be divided by zero
    ZeroDivisor,
    // the operator has no rule for values of this type
    NoRule,
}

pub type Answer = Result<Value, NoAnswer>;
