// The operators on values, and the kinds of the nodes that stand for them.
ghost use Rattle.numbers.specs.Operators.{Decodes, operator_kind, prefix_kind};

#[derive(Clone, Copy, Debug, PartialEq, Eq)]
pub enum Comparison {
    Equal,
    NotEqual,
    Less,
    LessOrEqual,
    Greater,
    GreaterOrEqual,
}

#[derive(Clone, Copy, Debug, PartialEq, Eq)]
pub enum Calculation {
    Add,
    Subtract,
    Multiply,
    Divide,
}

// An operator between two values.
#[derive(Clone, Copy, Debug, PartialEq, Eq)]
pub enum Operator {
    Compare(Comparison),
    Calculate(Calculation),
}

// An operator before a value.
#[derive(Clone, Copy, Debug, PartialEq, Eq)]
pub enum Prefix {
    Plus,
    Minus,
    Not,
}

// That a kind is no operator's.
#[derive(Clone, Copy, Debug, PartialEq, Eq)]
pub struct NoOperator;

// The operator of a node of this kind, if it is one.
impl TryFrom<u8> for Operator {
    type Error = NoOperator;

    ghost try_from_gives = { Decodes operator_kind };

    fn try_from(kind: u8) -> Result<Operator, NoOperator> {
        match kind {
            29 => Ok(Operator::Compare(Comparison::Equal)),
            30 => Ok(Operator::Compare(Comparison::NotEqual)),
            31 => Ok(Operator::Compare(Comparison::Less)),
            32 => Ok(Operator::Compare(Comparison::LessOrEqual)),
            33 => Ok(Operator::Compare(Comparison::Greater)),
            34 => Ok(Operator::Compare(Comparison::GreaterOrEqual)),
            35 => Ok(Operator::Calculate(Calculation::Add)),
            36 => Ok(Operator::Calculate(Calculation::Subtract)),
            37 => Ok(Operator::Calculate(Calculation::Multiply)),
            38 => Ok(Operator::Calculate(Calculation::Divide)),
            _ => Err(NoOperator),
        }
    }
}

// The operator of a node of this kind, if it is one.
impl TryFrom<u8> for Prefix {
    type Error = NoOperator;

    ghost try_from_gives = { Decodes prefix_kind };

    fn try_from(kind: u8) -> Result<Prefix, NoOperator> {
        match kind {
            39 => Ok(Prefix::Plus),
            40 => Ok(Prefix::Minus),
            41 => Ok(Prefix::Not),
            _ => Err(NoOperator),
        }
    }
}
