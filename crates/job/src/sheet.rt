// A job sheet: what a job may use, its inputs and its script's table.
ghost use Rattle.std.specs.Prelude.{◌≡◌, ◌≤◌, length, Ok};
ghost use Rattle.job.specs.Lines.{cut};
ghost use Rattle.job.specs.declared.sheet.SheetQuestion.TheVariants.{FieldWidth};
ghost use Rattle.job.specs.Format.{question_number, asked, none_above, input_largest, node_largest, input_of, node_of};
ghost use Rattle.job.specs.Format.{opened, first_line, input_line, node_line};
ghost use Rattle.job.specs.Format.{and_then, later_line, later_lines, next_line, sheet_of};
ghost use Rattle.job.specs.Meant.{meant, carried, meaning};
ghost use Rattle.job.specs.Writing.{ReadsBack};

use crate::cut::{cut_first, fields};
use arrayvec::ArrayVec;
use checker::node::{MOST_NODES, Node};
use memories::Value;
use runner::MOST_INPUTS;
use runner::granting::STEPS;
use std::num::TryFromIntError;

const NEWLINE: u8 = b'\n';

// The questions that are asked of a sheet. Each has a number that hosts know it by.
#[derive(Clone, Copy, Debug, PartialEq, Eq)]
pub enum SheetQuestion {
    // Is the first line a C line with cells and steps that a job may have?
    FirstLine = 21,
    // Is each later line well formed and in turn?
    LineForm = 22,
    // Does each field fit its width?
    FieldWidth = 23,
    // Are there at most 64 I lines and 4,096 N lines?
    LineCount = 24,
}

impl SheetQuestion {
    pub fn number(&self) -> u16
        ensures { result ≡ question_number self.now }
    {
        *self as u16
    }
}

// Why a sheet is refused, and the number of its line, from 1.
#[derive(Clone, Copy, Debug, PartialEq, Eq)]
pub struct SheetRefusal {
    pub question: SheetQuestion,
    pub line: u32,
}

#[derive(Debug, Drop, Eq, PartialEq)]
pub struct Sheet {
    pub cells: u16,
    pub steps: u64,
    inputs: ArrayVec<Value, MOST_INPUTS>,
    table: ArrayVec<Node, MOST_NODES>,
}

// A number that does not fit its field's type is too wide.
impl From<TryFromIntError> for SheetQuestion {
    ghost from_gives = { λ _ q. q ≡ FieldWidth };

    fn from(_e: TryFromIntError) -> SheetQuestion {
        SheetQuestion::FieldWidth
    }
}

fn input_of(numbers: [u64; 2]) -> Result<Value, SheetQuestion>
    ensures { result ≡ asked FieldWidth (none_above input_largest numbers) (Ok (input_of numbers)) }
{
    let [ty, word] = numbers;
    Ok(Value {
        ty: u8::try_from(ty)?,
        word: u32::try_from(word)?,
    })
}

fn node_of(numbers: [u64; 8]) -> Result<Node, SheetQuestion>
    ensures { result ≡ asked FieldWidth (none_above node_largest numbers) (Ok (node_of numbers)) }
{
    let [kind, ty, value, a, b, c, next, line] = numbers;
    Ok(Node {
        kind: u8::try_from(kind)?,
        ty: u8::try_from(ty)?,
        value: u32::try_from(value)?,
        a: u16::try_from(a)?,
        b: u16::try_from(b)?,
        c: u16::try_from(c)?,
        next: u16::try_from(next)?,
        line: u16::try_from(line)?,
    })
}

impl Sheet {
    // A sheet of the first line alone.
    fn new(cells: u16, steps: u64) -> Sheet
        ensures { meant result ≡ opened cells steps }
    {
        Sheet {
            cells,
            steps,
            inputs: ArrayVec::new(),
            table: ArrayVec::new(),
        }
    }

    // Each line so far but the first has given an input or a node.
    fn next_line(&self) -> u32
        ensures { result ≡ next_line (meant self.now) }
    {
        2 + (self.inputs.len() + self.table.len()) as u32
    }

    fn add_input(&mut self, numbers: [u64; 2]) -> Result<(), SheetQuestion>
        ensures { carried result (meant self.new) ≡ input_line (meant self.old) numbers }
    {
        if !self.table.is_empty() {
            return Err(SheetQuestion::LineForm);
        }
        let value = input_of(numbers)?;
        self.inputs
            .try_push(value)
            .map_err(|_| SheetQuestion::LineCount)
    }

    fn add_node(&mut self, numbers: [u64; 8]) -> Result<(), SheetQuestion>
        ensures { carried result (meant self.new) ≡ node_line (meant self.old) numbers }
    {
        let node = node_of(numbers)?;
        self.table
            .try_push(node)
            .map_err(|_| SheetQuestion::LineCount)
    }

    fn add_line(&mut self, line: &[u8]) -> Result<(), SheetQuestion>
        ensures { carried result (meant self.new) ≡ later_line (meant self.old) line.now }
    {
        if let Some(numbers) = fields(line, b'I') {
            self.add_input(numbers)
        } else if let Some(numbers) = fields(line, b'N') {
            self.add_node(numbers)
        } else {
            Err(SheetQuestion::LineForm)
        }
    }

    // Adds the line, whose number is the next, or says what is wrong with it.
    fn add_next(&mut self, line: &[u8]) -> Result<(), SheetRefusal>
        ensures { carried result (meant self.new) ≡ and_then (next_line (meant self.old)) (later_line (meant self.old) line.now) (λ s. Ok s) }
    {
        let number = self.next_line();
        self.add_line(line).map_err(|question| SheetRefusal {
            question,
            line: number,
        })
    }

    // Adds the lines of `text`, each ended by a newline.
    fn add_lines(&mut self, text: &[u8]) -> Result<(), SheetRefusal>
        ensures { carried result (meant self.new) ≡ later_lines (meant self.old) (cut 10 text.now) }
    {
        let mut first = cut_first(text, NEWLINE);
        while let Some(rest) = first.rest {
            self.add_next(first.piece)?;
            first = cut_first(rest, NEWLINE);
        }
        if !first.piece.is_empty() {
            return Err(SheetRefusal {
                question: SheetQuestion::LineForm,
                line: self.next_line(),
            });
        }
        Ok(())
    }

    pub fn inputs(&self) -> &[Value]
        ensures rows { result.now ≡ (meant self.now).inputs }
        ensures few { length result.now ≤ 64 }
    {
        self.inputs.as_slice()
    }

    pub fn table(&self) -> &[Node]
        ensures rows { result.now ≡ (meant self.now).table }
        ensures few { length result.now ≤ 4096 }
    {
        self.table.as_slice()
    }
}

fn read_first(line: &[u8]) -> Result<Sheet, SheetQuestion>
    ensures { meaning result ≡ first_line line.now }
{
    let [cells, steps] = fields::<2>(line, b'C').ok_or(SheetQuestion::FirstLine)?;
    match (cells, steps) {
        (1..=0xffff, 1..=STEPS) => Ok(Sheet::new(cells as u16, steps)),
        _ => Err(SheetQuestion::FirstLine),
    }
}

// The sheet that `bytes` writes, or the first line with a fault and the question that it fails.
pub fn read_sheet(bytes: &[u8]) -> Result<Sheet, SheetRefusal>
    ensures exact { meaning result ≡ sheet_of bytes.now }
    ensures back { ReadsBack bytes.now (meaning result) }
{
    let first = cut_first(bytes, NEWLINE);
    let rest = first.rest.ok_or(SheetRefusal {
        question: SheetQuestion::FirstLine,
        line: 1,
    })?;
    let mut sheet = read_first(first.piece).map_err(|question| SheetRefusal { question, line: 1 })?;
    sheet.add_lines(rest)?;
    Ok(sheet)
}
