// Frame descriptions in a text file: functions one after another, a step or an operation a line.
use crate::names::register_number;
use anyhow::anyhow;
use layout::refusal::Numbered;
use plan::refusal::{PlanReason, PlanRefusal};
use plan::text::{Counts, OperationRecord, Plan, StepRecord};
use std::alloc::{AllocError, Global};
use thiserror::Error;

// What is wrong with a line.
#[derive(Clone, Copy, PartialEq, Eq, Debug, Error)]
pub enum LineFault {
    #[error("it is no function, step or operation")]
    Unknown,
    #[error("no integer register has this name")]
    Register,
    #[error("a number is expected, that fits into 32 bits")]
    Number,
    #[error("no function has the name that is called")]
    Callee,
    #[error("a function above has the same name")]
    SameName,
    #[error("a step stands below an operation, but the prologue comes first")]
    LateStep,
    #[error("it stands above the first function")]
    NoFunction,
}

// What a line adds.
#[derive(Clone, Copy)]
enum Line<'a> {
    Function(&'a str),
    Step(StepRecord),
    Operation(OperationRecord),
}

// The words of a line, up to a `#`.
fn words_of(heap: Global, line: &str) -> Result<Vec<&str>, AllocError> {
    let text = line.split_once('#').map_or(line, |parts| parts.0);
    text.split_whitespace().collect(heap)
}

// A number in decimal, or in hexadecimal after `0x`, either with `-` in front.
fn signed(text: &str) -> Result<i64, LineFault> {
    let (sign, digits) = match text.strip_prefix('-') {
        Some(rest) => (-1i64, rest),
        None => (1, text),
    };
    // The library would take a `+` in front of digits.
    if digits.contains('+') {
        return Err(LineFault::Number);
    }
    let size = match digits.strip_prefix("0x") {
        Some(hex) => u32::from_str_radix(hex, 16),
        None => u32::from_str_radix(digits, 10),
    };
    let n = size.map_err(|_| LineFault::Number)?;
    Ok(sign * i64::from(n))
}

fn step(kind: u8, register: u8, number: &str) -> Result<Line<'static>, LineFault> {
    let number = u32::try_from(signed(number)?).map_err(|_| LineFault::Number)?;
    Ok(Line::Step(StepRecord {
        kind,
        register,
        number,
    }))
}

fn operation(kind: u8, first: u8, number: &str) -> Result<Line<'static>, LineFault> {
    let number = i32::try_from(signed(number)?).map_err(|_| LineFault::Number)?;
    Ok(Line::Operation(OperationRecord {
        kind,
        first,
        number,
    }))
}

fn register(name: &str) -> Result<u8, LineFault> {
    register_number(name).ok_or(LineFault::Register)
}

// The index of a function. One above 255 has no place in a record; then there are too many functions, which is refused first.
fn callee(names: &[&str], name: &str) -> Result<u8, LineFault> {
    let index = names
        .iter()
        .position(|n| *n == name)
        .ok_or(LineFault::Callee)?;
    Ok(u8::try_from(index).unwrap_or(u8::MAX))
}

// What the words of a line say, in a file whose functions have these names.
fn line_of<'a>(words: &[&'a str], names: &[&str]) -> Result<Line<'a>, LineFault> {
    match *words {
        ["function", name] => Ok(Line::Function(name)),
        ["push", r] => step(0, register(r)?, "0"),
        ["allocate", size] => step(1, 0, size),
        ["frame", r, offset] => step(2, register(r)?, offset),
        ["save", r, offset] => step(3, register(r)?, offset),
        ["nop"] => operation(0, 0, "0"),
        ["set", r, value] => operation(1, register(r)?, value),
        ["reserve", size] => operation(2, 0, size),
        ["call", name] => operation(3, callee(names, name)?, "0"),
        _ => Err(LineFault::Unknown),
    }
}

// The rule that a refusal names.
fn rule_of(reason: PlanReason) -> &'static str {
    match reason {
        PlanReason::FunctionCount => "a module has 1 to 64 functions",
        PlanReason::Counts => "a function has at most 10 steps and 255 operations",
        PlanReason::StepKind => "only RBX, RBP, RSI, RDI, R12 to R15 are pushed or saved",
        PlanReason::Repeated => "a register is pushed or saved once",
        PlanReason::Order =>
            "first pushes, then one allocate, frame on a pushed register (not R12)",
        PlanReason::Number => "the size or offset is not allowed here",
        PlanReason::Alignment => "a function that calls aligns RSP to 16 and allocates 32 or more",
        PlanReason::Operation => "the operation is not allowed here",
        PlanReason::Buffer => "a buffer is too short",
    }
}

// The names of the functions, in order.
fn names_of<'a>(heap: Global, text: &'a str) -> Result<Vec<&'a str>, AllocError> {
    let mut names = Vec::new(heap);
    for line in text.lines() {
        if let ["function", name] = *words_of(heap, line)?.as_slice() {
            names.push(name)?;
        }
    }
    Ok(names)
}

// The lists of a description, as the compiler is lent them, and the line of each of their records, counted from 1.
#[derive(Drop)]
pub struct PlanFile<'a> {
    pub names: Vec<&'a str>,
    functions: Vec<Counts>,
    steps: Vec<StepRecord>,
    operations: Vec<OperationRecord>,
    function_lines: Vec<usize>,
    step_lines: Vec<usize>,
    operation_lines: Vec<usize>,
}

impl<'a> PlanFile<'a> {
    // Reads a whole file; what is wrong is said with its line.
    pub fn read(heap: Global, text: &'a str) -> anyhow::Result<PlanFile<'a>> {
        let mut file = PlanFile {
            names: names_of(heap, text)?,
            functions: Vec::new(heap),
            steps: Vec::new(heap),
            operations: Vec::new(heap),
            function_lines: Vec::new(heap),
            step_lines: Vec::new(heap),
            operation_lines: Vec::new(heap),
        };
        for (k, line) in text.lines().enumerate() {
            let number = k.saturating_add(1);
            let words = words_of(heap, line)?;
            if words.is_empty() {
                continue;
            }
            let line = line_of(words.as_slice(), file.names.as_slice());
            match line.and_then(|line| file.fitting(line)) {
                Ok(line) => file.push(number, line)?,
                Err(fault) => return Err(anyhow!("line {number}: {fault}")),
            }
        }
        Ok(file)
    }

    // The same line, if it may come next.
    fn fitting<'l>(&self, line: Line<'l>) -> Result<Line<'l>, LineFault> {
        match line {
            Line::Function(name) => {
                let first = self.names.iter().position(|n| *n == name);
                if first.is_some_and(|k| k < self.functions.len()) {
                    return Err(LineFault::SameName);
                }
            }
            Line::Step(_) => {
                let counts = self.functions.last().ok_or(LineFault::NoFunction)?;
                if counts.operations > 0 {
                    return Err(LineFault::LateStep);
                }
            }
            Line::Operation(_) => {
                self.functions.last().ok_or(LineFault::NoFunction)?;
            }
        }
        Ok(line)
    }

    // Adds a line that may come next. A count that has no room for one more is over its limit all the same.
    fn push(&mut self, number: usize, line: Line<'_>) -> Result<(), AllocError> {
        match line {
            Line::Function(_) => {
                self.functions.push(Counts {
                    steps: 0,
                    operations: 0,
                })?;
                self.function_lines.push(number)?;
            }
            Line::Step(record) => {
                self.steps.push(record)?;
                self.step_lines.push(number)?;
                if let Some(counts) = self.functions.last_mut() {
                    counts.steps = counts.steps.saturating_add(1);
                }
            }
            Line::Operation(record) => {
                self.operations.push(record)?;
                self.operation_lines.push(number)?;
                if let Some(counts) = self.functions.last_mut() {
                    counts.operations = counts.operations.saturating_add(1);
                }
            }
        }
        Ok(())
    }

    // What the compiler takes.
    pub fn plan(&self) -> Plan<'_> {
        Plan {
            functions: self.functions.as_slice(),
            steps: self.steps.as_slice(),
            operations: self.operations.as_slice(),
        }
    }

    // The line of what is refused, or none where it is no line's fault.
    fn line_refused(&self, refusal: PlanRefusal) -> Option<usize> {
        let lines = match refusal.reason {
            PlanReason::FunctionCount | PlanReason::Buffer => return None,
            PlanReason::Counts | PlanReason::Alignment => &self.function_lines,
            PlanReason::Operation => &self.operation_lines,
            _ => &self.step_lines,
        };
        lines.get(refusal.index).copied()
    }

    // A refusal of the compiler in words, with its line.
    pub fn explain(&self, refusal: PlanRefusal) -> anyhow::Error {
        let number = refusal.number();
        let rule = rule_of(refusal.reason);
        match self.line_refused(refusal) {
            Some(line) => anyhow!("line {line}: refused with {number}, {rule}"),
            None => anyhow!("refused with {number}, {rule}"),
        }
    }
}
