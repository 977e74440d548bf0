// What a caller gives: functions by their counts, and the joint lists of steps and operations.
ghost use Rattle.std.specs.Prelude.{◌≡◌, take, drop};
ghost use Rattle.std.specs.Iterator.{YieldsFirstBy, item_count};
ghost use Rattle.plan.specs.Functions.{text_of, functions_of, function_of, functions_left};

// How many steps and operations a function has.
#[derive(Clone, Copy, PartialEq, Eq, Debug)]
pub struct Counts {
    pub steps: u16,
    pub operations: u16,
}

// A step of a prologue, by kind: 0 pushes the register, 1 allocates `number` bytes, 2 sets the register as frame register at
// RSP + `number`, 3 saves the register at RSP + `number`. A field that a kind does not use is 0. The kind stays a number, since a
// caller may give any, and the check refuses an unknown one. The records stay the caller's, and what they mean is said of each,
// since a list of steps would want room of its own.
#[derive(Clone, Copy, PartialEq, Eq, Debug)]
pub struct StepRecord {
    pub kind: u8,
    pub register: u8,
    pub number: u32,
}

// An operation of a body, by kind: 0 does nothing, 1 sets register `first` to `number`, 2 reserves `number` bytes, 3 calls
// function `first`. A field that a kind does not use is 0. The kind stays a number, as in a step.
#[derive(Clone, Copy, PartialEq, Eq, Debug)]
pub struct OperationRecord {
    pub kind: u8,
    pub first: u8,
    pub number: i32,
}

// The functions of a module; their steps and operations lie one function's after another's.
#[derive(Clone, Copy, PartialEq, Eq, Debug)]
pub struct Plan<'a> {
    pub functions: &'a [Counts],
    pub steps: &'a [StepRecord],
    pub operations: &'a [OperationRecord],
}

impl<'a> Plan<'a> {
    // The functions one by one. Where a list is shorter than the counts say, a function has what is left of it.
    pub fn functions(&self) -> Functions<'a>
        ensures { functions_left result ≡ functions_of (text_of self.now) }
    {
        Functions {
            counts: self.functions,
            steps: self.steps,
            operations: self.operations,
        }
    }
}

// One function: the steps of its prologue and the operations of its body.
#[derive(Clone, Copy, PartialEq, Eq, Debug)]
pub struct Function<'a> {
    pub steps: &'a [StepRecord],
    pub operations: &'a [OperationRecord],
}

// The functions of a plan that are left, with the joint lists from the first of them on.
#[derive(Drop)]
pub struct Functions<'a> {
    counts: &'a [Counts],
    steps: &'a [StepRecord],
    operations: &'a [OperationRecord],
}

impl<'a> Iterator for Functions<'a> {
    type Item = Function<'a>;

    ghost next_gives = { YieldsFirstBy function_of functions_left };

    ghost remaining = { item_count functions_left };

    #[tactic(auto, unfolding(crate::specs::Functions::functions_in))]
    fn next(&mut self) -> Option<Function<'a>> {
        let (c, counts) = self.counts.split_first()?;
        let (steps, later_steps) = first_of(self.steps, c.steps);
        let (operations, later_operations) = first_of(self.operations, c.operations);
        self.counts = counts;
        self.steps = later_steps;
        self.operations = later_operations;
        Some(Function { steps, operations })
    }
}

// The first `count` records of a list, or all where it has fewer, and the others.
fn first_of<T>(list: &[T], count: u16) -> (&[T], &[T])
    ensures first { result.0.now ≡ take count list.now }
    ensures others { result.1.now ≡ drop count list.now }
{
    list.split_at(list.len().min(usize::from(count)))
}
