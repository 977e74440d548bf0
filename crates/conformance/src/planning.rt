// Frame descriptions as lines give them: COUNTS STEPS OPS.
use crate::list::{Notation, list};
use plan::text::{Counts, OperationRecord, Plan, StepRecord};
use protocol::bad::Bad;
use protocol::number::{number, signed_number};
use protocol::parts::Parts;
use std::alloc::Global;

// `steps.operations`
impl Notation for Counts {
    fn read(text: &[u8]) -> Result<Counts, Bad> {
        let mut parts = Parts::new(text, b'.');
        let steps = number(parts.part()?)?;
        let operations = number(parts.part()?)?;
        parts.end()?;
        Ok(Counts { steps, operations })
    }
}

// `kind.register.number`
impl Notation for StepRecord {
    fn read(text: &[u8]) -> Result<StepRecord, Bad> {
        let mut parts = Parts::new(text, b'.');
        let kind = number(parts.part()?)?;
        let register = number(parts.part()?)?;
        let number = number(parts.part()?)?;
        parts.end()?;
        Ok(StepRecord {
            kind,
            register,
            number,
        })
    }
}

// `kind.first.number`
impl Notation for OperationRecord {
    fn read(text: &[u8]) -> Result<OperationRecord, Bad> {
        let mut parts = Parts::new(text, b'.');
        let kind = number(parts.part()?)?;
        let first = number(parts.part()?)?;
        let number = signed_number(parts.part()?)?;
        parts.end()?;
        Ok(OperationRecord {
            kind,
            first,
            number,
        })
    }
}

// The three lists of a description.
#[derive(Drop)]
pub struct Description {
    functions: Vec<Counts>,
    steps: Vec<StepRecord>,
    operations: Vec<OperationRecord>,
}

impl Description {
    // Takes the next three fields.
    pub fn read(heap: Global, fields: &mut Parts) -> Result<Description, Bad> {
        Ok(Description {
            functions: list(heap, fields.part()?)?,
            steps: list(heap, fields.part()?)?,
            operations: list(heap, fields.part()?)?,
        })
    }

    pub fn plan(&self) -> Plan<'_> {
        Plan {
            functions: self.functions.as_slice(),
            steps: self.steps.as_slice(),
            operations: self.operations.as_slice(),
        }
    }
}
