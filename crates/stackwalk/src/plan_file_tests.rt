// Descriptions in text: what is read, and what is said of a bad line.
use crate::plan_file::PlanFile;
use compile::compile::compile;
use plan::text::{Counts, OperationRecord, Plan, StepRecord};
use std::test::Fail;

fn step(kind: u8, register: u8, number: u32) -> StepRecord {
    StepRecord {
        kind,
        register,
        number,
    }
}

fn operation(kind: u8, first: u8, number: i32) -> OperationRecord {
    OperationRecord {
        kind,
        first,
        number,
    }
}

// What is said of a text that cannot be read or is refused, and nothing where it is accepted.
fn complaint(rt: &HostRuntime, text: &str) -> Result<String, Fail> {
    let file = match PlanFile::read(rt.alloc(), text) {
        Ok(file) => file,
        Err(e) => return Ok(format!(in rt.alloc(); "{e}")?),
    };
    let mut code = [0u8; 4096];
    let mut infos = [0u8; 128];
    let mut table = [0u8; 24];
    match compile(&file.plan(), &mut code, &mut infos, &mut table) {
        Ok(_) => Ok(String::new(rt.alloc())),
        Err(refusal) => {
            let e = file.explain(refusal);
            Ok(format!(in rt.alloc(); "{e}")?)
        }
    }
}

#[test]
fn every_step_and_operation(rt: HostRuntime) -> Result<(), Fail> {
    let text =
        "# prices\n\nfunction a\n push RBX # kept\n\tpush r15\nallocate 0x28\nframe RBX 16\nsave RSI 24\nnop\nset R11 -0x10\nreserve 32\ncall b\nfunction b\r\ncall a";
    let file = PlanFile::read(rt.alloc(), text)?;
    let functions = [
        Counts {
            steps: 5,
            operations: 4,
        },
        Counts {
            steps: 0,
            operations: 1,
        },
    ];
    let steps = [
        step(0, 3, 0),
        step(0, 15, 0),
        step(1, 0, 40),
        step(2, 3, 16),
        step(3, 6, 24),
    ];
    let operations = [
        operation(0, 0, 0),
        operation(1, 11, -16),
        operation(2, 0, 32),
        operation(3, 1, 0),
        operation(3, 0, 0),
    ];
    let plan = Plan {
        functions: &functions,
        steps: &steps,
        operations: &operations,
    };
    assert!(rt; file.plan() == plan);
    assert!(rt; file.names.as_slice() == ["a", "b"].as_slice());
    Ok(())
}

#[test]
fn a_line_that_says_nothing(rt: HostRuntime) -> Result<(), Fail> {
    assert_eq!(rt;
        complaint(&rt, "function a\n psh RBX")?.as_str(),
        "line 2: it is no function, step or operation"
    );
    assert_eq!(rt;
        complaint(&rt, "function a\n push")?.as_str(),
        "line 2: it is no function, step or operation"
    );
    assert_eq!(rt;
        complaint(&rt, "function a\n push RBZ")?.as_str(),
        "line 2: no integer register has this name"
    );
    assert_eq!(rt;
        complaint(&rt, "function a\n allocate 0x1g")?.as_str(),
        "line 2: a number is expected, that fits into 32 bits"
    );
    assert_eq!(rt;
        complaint(&rt, "function a\n allocate 4294967296")?.as_str(),
        "line 2: a number is expected, that fits into 32 bits"
    );
    assert_eq!(rt;
        complaint(&rt, "function a\n allocate -8")?.as_str(),
        "line 2: a number is expected, that fits into 32 bits"
    );
    assert_eq!(rt;
        complaint(&rt, "function a\n allocate +8")?.as_str(),
        "line 2: a number is expected, that fits into 32 bits"
    );
    assert_eq!(rt;
        complaint(&rt, "function a\n set R11 -0x+8")?.as_str(),
        "line 2: a number is expected, that fits into 32 bits"
    );
    assert_eq!(rt;
        complaint(&rt, "function a\n set R11 2147483648")?.as_str(),
        "line 2: a number is expected, that fits into 32 bits"
    );
    assert_eq!(rt;
        complaint(&rt, "function a\n set R11 -2147483648")?.as_str(),
        ""
    );
    assert_eq!(rt;
        complaint(&rt, "function a\n call b")?.as_str(),
        "line 2: no function has the name that is called"
    );
    Ok(())
}

#[test]
fn a_line_out_of_place(rt: HostRuntime) -> Result<(), Fail> {
    assert_eq!(rt;
        complaint(&rt, "# nothing\npush RBX\nfunction a")?.as_str(),
        "line 2: it stands above the first function"
    );
    assert_eq!(rt;
        complaint(&rt, "nop\nfunction a")?.as_str(),
        "line 1: it stands above the first function"
    );
    assert_eq!(rt;
        complaint(&rt, "function a\nnop\n\npush RBX")?.as_str(),
        "line 4: a step stands below an operation, but the prologue comes first"
    );
    assert_eq!(rt;
        complaint(&rt, "function a\nfunction b\nfunction a")?.as_str(),
        "line 3: a function above has the same name"
    );
    Ok(())
}

// The line of the function, the step or the operation that the compiler refuses.
#[test]
fn a_refusal_with_its_line(rt: HostRuntime) -> Result<(), Fail> {
    assert_eq!(rt;
        complaint(&rt, "")?.as_str(),
        "refused with 10, a module has 1 to 64 functions"
    );
    assert_eq!(rt;
        complaint(&rt, "function a\nfunction b\npush RBX\npush RAX")?.as_str(),
        "line 4: refused with 12, only RBX, RBP, RSI, RDI, R12 to R15 are pushed or saved"
    );
    assert_eq!(rt;
        complaint(&rt, "function a\npush RBX\npush RBX")?.as_str(),
        "line 3: refused with 13, a register is pushed or saved once"
    );
    assert_eq!(rt;
        complaint(&rt, "function a\nallocate 8\npush RBX")?.as_str(),
        "line 3: refused with 14, first pushes, then one allocate, frame on a pushed register (not R12)"
    );
    assert_eq!(rt;
        complaint(&rt, "function a\n\nallocate 12")?.as_str(),
        "line 3: refused with 15, the size or offset is not allowed here"
    );
    assert_eq!(rt;
        complaint(&rt, "function a\nfunction b\n\ncall a")?.as_str(),
        "line 2: refused with 16, a function that calls aligns RSP to 16 and allocates 32 or more"
    );
    assert_eq!(rt;
        complaint(&rt, "function a\nnop\nfunction b\nnop\nset RSP 1")?.as_str(),
        "line 5: refused with 17, the operation is not allowed here"
    );
    assert_eq!(rt;
        complaint(
            &rt,
            "function a\npush RBX\npush RBP\npush RSI\npush RDI\npush R12\npush R13\npush R14\npush R15\nallocate 24\nframe RBX 0\nsave RBX 8"
        )?
        .as_str(),
        "line 1: refused with 11, a function has at most 10 steps and 255 operations"
    );
    Ok(())
}
