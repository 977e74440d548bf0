// Bytes of compiled functions.
use crate::plans::{answer, operation, step};
use compile::compile::compile;
use compile::lengths::Lengths;
use plan::text::{Counts, Plan};
use std::test::Fail;
use worked::example::compile_worked;

#[test]
fn worked_function(rt: HostRuntime) -> Result<(), Fail> {
    let mut code = [0xaa; 32];
    let mut infos = [0xaa; 20];
    let mut table = [0xaa; 16];
    let lengths = compile_worked(&mut code, &mut infos, &mut table)?;
    let expected = Lengths {
        code: 28,
        infos: 16,
        table: 12,
    };
    assert!(rt; lengths == expected);
    assert!(rt;
        code[..28]
            == [
                0x55, 0x53, 0x48, 0x83, 0xec, 0x38, 0x48, 0x8d, 0x6c, 0x24, 0x20, 0x48, 0x89, 0x74,
                0x24, 0x28, 0x90, 0x48, 0x8b, 0x75, 0x08, 0x48, 0x8d, 0x65, 0x18, 0x5b, 0x5d, 0xc3,
            ]
    );
    assert!(rt; code[28..] == [0xaa, 0xaa, 0xaa, 0xaa]);
    assert!(rt;
        infos[..16]
            == [
                0x01, 0x10, 0x06, 0x25, 0x10, 0x64, 0x05, 0, 0x0b, 0x03, 0x06, 0x62, 0x02, 0x30,
                0x01, 0x50,
            ]
    );
    assert!(rt; infos[16..] == [0xaa, 0xaa, 0xaa, 0xaa]);
    assert!(rt; table[..12] == [0, 0x10, 0, 0, 0x1c, 0x10, 0, 0, 0, 0x20, 0, 0]);
    assert!(rt; table[12..] == [0xaa, 0xaa, 0xaa, 0xaa]);
    Ok(())
}

// Two functions that call each other: a gap of CC, and displacements from the ends of the calls.
#[test]
fn two_functions(rt: HostRuntime) {
    let counts = [
        Counts {
            steps: 1,
            operations: 1,
        },
        Counts {
            steps: 1,
            operations: 1,
        },
    ];
    let steps = [step(1, 0, 40), step(1, 0, 40)];
    let operations = [operation(3, 1, 0), operation(3, 0, 0)];
    let plan = Plan {
        functions: &counts,
        steps: &steps,
        operations: &operations,
    };
    let mut code = [0; 30];
    let mut infos = [0; 16];
    let mut table = [0; 24];
    assert!(rt; answer(compile(&plan, &mut code, &mut infos, &mut table)) == None);
    assert!(rt;
        code == [
            0x48, 0x83, 0xec, 0x28, 0xe8, 0x07, 0, 0, 0, 0x48, 0x83, 0xc4, 0x28, 0xc3, 0xcc, 0xcc,
            0x48, 0x83, 0xec, 0x28, 0xe8, 0xe7, 0xff, 0xff, 0xff, 0x48, 0x83, 0xc4, 0x28, 0xc3,
        ]
    );
    assert!(rt; infos == [1, 4, 1, 0, 4, 0x42, 0, 0, 1, 4, 1, 0, 4, 0x42, 0, 0]);
    assert!(rt;
        table
            == [
                0, 0x10, 0, 0, 0x0e, 0x10, 0, 0, 0, 0x20, 0, 0, 0x10, 0x10, 0, 0, 0x1e, 0x10, 0, 0,
                8, 0x20, 0, 0,
            ]
    );
}

// A buffer that is one byte short: 18, and all three stay.
#[test]
fn short_buffers(rt: HostRuntime) {
    let mut code = [0xaa; 28];
    let mut infos = [0xaa; 16];
    let mut table = [0xaa; 12];
    assert!(rt; answer(compile_worked(&mut code[..27], &mut infos, &mut table)) == Some(18));
    assert!(rt; answer(compile_worked(&mut code, &mut infos[..15], &mut table)) == Some(18));
    assert!(rt; answer(compile_worked(&mut code, &mut infos, &mut table[..11])) == Some(18));
    assert!(rt; code == [0xaa; 28]);
    assert!(rt; infos == [0xaa; 16]);
    assert!(rt; table == [0xaa; 12]);
    assert!(rt; answer(compile_worked(&mut code, &mut infos, &mut table)) == None);
}
