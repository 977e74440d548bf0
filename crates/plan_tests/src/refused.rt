// Each refusal beside its accepted neighbour.
use crate::plans::{answer, number_of, operation, step};
use compile::compile::compile;
use plan::text::{Counts, Plan};

// The answer for functions with these counts and no steps or operations.
fn functions(counts: &[Counts]) -> Option<u16> {
    let plan = Plan {
        functions: counts,
        steps: &[],
        operations: &[],
    };
    let mut code = [0; 1024];
    let mut infos = [0; 260];
    let mut table = [0; 780];
    answer(compile(&plan, &mut code, &mut infos, &mut table))
}

#[test]
fn number_of_functions(rt: HostRuntime) {
    let counts = [Counts {
        steps: 0,
        operations: 0,
    }; 65];
    assert!(rt; functions(&counts[..0]) == Some(10));
    assert!(rt; functions(&counts[..1]) == None);
    assert!(rt; functions(&counts[..64]) == None);
    assert!(rt; functions(&counts) == Some(10));
}

#[test]
fn counts(rt: HostRuntime) {
    let nops = [operation(0, 0, 0); 256];
    assert!(rt; number_of(&[], &nops[..255]) == None);
    assert!(rt; number_of(&[], &nops) == Some(11));
    let pushes = [
        step(0, 3, 0),
        step(0, 5, 0),
        step(0, 6, 0),
        step(0, 7, 0),
        step(0, 12, 0),
        step(0, 13, 0),
        step(0, 14, 0),
        step(0, 15, 0),
        step(1, 0, 8),
        step(2, 3, 0),
        step(2, 3, 0),
    ];
    assert!(rt; number_of(&pushes[..10], &[]) == None);
    assert!(rt; number_of(&pushes, &[]) == Some(11));
}

#[test]
fn steps(rt: HostRuntime) {
    // 12: kinds, registers, unused fields
    assert!(rt; number_of(&[step(4, 0, 0)], &[]) == Some(12));
    assert!(rt; number_of(&[step(0, 4, 0)], &[]) == Some(12));
    assert!(rt; number_of(&[step(0, 5, 8)], &[]) == Some(12));
    assert!(rt; number_of(&[step(1, 5, 8)], &[]) == Some(12));
    assert!(rt; number_of(&[step(0, 5, 0)], &[]) == None);
    // 13: pushed or saved twice
    assert!(rt; number_of(&[step(0, 5, 0), step(0, 5, 0)], &[]) == Some(13));
    assert!(rt; number_of(&[step(0, 5, 0), step(1, 0, 8), step(3, 5, 0)], &[]) == Some(13));
    assert!(rt; number_of(&[step(0, 5, 0), step(1, 0, 8), step(3, 6, 0)], &[]) == None);
    // 14: order, frame register
    assert!(rt; number_of(&[step(1, 0, 8), step(0, 5, 0)], &[]) == Some(14));
    assert!(rt; number_of(&[step(1, 0, 8), step(1, 0, 8)], &[]) == Some(14));
    assert!(rt; number_of(&[step(0, 12, 0), step(2, 12, 0)], &[]) == Some(14));
    assert!(rt; number_of(&[step(0, 13, 0), step(2, 13, 0)], &[]) == None);
    assert!(rt; number_of(&[step(0, 13, 0), step(2, 5, 0)], &[]) == Some(14));
}

#[test]
fn numbers_of_steps(rt: HostRuntime) {
    assert!(rt; number_of(&[step(1, 0, 0)], &[]) == Some(15));
    assert!(rt; number_of(&[step(1, 0, 8)], &[]) == None);
    assert!(rt; number_of(&[step(1, 0, 12)], &[]) == Some(15));
    assert!(rt; number_of(&[step(1, 0, 2_097_152)], &[]) == None);
    assert!(rt; number_of(&[step(1, 0, 2_097_160)], &[]) == Some(15));
    assert!(rt; number_of(&[step(0, 5, 0), step(2, 5, 240)], &[]) == None);
    assert!(rt; number_of(&[step(0, 5, 0), step(2, 5, 256)], &[]) == Some(15));
    assert!(rt; number_of(&[step(0, 5, 0), step(2, 5, 8)], &[]) == Some(15));
    assert!(rt; number_of(&[step(1, 0, 16), step(3, 5, 8)], &[]) == None);
    assert!(rt; number_of(&[step(1, 0, 16), step(3, 5, 16)], &[]) == Some(15));
    assert!(rt; number_of(&[step(3, 5, 0)], &[]) == Some(15));
    assert!(rt; number_of(&[step(1, 0, 16), step(3, 5, 8), step(3, 6, 8)], &[]) == Some(15));
    assert!(rt; number_of(&[step(1, 0, 40), step(3, 5, 24)], &[operation(3, 0, 0)]) == Some(15));
    assert!(rt; number_of(&[step(1, 0, 40), step(3, 5, 32)], &[operation(3, 0, 0)]) == None);
}

#[test]
fn alignment(rt: HostRuntime) {
    assert!(rt; number_of(&[step(1, 0, 40)], &[operation(3, 0, 0)]) == None);
    assert!(rt; number_of(&[step(1, 0, 48)], &[operation(3, 0, 0)]) == Some(16));
    assert!(rt; number_of(&[step(1, 0, 24)], &[operation(3, 0, 0)]) == Some(16));
    assert!(rt; number_of(&[step(0, 5, 0), step(1, 0, 32)], &[operation(3, 0, 0)]) == None);
    assert!(rt; number_of(&[step(1, 0, 48)], &[operation(0, 0, 0)]) == None);
}

#[test]
fn operations(rt: HostRuntime) {
    let frame = [step(0, 5, 0), step(2, 5, 0)];
    assert!(rt; number_of(&frame, &[operation(4, 0, 0)]) == Some(17));
    assert!(rt; number_of(&frame, &[operation(0, 0, 1)]) == Some(17));
    assert!(rt; number_of(&frame, &[operation(1, 11, -1)]) == None);
    assert!(rt; number_of(&frame, &[operation(1, 4, 0)]) == Some(17));
    assert!(rt; number_of(&frame, &[operation(1, 5, 0)]) == Some(17));
    assert!(rt; number_of(&[step(0, 5, 0)], &[operation(1, 5, 0)]) == None);
    assert!(rt; number_of(&frame, &[operation(2, 0, 16)]) == None);
    assert!(rt; number_of(&frame, &[operation(2, 0, 0)]) == Some(17));
    assert!(rt; number_of(&frame, &[operation(2, 0, 65520)]) == None);
    assert!(rt; number_of(&frame, &[operation(2, 0, 65536)]) == Some(17));
    assert!(rt; number_of(&frame, &[operation(2, 0, -16)]) == Some(17));
    assert!(rt; number_of(&[], &[operation(2, 0, 16)]) == Some(17));
    assert!(rt; number_of(&[step(1, 0, 40)], &[operation(3, 1, 0)]) == Some(17));
}

// The first refusal wins: an earlier step's 15 before a later step's 12, 15 before 16, 17 before 18.
#[test]
fn order_of_checks(rt: HostRuntime) {
    assert!(rt; number_of(&[step(1, 0, 4), step(9, 0, 0)], &[]) == Some(15));
    assert!(rt; number_of(&[step(1, 0, 4)], &[operation(3, 0, 0)]) == Some(15));
    let counts = [Counts {
        steps: 0,
        operations: 1,
    }];
    let operations = [operation(9, 0, 0)];
    let plan = Plan {
        functions: &counts,
        steps: &[],
        operations: &operations,
    };
    assert!(rt; answer(compile(&plan, &mut [], &mut [], &mut [])) == Some(17));
}
