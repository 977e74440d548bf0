// Where the functions of a module start, and how long its code and infos are.
ghost use Rattle.std.specs.Prelude.{◌≡◌, ◌+◌, ◌^◌, ◌<◌, ◌≤◌, length, take, Ok};
ghost use Rattle.plan.specs.Functions.{text_of, functions_of};
ghost use Rattle.plan.specs.Layouts.{up, starts, code, infos};
ghost use Rattle.plan.specs.Verdicts.{plan_verdict};

use crate::info::info_size;
use body::function::function_size;
use plan::check::MAX_FUNCTIONS;
use plan::text::Plan;

// Code starts at this RVA, and infos at a multiple of it.
pub(crate) const FIRST_RVA: usize = 4096;

// The first of `starts`, as many as the plan has functions, are set: there is no heap for a list of just these.
#[derive(Clone, Copy)]
pub(crate) struct Layout {
    pub starts: [u32; MAX_FUNCTIONS],
    pub code: usize,
    pub infos: usize,
}

// The first multiple of 16 from `x` up.
pub(crate) fn up16(x: usize) -> usize
    requires { x < 2 ^ 32 }
    ensures { result ≡ up 16 x }
{
    x.next_multiple_of(16)
}

// Where the infos start, after so many bytes of code.
pub(crate) fn info_start(code: usize) -> usize
    requires { code < 2 ^ 32 }
    ensures { result ≡ 4096 + up 4096 code }
{
    FIRST_RVA + code.next_multiple_of(4096)
}

pub(crate) fn measure(plan: &Plan) -> Layout
    requires { plan_verdict (text_of plan.now) ≡ Ok tt }
    ensures starts { take (length plan.now.functions.now) result.starts ≡ starts (functions_of (text_of plan.now)) }
    ensures code { result.code ≡ length (code (functions_of (text_of plan.now))) }
    ensures infos { result.infos ≡ length (infos (functions_of (text_of plan.now))) }
    ensures bound { result.code ≤ 200000 }
{
    let mut starts = [0; MAX_FUNCTIONS];
    let mut at = FIRST_RVA;
    let mut infos = 0;
    // By an index, since a proof knows nothing of an array after `iter_mut().zip(..)` over it.
    for (k, f) in plan.functions().enumerate() {
        let begin = up16(at);
        starts[k] = begin as u32;
        at = begin + function_size(f);
        infos += info_size(f.steps);
    }
    Layout {
        starts,
        code: at - FIRST_RVA,
        infos,
    }
}
