//! The depth of an expression, from the steps that make it.
ghost use Rattle.std.specs.Prelude.{◌≡◌, ◌+◌, ◌<◌, ◌^◌, map, IfOk, OnOk};
ghost use Rattle.vc_exprio.specs.Depths.{greatest, deepened, depths_after};
ghost use Rattle.vc_exprio.specs.Meaning.{depth};
ghost use Rattle.vc_exprio.specs.Steps.{steps_of};
ghost use Rattle.vc_exprio.specs.Trees.{Tree};
ghost use Rattle.vc_exprio.specs.Views.{step_seen};

use crate::step::Step;
use std::alloc::{AllocError, Global};

/// The greatest of some depths.
#[tactic(auto, using(crate::proofs::StepDepths::greatest_next, crate::proofs::ParserStates::all_taken))]
fn greatest(depths: &[usize]) -> usize
    ensures { result ≡ greatest depths.now }
{
    let mut most = 0;
    for depth in depths {
        if *depth > most {
            most = *depth;
        }
    }
    most
}

/// What is made of the last `count` parts is one deeper than the deepest of them.
fn deepen(depths: &mut Vec<usize>, count: usize) -> Result<(), AllocError>
    requires { greatest depths.old.items + 1 < 2 ^ 64 }
    ensures { OnOk result (depths.new.items ≡ deepened count depths.old.items) }
{
    let at = depths.len().saturating_sub(count);
    let most = greatest(&depths[at..]);
    depths.truncate(at);
    depths.push(most + 1)?;
    Ok(())
}

/// One step.
fn deepen_by(depths: &mut Vec<usize>, step: Step<'_>) -> Result<(), AllocError>
    requires { greatest depths.old.items + 1 < 2 ^ 64 }
    ensures { OnOk result (depths.new.items ≡ depths_after depths.old.items (step_seen step.entry)) }
{
    match step {
        Step::Zero => depths.push(1)?,
        Step::Part(_) => depths.push(1)?,
        Step::More(_) => {}
        Step::Class(_) => depths.push(1)?,
        Step::Group => deepen(depths, 1)?,
        Step::Star => deepen(depths, 1)?,
        Step::Weight(_) => deepen(depths, 1)?,
        Step::Product(count) => deepen(depths, count)?,
        Step::And => deepen(depths, 2)?,
        Step::Shuffle => deepen(depths, 2)?,
        Step::Sum(count) => deepen(depths, count)?,
    }
    Ok(())
}

/// The depth of the expression that the steps make.
pub(crate) fn depth_of(alloc: Global, steps: &[Step<'_>]) -> Result<usize, AllocError>
    ensures { IfOk result (λ found. (t : Tree) → map step_seen steps.now ≡ steps_of t → found ≡ depth t) }
{
    let mut depths = Vec::new(alloc);
    for step in steps {
        deepen_by(&mut depths, *step)?;
    }
    Ok(greatest(&depths))
}
