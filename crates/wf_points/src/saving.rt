// Which locals a method keeps at a suspension: all but slices.

ghost use Rattle.std.specs.Prelude.{◌≡◌, IfOk, map};
ghost use Rattle.wf_ast.specs.TypedPackage.{variable_of};
ghost use Rattle.wf_ast.specs.declared.typed_nodes.TypedNodes.{TypedNodes};
ghost use Rattle.wf_points.specs.PointNumbers.{locals_kept};

use std::alloc::{AllocError, Global};
use wf_ast::{LocalId, Sequence, Ty, Var};

/// The locals that aren't slices, in order. `Err` also comes where no number is left, which L7 rules out.
pub(crate) fn find_saved(alloc: Global, locals: &[Var]) -> Result<Sequence<LocalId>, AllocError>
    ensures { IfOk result (λ saved. (nodes : TypedNodes) → saved ≡ locals_kept 0 (map (variable_of nodes) locals.now)) }
{
    let mut saved = Sequence::new(alloc);
    for x in 0..locals.len() {
        if !matches!(locals[x].ty, Ty::Slice(_)) {
            let number = u32::try_from(x).map_err(|_| AllocError)?;
            saved.push(LocalId(number))?;
        }
    }
    Ok(saved)
}
