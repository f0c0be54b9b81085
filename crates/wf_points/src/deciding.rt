// The phase of points: the table of a package's suspension points, or the refusal of a method that has too many.

ghost use Rattle.std.specs.Prelude.{◌≡◌, ℕ, ◌<◌, length, map, slice_get, Some, None, IfOk, IfErr, OnOk};
ghost use Rattle.wf_text.specs.Precedence.{Decides};
ghost use Rattle.wf_ast.specs.TypedPackage.{MethodTree, package_of};
ghost use Rattle.wf_ast.specs.TypedInvariant.{IsTyped};
ghost use Rattle.wf_points.specs.PointNumbers.{HasTooMany, IsRefusedFor, number_at, point_number, saved_locals};
ghost use Rattle.wf_points.specs.FoundPoints.{NumbersMethod, NumbersMethods, limit_of};

use crate::finding::{FoundPoint, find_points};
use crate::numbering::number_points;
use crate::saving::find_saved;
use crate::table::Points;
use std::alloc::{AllocError, Global};
use wf_ast::{LocalId, Sequence, Typed};
use wf_text::precedence::sooner;
use wf_text::{MethodId, PhaseFault, Refusal, Rule};

const MOST_POINTS: usize = 1024;

/// The suspension points of a package. Refused by L9 at the first token of the 1,025th point of a method; where several
/// methods have so many, by the first refusal. `Memory` where memory was refused. It takes time in proportion to the
/// package's statements, and recurses as deep as these stand inside one another.
pub fn points(alloc: Global, t: &Typed) -> Result<Points, PhaseFault>
    requires { IsTyped t.now }
    ensures numbers { IfOk result (λ points. (s : ℕ) → number_at points.numbers s ≡ point_number (package_of t.now).methods s) }
    ensures saved { IfOk result (λ points. points.saved ≡ map saved_locals (package_of t.now).methods) }
    ensures few { OnOk result (Decides (HasTooMany (package_of t.now)) None) }
    ensures refused { IfErr result (IsRefusedFor (package_of t.now)) }
{
    let mut numbers = Vec::new(alloc);
    match number_methods(alloc, t, &mut numbers)? {
        None => {
            let saved = saved_by_method(alloc, t)?;
            Ok(Points { numbers, saved })
        }
        Some(refusal) => Err(PhaseFault::Refused(refusal)),
    }
}

// Numbers the points of all methods; where one has too many it answers the first refusal.
fn number_methods(
    alloc: Global,
    t: &Typed,
    numbers: &mut Vec<Option<u32>>,
) -> Result<Option<Refusal>, AllocError>
    requires { IsTyped t.now }
    ensures { IfOk result (λ refusal. NumbersMethods numbers.old.items numbers.new.items refusal (package_of t.now).methods) }
{
    let mut refusal = None;
    for m in 0..t.methods() {
        refusal = sooner(refusal, number_method(alloc, t, MethodId(m), numbers)?);
    }
    Ok(refusal)
}

// Numbers the points of a method, or answers its refusal where it has too many.
fn number_method(
    alloc: Global,
    t: &Typed,
    m: MethodId,
    numbers: &mut Vec<Option<u32>>,
) -> Result<Option<Refusal>, AllocError>
    requires typed { IsTyped t.now }
    requires known { m.0 < length t.now.methods }
    ensures { IfOk result (λ refusal. (method : MethodTree) → slice_get (package_of t.now).methods m.0 ≡ Some method → NumbersMethod numbers.old.items numbers.new.items refusal method) }
{
    let found = find_points(alloc, t, t.body(m))?;
    match too_many(found.as_slice()) {
        Some(refusal) => Ok(Some(refusal)),
        None => {
            number_points(numbers, found.as_slice())?;
            Ok(None)
        }
    }
}

// The refusal at the point after the last one that a method may have.
fn too_many(points: &[FoundPoint]) -> Option<Refusal>
    ensures { result ≡ limit_of points.now }
{
    let point = points.get(MOST_POINTS)?;
    Some(Refusal {
        rule: Rule::L9,
        at: point.at,
    })
}

// The locals that each method keeps.
fn saved_by_method(alloc: Global, t: &Typed) -> Result<Sequence<Sequence<LocalId>>, AllocError>
    requires { IsTyped t.now }
    ensures { IfOk result (λ saved. saved ≡ map saved_locals (package_of t.now).methods) }
{
    let mut saved = Sequence::new(alloc);
    for m in 0..t.methods() {
        saved.push(find_saved(alloc, t.method(MethodId(m)).locals.as_slice())?)?;
    }
    Ok(saved)
}
