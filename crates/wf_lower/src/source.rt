// What is lowered: a typed package with its points, and which numbers the started statements of its methods keep.

ghost use Rattle.std.specs.Prelude.{◌≡◌, ◌<◌, length, map, slice_get, Some, IfOk};
ghost use Rattle.wf_ast.specs.TypedInvariant.{IsTyped};
ghost use Rattle.wf_ast.specs.TypedPackage.{MethodTree, package_of};
ghost use Rattle.wf_lower_stmts.specs.BodyNodes.{started_of};
ghost use Rattle.wf_lower.specs.Called.{AreCalled, has_entry as has_entry_of};
ghost use Rattle.wf_lower.specs.Coroutines.{HaveCoroutines, has_coroutine as has_coroutine_of};

use std::alloc::Global;
use wf_ast::{Sequence, StructId, Typed};
use wf_lower_stmts::walks::{StartedNumbers, find_started};
use wf_points::table::Points;
use wf_text::{MethodId, NoMemory};

/// What is lowered.
#[derive(Clone, Copy)]
pub(crate) struct Source<'a> {
    pub(crate) alloc: Global,
    pub(crate) t: &'a Typed,
    pub(crate) points: &'a Points,
    /// The numbers that started statements keep, of each method.
    pub(crate) started: &'a [StartedNumbers],
    /// Whether a method of the package calls it, of each method.
    pub(crate) called: &'a [bool],
    /// Whether it has a coroutine, of each struct.
    pub(crate) coroutines: &'a [bool],
}

impl<'a> Source<'a> {
    /// The numbers that the started statements of a method keep.
    pub(crate) fn started(&self, m: MethodId) -> StartedNumbers
        requires { m.0 < length self.now.started.now }
        ensures { slice_get self.now.started.now m.0 ≡ Some result }
    {
        self.started[m.0 as usize]
    }

    /// Whether a method has an entry.
    pub(crate) fn has_entry(&self, m: MethodId) -> bool
        requires typed { IsTyped self.now.t.now }
        requires called { AreCalled (package_of self.now.t.now) self.now.called.now }
        requires known { m.0 < length self.now.t.now.methods }
        ensures { (method : MethodTree) → slice_get (package_of self.now.t.now).methods m.0 ≡ Some method → result ≡ has_entry_of (package_of self.now.t.now) m.0 method }
    {
        self.t.method(m).public || !self.called[m.0 as usize]
    }

    /// Whether a struct has a coroutine.
    pub(crate) fn has_coroutine(&self, s: StructId) -> bool
        requires coroutines { HaveCoroutines (package_of self.now.t.now) self.now.coroutines.now }
        requires known { s.0 < length self.now.t.now.structs }
        ensures { result ≡ has_coroutine_of (package_of self.now.t.now) s.0 }
    {
        self.coroutines[s.0 as usize]
    }
}

/// How many statements the package has, or a few less: a part's number is below that of its whole. What rests on it is a guess.
pub(crate) fn statements(t: &Typed) -> usize {
    let mut most = 0;
    for method in 0..t.methods() {
        if let Some(last) = t.body(MethodId(method)).items.as_slice().last() {
            most = most.max(last.0 as usize);
        }
    }
    most
}

/// The numbers that the started statements of each method keep.
pub(crate) fn started_by_method(
    alloc: Global,
    t: &Typed,
) -> Result<Sequence<StartedNumbers>, NoMemory>
    requires { IsTyped t.now }
    ensures { IfOk result (λ started. started ≡ map started_of (package_of t.now).methods) }
{
    let mut started = Sequence::new(alloc);
    for m in 0..t.methods() {
        started.push(find_started(t, t.body(MethodId(m))))?;
    }
    Ok(started)
}
