// Laws of the source's meaning. Each is the contract of a function that does nothing.

ghost use Rattle.std.specs.Prelude.{◌≡◌, ℕ, true, List, Some, None, slice_get, ◌∷◌};
ghost use Rattle.wf_text.specs.Seen.{Answer};
ghost use Rattle.wf_text.specs.HostActions.{Receiver};
ghost use Rattle.wf_base.specs.HostRun.{Host, HostCall, answers};
ghost use Rattle.wf_ast.specs.declared.typed_nodes.TypedNodes.{TypedNodes};
ghost use Rattle.wf_ast.specs.TypedPackage.{MethodTree, PackageTree, package_of};
ghost use Rattle.wf_ast.specs.TypedInvariant.{IsTyped};
ghost use Rattle.wf_ast.specs.WellTyped.{is_pure};
ghost use Rattle.wf_ast.specs.Value.{Value};
ghost use Rattle.wf_meaning.specs.SourceState.{Remaining, Object, SourceState, disabled, fresh_state};
ghost use Rattle.wf_meaning.specs.Entry.{bad_argument, refusal_of};
ghost use Rattle.wf_meaning.specs.SourceCall.{source_call, source_init, called, all_bodies, seen_answer, host_values};
ghost use Rattle.wf_meaning_laws.specs.Started.{IsStarted};
ghost use Rattle.wf_meaning_laws.specs.Active.{IsCoroutine, IsSteady};

/// A pure method of a disabled receiver. Where an argument is wrong, the call answers as that of a ready receiver does, and
/// leaves everything as it was; with lawful arguments it comes to what the method's body comes to.
pub fn disabled_receivers()
    ensures argument { (p : PackageTree) (state : SourceState) (call : HostCall) (h : Host) (n : ℕ) (m : MethodTree) (o : Object) (inside : List Object)
        → slice_get p.methods call.method ≡ Some m → slice_get state call.receiver ≡ Some (Some (o ∷ inside)) → o.life ≡ disabled → is_pure m.mark ≡ true
        → host_values h.arrays m.args call.args ≡ None
        → source_call p state call h n ≡ answers (seen_answer p (refusal_of m bad_argument)) (state, h) }
    ensures body { (p : PackageTree) (state : SourceState) (call : HostCall) (h : Host) (n : ℕ) (m : MethodTree) (o : Object) (inside : List Object) (args : List Value)
        → slice_get p.methods call.method ≡ Some m → slice_get state call.receiver ≡ Some (Some (o ∷ inside)) → o.life ≡ disabled → is_pure m.mark ≡ true
        → host_values h.arrays m.args call.args ≡ Some args
        → source_call p state call h n
        ≡ called p state call.receiver (all_bodies p (record { object = 0; method = call.method; args = args }) n (record { objects = o ∷ inside; host = h })) }
{}

/// In every state that a host reaches, the first of the statements that remain of a suspended coroutine is one that can have
/// done what is kept of it: so it is at first, and after each init and each call.
pub fn what_remains_was_started()
    ensures first { (p : PackageTree) (receivers : List Receiver) → IsStarted (fresh_state p receivers) }
    ensures init { (p : PackageTree) (state : SourceState) (r turns : ℕ) (a : Answer) (after : SourceState)
        → IsStarted state → source_init p state r turns ≡ answers a after → IsStarted after }
    ensures call { (p : PackageTree) (state : SourceState) (call : HostCall) (h : Host) (n : ℕ) (a : Answer) (after : SourceState × Host)
        → IsStarted state → source_call p state call h n ≡ answers a after → IsStarted after.0 }
{}

/// In every state of a typed package that a host reaches, what is active in a struct state, whether a host holds it or it stands
/// inside another, is a coroutine of the package, and something remains of it. `IsSteady` says so, and is so at first, and after
/// each init and each call.
pub fn an_active_coroutine_has_something_remaining()
    ensures remains { (p : PackageTree) (state : SourceState) (r number k : ℕ) (objects : List Object) (o : Object)
        → IsSteady p state → slice_get state r ≡ Some (Some objects) → slice_get objects number ≡ Some o → o.active ≡ Some k
        → IsCoroutine p k × ((left : Remaining) × (slice_get o.remaining k ≡ Some (Some left))) }
    ensures first { (p : PackageTree) (receivers : List Receiver) → IsSteady p (fresh_state p receivers) }
    ensures init { (p : PackageTree) (state : SourceState) (r turns : ℕ) (a : Answer) (after : SourceState)
        → IsSteady p state → source_init p state r turns ≡ answers a after → IsSteady p after }
    ensures call { (nodes : TypedNodes) (state : SourceState) (call : HostCall) (h : Host) (n : ℕ) (a : Answer) (after : SourceState × Host)
        → IsTyped nodes → IsSteady (package_of nodes) state → source_call (package_of nodes) state call h n ≡ answers a after
        → IsSteady (package_of nodes) after.0 }
{}
