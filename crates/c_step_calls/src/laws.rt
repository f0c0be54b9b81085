// What functions answer is of their kinds. Each law is the contract of a function that does nothing.

ghost use Rattle.std.specs.Prelude.{◌≡◌, ℕ, List, [], Some, slice_get};
ghost use Rattle.turns.specs.Run.{Got};
ghost use Rattle.c_meaning.specs.declared.values.CValue.{CValue};
ghost use Rattle.c_meaning.specs.CMemory.{Memory};
ghost use Rattle.c_meaning.specs.CTypes.{Function, function_named};
ghost use Rattle.c_meaning.specs.CStep.{Returned};
ghost use Rattle.c_meaning.specs.CCall.{Program, host_call};
ghost use Rattle.c_text.specs.CTree.{ItemTree};
ghost use Rattle.c_meaning.specs.CCall.{program_of};
ghost use Rattle.c_meaning.specs.CRun.{Loaded, init_of, call_of};
ghost use Rattle.c_meaning.specs.UnitForm.{HasUnitForm};
ghost use Rattle.wf_text.specs.Surface.{PublicStruct, PublicMethod, status};
ghost use Rattle.wf_base.specs.HostRun.{Host, HostCall};
ghost use Rattle.wf_base.specs.LawfulActions.{struct_numbered, method_numbered};
ghost use Rattle.wf_bufs.specs.declared.outcomes.Outcome.{Outcome};
ghost use Rattle.wf_bufs.specs.declared.surfaces.AnswerKind.{AnswerKind};
ghost use Rattle.wf_bufs.specs.SurfaceViews.{answer_kind_of};
ghost use Rattle.wf_bufs.specs.EngineLaw.{done, FitsAnswer};
ghost use Rattle.c_step_engine.specs.Engines.{given};
ghost use Rattle.c_step_calls.specs.Kinds.{ResultIs};

/// What a function returns is a value of the type that it declares.
pub fn a_value_is_of_its_type()
    ensures { (p : Program) (name : List ℕ) (n left : ℕ) (values : List CValue) (memory : Memory) (done : Returned) → host_call p name n values memory ≡ Got left done
        → (f : Function) × (function_named p.functions name ≡ Some f) × ResultIs f.result_type done.value }
{}

/// In a text of the unit form a public call answers what its method declares, and an init a status. The first status is ok,
/// whose text is empty.
pub fn an_answer_is_of_its_kind()
    ensures call { (items : List ItemTree) (it : Loaded) → HasUnitForm it.surface items → it.program ≡ program_of items → slice_get it.surface.statuses 0 ≡ Some []
        → (memory : Memory) (k j : ℕ) (s : PublicStruct) (m : PublicMethod) (known : AnswerKind) (called : HostCall) (host : Host) (n : ℕ) (v : CValue) (outcome : Outcome) (after : Memory × Host)
        → struct_numbered it.surface k ≡ Some s → method_numbered j s ≡ Some m → answer_kind_of known ≡ m.answers → given it.surface (λ x. x) (call_of it memory s m called host n v) ≡ done outcome after → FitsAnswer it.surface m.answers outcome }
    ensures init { (items : List ItemTree) (it : Loaded) → HasUnitForm it.surface items → it.program ≡ program_of items → slice_get it.surface.statuses 0 ≡ Some []
        → (memory : Memory) (s : PublicStruct) (n : ℕ) (v : CValue) (outcome : Outcome) (after : Memory) → given it.surface (λ x. x) (init_of it memory s v n) ≡ done outcome after → FitsAnswer it.surface status outcome }
{}
