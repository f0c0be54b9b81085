// Where no rule of names is broken the resolved package is well named. Each law is the contract of a function that does
// nothing.

ghost use Rattle.std.specs.Prelude.{◌≡◌, ℕ, true, List, [], ◌++◌, map, length, slice_get, Option, None, Some};
ghost use Rattle.std.specs.List.{list_all};
ghost use Rattle.wf_text.specs.Precedence.{Decides};
ghost use Rattle.wf_ast.specs.declared.parsed.Name.{Name};
ghost use Rattle.wf_ast.specs.declared.parsed.WrittenMark.{WrittenMark};
ghost use Rattle.wf_ast.specs.ParsedTree.{BlockTree, CallTree, ExprTree, TypeTree};
ghost use Rattle.wf_named.specs.WellNamed.{NamedScope as NamedScope, all_whole, has_few_variables, named_block, named_call, named_consts, named_expr, named_method, named_structs, named_type, scope_of_const, scope_of_method, scope_of_struct, well_named};
ghost use Rattle.wf_names_rules.specs.Declarations.{Constant, Declared, Method, Structure, Variable, as_variable};
ghost use Rattle.wf_names_rules.specs.Uses.{Scope, block_uses, call_uses, constant_scope, method_scope, sites, struct_scope, type_uses, uses_of};
ghost use Rattle.wf_names_rules.specs.Jumps.{block_jumps};
ghost use Rattle.wf_names_rules.specs.NameRules.{Breaks, IsMethod};
ghost use Rattle.wf_names_scopes.specs.UsesFound.{uses_found};
ghost use Rattle.wf_names_resolve.specs.Standing.{standing_at};
ghost use Rattle.wf_names_resolve.specs.Resolved.{resolved_block, resolved_call, resolved_expr, resolved_type};
ghost use Rattle.wf_names_resolve.specs.Package.{method_in};
ghost use Rattle.wf_names_laws.specs.Kept.{AreKept, AreKeptSites, HaveLoops};
ghost use Rattle.wf_names_laws.specs.Ordered.{HasOrder};
ghost use Rattle.wf_names_laws.specs.ResolvedScopes.{IsScopeOf};
ghost use Rattle.wf_names_laws.specs.Unbroken.{WhereNoRuleIsBroken};

/// Where no rule is broken nothing is found of the uses of names (clause `none`), every use keeps the rules (clause `kept`),
/// and every jump has its loop (clause `loops`).
pub fn where_no_rule_is_broken_every_use_keeps_the_rules()
    ensures none { (d : Declared) → Decides (Breaks d) None → uses_found d None ≡ None }
    ensures kept { (d : Declared) → Decides (Breaks d) None → AreKeptSites d (sites d) }
    ensures loops { (d : Declared) → Decides (Breaks d) None → (m : Method) → IsMethod d m → HaveLoops (block_jumps [] m.body) }
{}

/// What keeps the rules is well named, in every scope of a resolved package that knows what the scope of the package
/// knows: expressions, calls, types, and blocks with all that stands in them.
pub fn what_keeps_the_rules_is_well_named()
    ensures exprs { (d : Declared) (scope : Scope) (s : NamedScope) → IsScopeOf d scope s → (e : ExprTree) → AreKept d scope (uses_of e)
        → named_expr s (resolved_expr (standing_at d scope) e) ≡ true }
    ensures calls { (d : Declared) (scope : Scope) (s : NamedScope) → IsScopeOf d scope s → (c : CallTree) → AreKept d scope (call_uses c)
        → named_call s (resolved_call (standing_at d scope) c) ≡ true }
    ensures types { (d : Declared) (scope : Scope) (s : NamedScope) → IsScopeOf d scope s → (t : TypeTree) → AreKept d scope (type_uses t)
        → named_type s (resolved_type (standing_at d scope) t) ≡ true }
    ensures blocks { (d : Declared) (scope : Scope) (s : NamedScope) → IsScopeOf d scope s → (loops : List (Option Name)) (b : BlockTree) → AreKept d scope (block_uses b)
        → HaveLoops (block_jumps loops b) → named_block s (length loops) (resolved_block (standing_at d scope) loops b) ≡ true }
{}

/// Where no rule is broken the scopes of the resolved package know what those of the package know: that of a constant with
/// those before it, that of each struct and that of each method.
pub fn resolved_scopes_know_as_much()
    ensures consts { WhereNoRuleIsBroken (λ d p. (known : List Variable) (others : List Constant) → known ++ map as_variable others ≡ map as_variable d.constants
        → IsScopeOf d (constant_scope known) (scope_of_const p (length known))) }
    ensures structs { WhereNoRuleIsBroken (λ d p. (n : ℕ) (it : Structure) → slice_get d.structs n ≡ Some it → IsScopeOf d (struct_scope d it) (scope_of_struct p n)) }
    ensures methods { WhereNoRuleIsBroken (λ d p. (mark : WrittenMark) (m : Method) → IsScopeOf d (method_scope d m) (scope_of_method p (method_in d mark m))) }
{}

/// Where no rule is broken all declarations of the resolved package are well named: constants, each by those before
/// it, the fields of structs, and methods with their bodies.
pub fn declarations_are_well_named()
    ensures consts { WhereNoRuleIsBroken (λ d p. named_consts p 0 p.consts ≡ true) }
    ensures structs { WhereNoRuleIsBroken (λ d p. named_structs p 0 p.structs ≡ true) }
    ensures methods { WhereNoRuleIsBroken (λ d p. list_all (named_method p) p.methods ≡ true) }
{}

/// And no struct of it holds itself.
pub fn structs_are_whole()
    ensures { WhereNoRuleIsBroken (λ d p. all_whole p 0 p.structs ≡ true) }
{}

/// And no method of it has too many arguments or locals.
pub fn methods_have_few_variables()
    ensures { WhereNoRuleIsBroken (λ d p. list_all has_few_variables p.methods ≡ true) }
{}

/// Where no rule is broken the resolved package is well named, if its order has all methods, each after those that it
/// calls.
pub fn a_package_that_breaks_no_rule_is_well_named()
    ensures { WhereNoRuleIsBroken (λ d p. HasOrder p → well_named p ≡ true) }
{}
