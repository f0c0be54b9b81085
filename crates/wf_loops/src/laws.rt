// The laws of loops, over every state of whole numbers. Each is the contract of a function that does nothing. A state is
// lawful where every variable of the method has a value of its type.

ghost use Rattle.std.specs.Prelude.{◌≡◌, true, List, None, Some, slice_get};
ghost use Rattle.wf_text.specs.declared.place.Place.{Place};
ghost use Rattle.wf_ast.specs.declared.numbers.ExprId.{ExprId};
ghost use Rattle.wf_ast.specs.declared.numbers.StmtId.{StmtId};
ghost use Rattle.wf_ast.specs.declared.typed_code.Block.{Block};
ghost use Rattle.wf_ast.specs.declared.typed_code.LoopHead.{LoopHead};
ghost use Rattle.wf_ast.specs.declared.typed_code.Stmt.TheVariants as stmts;
ghost use Rattle.wf_ast.specs.declared.typed_code.StmtNode.{StmtNode};
ghost use Rattle.wf_ast.specs.declared.typed_nodes.TypedNodes.{TypedNodes};
ghost use Rattle.wf_ast.specs.TypedTree.{Head};
ghost use Rattle.wf_ast.specs.TypedTrees.{head_made, tree_of};
ghost use Rattle.wf_ast.specs.TypedInvariant.{IsTyped, is_expr};
ghost use Rattle.wf_ast.specs.Value.{State};
ghost use Rattle.wf_ast.specs.WellTyped.{Context, well_cond};
ghost use Rattle.wf_ast.specs.NodeKinds.{is_condition_at, node_cond};
ghost use Rattle.wf_facts_exprs.specs.Claims.{Claim, AllTrue};
ghost use Rattle.wf_facts_exprs.specs.LawfulState.{IsLawful, well_claims};
ghost use Rattle.wf_loops.specs.declared.moments.Moment.TheVariants.{Test, Leave};
ghost use Rattle.wf_loops.specs.LoopRules.{entry_refusal, way_back_refusal, break_refusal, test_refusal, head_list, body_list, exit_list, after_list};
ghost use Rattle.wf_loops.specs.LoopNodes.{is_loop, head_at, place_at};
ghost use Rattle.wf_loops.specs.LoopLaws.{well_head, AllHold, Tested};

/// Where the facts at a loop's entry are true and its entry isn't refused, `pre` and `inv` are true, and so is the head
/// list; likewise at each way back.
pub fn a_head_list_is_true()
    ensures entry { (c : Context) (s : State) (fs : List Claim) (at : Place) (head : Head) → IsLawful c s → well_claims c fs ≡ true → well_head c head ≡ true → AllTrue s fs → entry_refusal fs at head ≡ None → AllHold s Test head.clauses × AllTrue s (head_list head) }
    ensures way_back { (c : Context) (s : State) (fs : List Claim) (at : Place) (head : Head) → IsLawful c s → well_claims c fs ≡ true → well_head c head ≡ true → AllTrue s fs → way_back_refusal fs at head ≡ None → AllHold s Test head.clauses × AllTrue s (head_list head) }
{}

/// Where the head list is true and the test of the condition isn't refused, the condition isn't stuck: it goes into the
/// body, whose first list is true, or it ends the loop, whose `inv` and `post` are true, and so is the list after it.
pub fn a_test_of_a_loop_is_not_stuck()
    ensures { (c : Context) (s : State) (at : Place) (head : Head) → IsLawful c s → well_head c head ≡ true → AllTrue s (head_list head) → test_refusal at head ≡ None → Tested s head }
{}

/// Where the facts at a `break` are true and it isn't refused, `inv` and `post` are true, and so is the list after the
/// loop that it leaves.
pub fn what_a_break_leaves_is_true()
    ensures { (c : Context) (s : State) (fs : List Claim) (at : Place) (head : Head) → IsLawful c s → well_claims c fs ≡ true → well_head c head ≡ true → AllTrue s fs → break_refusal fs at head ≡ None → head.is_left ≡ true → AllHold s Leave head.clauses × AllTrue s (after_list head) }
{}

/// The lists of a loop that keeps the rules of types keep them too.
pub fn lists_of_a_loop_are_well_typed()
    ensures at_head { (c : Context) (head : Head) → well_head c head ≡ true → well_claims c (head_list head) ≡ true }
    ensures in_body { (c : Context) (head : Head) (fs : List Claim) → well_head c head ≡ true → well_claims c fs ≡ true → well_claims c (body_list fs head) ≡ true }
    ensures at_exit { (c : Context) (head : Head) (fs : List Claim) → well_head c head ≡ true → well_claims c fs ≡ true → well_claims c (exit_list fs head) ≡ true }
    ensures after { (c : Context) (head : Head) → well_head c head ≡ true → well_claims c (after_list head) ≡ true }
{}

/// A condition that keeps the rules of types is one of the package by its number. So is a loop that keeps them, by the
/// number of its statement, with its head and its place: the calls of this crate may be made for each loop of a body.
pub fn a_well_typed_loop_is_found_by_its_number()
    ensures condition { (nodes : TypedNodes) (c : Context) (e : ExprId) → IsTyped nodes → is_expr nodes e ≡ true → well_cond c (node_cond nodes e) ≡ true → is_condition_at nodes e ≡ true }
    ensures is_loop { (nodes : TypedNodes) (c : Context) (w : StmtId) (node : StmtNode) (head : LoopHead) (body : Block) → IsTyped nodes → slice_get nodes.stmts w.0 ≡ Some node → node.stmt ≡ stmts.While head body → well_head c (head_made (tree_of nodes) node.inner head) ≡ true → is_loop nodes w ≡ true }
    ensures head { (nodes : TypedNodes) (w : StmtId) (node : StmtNode) (head : LoopHead) (body : Block) → slice_get nodes.stmts w.0 ≡ Some node → node.stmt ≡ stmts.While head body → head_at nodes w ≡ head_made (tree_of nodes) node.inner head }
    ensures place { (nodes : TypedNodes) (w : StmtId) (node : StmtNode) → slice_get nodes.stmts w.0 ≡ Some node → place_at nodes w ≡ node.at }
{}
