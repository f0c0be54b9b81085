// The trees of statements without blocks, by their numbers. The law is the contract of a function that does nothing.

ghost use Rattle.std.specs.Prelude.{◌≡◌, true, Some, slice_get};
ghost use Rattle.wf_ast.specs.declared.numbers.StmtId.{StmtId};
ghost use Rattle.wf_ast.specs.declared.typed_code.StmtNode.{StmtNode};
ghost use Rattle.wf_ast.specs.declared.typed_nodes.TypedNodes.{TypedNodes};
ghost use Rattle.wf_ast.specs.TypedTree.{Block, plain};
ghost use Rattle.wf_ast.specs.TypedTrees.{stmt_made, tree_of};
ghost use Rattle.wf_bounds_stmts.specs.Passing.{fits_receiver, has_no_block, is_single, receiver_fits, simple_at, site_at};

/// A statement's node without blocks makes the tree that is found by its number: before whatever follows it in its block.
pub fn a_statement_without_blocks_is_found_by_its_number()
    ensures makes { (nodes : TypedNodes) (s : StmtId) (node : StmtNode) (inner : StmtId → Block → Block) (rest : Block) → slice_get nodes.stmts s.0 ≡ Some node → has_no_block node.stmt ≡ true → stmt_made nodes (tree_of nodes) inner s.0 node rest ≡ plain (site_at nodes s) (simple_at nodes s) rest }
    ensures alone { (nodes : TypedNodes) (s : StmtId) (node : StmtNode) → slice_get nodes.stmts s.0 ≡ Some node → is_single nodes s ≡ has_no_block node.stmt }
    ensures place { (nodes : TypedNodes) (s : StmtId) (node : StmtNode) → slice_get nodes.stmts s.0 ≡ Some node → (site_at nodes s).at ≡ node.at }
    ensures receiver { (nodes : TypedNodes) (s : StmtId) (node : StmtNode) → slice_get nodes.stmts s.0 ≡ Some node → fits_receiver nodes s ≡ receiver_fits nodes node.stmt }
{}
