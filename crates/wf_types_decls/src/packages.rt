// The rules of types and effects over a whole package: the first refusal, if there is one, and what the typed tree is
// made of.

ghost use Rattle.std.specs.Prelude.{◌≡◌, ◌∷◌, length, map, IfOk, OnOk};
ghost use Rattle.std.specs.List.{flat_map};
ghost use Rattle.wf_ast.specs.ParsedParts.{BlockBelow};
ghost use Rattle.wf_named.specs.NamedParts.{exprs_of, stmts_of, named_package};
ghost use Rattle.wf_named.specs.NamedTrees.{block_at, method_made};
ghost use Rattle.wf_types_rules.specs.DeclaredTypes.{for_types, in_method};
ghost use Rattle.wf_types_rules.specs.Parts.{whole_body, block_parts};
ghost use Rattle.wf_types_exprs.specs.Judged.{judged};
ghost use Rattle.wf_types_decls.specs.Packages.{decided, body_sites, head_of, heads_of, field_types, IsAround, IsJudged};

use crate::declarations::{judge_consts, judge_statuses, status_texts};
use crate::declared_types::{fields_of, judge_fields};
use crate::heads::{Head, judge_heads, method_types};
use std::alloc::Global;
use wf_ast::parsed::Block;
use wf_ast::{Sequence, Ty};
use wf_named::{NamedMethod, NamedNodes};
use wf_text::faults::NoMemory;
use wf_text::found::Found;
use wf_text::rules::Refusal;
use wf_types_exprs::Here;
use wf_types_rules::{Around, Setting};
use wf_types_stmts::ends::judge_whole_body;
use wf_types_stmts::statements::judge_block;

/// What is known of a package once it was judged by the rules of types and effects.
#[derive(Drop)]
pub struct Judged {
    /// The first refusal; None exactly where the package keeps all these rules.
    pub refusal: Option<Refusal>,
    /// The types of the fields of all structs, by struct.
    pub fields: Sequence<Sequence<Option<Ty>>>,
    /// The types of what all methods declare, by method.
    pub heads: Sequence<Head>,
    /// What stands round every method.
    pub around: Setting,
}

/// What stands round the body of a method: what stands round every one, and what it declares.
pub fn round_body<'a>(
    nodes: &NamedNodes,
    around: &'a Setting,
    head: &'a Head,
    fields: &'a [Sequence<Option<Ty>>],
    method: &NamedMethod,
) -> Around<'a>
    requires around { IsAround (named_package nodes.now) around.now }
    requires fields { fields.now ≡ field_types (named_package nodes.now) }
    requires head { head.now ≡ head_of (named_package nodes.now) (method_made nodes.now.texts (exprs_of nodes.now) (stmts_of nodes.now) method.now) }
    ensures { result ≡ in_method (named_package nodes.now) (method_made nodes.now.texts (exprs_of nodes.now) (stmts_of nodes.now) method.now) }
{
    around.in_body(
        fields_of(fields, method.of),
        head.args.as_slice(),
        head.locals.as_slice(),
        method.mark,
        head.gives,
    )
}

// The body of a method, with this round it.
fn judge_body(here: &Here<'_>, found: &mut Found, body: &Block) -> Result<(), NoMemory>
    requires { BlockBelow (length here.now.nodes.now.stmts) body.now }
    ensures { OnOk result (found.new ≡ judged here.now.around.now found.old (whole_body (block_at (stmts_of here.now.nodes.now) body.now) ∷ block_parts (block_at (stmts_of here.now.nodes.now) body.now))) }
{
    judge_whole_body(here, found, body);
    judge_block(here, found, body)
}

// The bodies of all methods, in order.
fn judge_bodies(
    alloc: Global,
    found: &mut Found,
    nodes: &NamedNodes,
    around: &Setting,
    fields: &[Sequence<Option<Ty>>],
    heads: &[Head],
) -> Result<(), NoMemory>
    requires around { IsAround (named_package nodes.now) around.now }
    requires fields { fields.now ≡ field_types (named_package nodes.now) }
    requires heads { heads.now ≡ heads_of (named_package nodes.now) }
    ensures { OnOk result (found.new ≡ decided found.old (flat_map (body_sites (named_package nodes.now)) (map (method_made nodes.now.texts (exprs_of nodes.now) (stmts_of nodes.now)) nodes.now.methods))) }
{
    let methods = nodes.methods();
    for number in 0..methods.len() {
        let method = &methods[number];
        let inside = round_body(nodes, around, &heads[number], fields, method);
        let here = Here {
            alloc,
            nodes,
            around: &inside,
        };
        judge_body(&here, found, &method.body)?;
    }
    Ok(())
}

/// What stands round every method, where `types` knows the constants.
fn round_methods(
    alloc: Global,
    nodes: &NamedNodes,
    types: Setting,
    heads: &[Head],
) -> Result<Setting, NoMemory>
    requires types { types ≡ for_types (named_package nodes.now) }
    requires heads { heads.now ≡ heads_of (named_package nodes.now) }
    ensures { IfOk result (λ s. IsAround (named_package nodes.now) s) }
{
    let mut around = types;
    around.methods = method_types(alloc, nodes, heads)?;
    around.statuses = status_texts(alloc, nodes)?;
    Ok(around)
}

// The bodies, after all that is declared. `types` knows the constants.
fn judge_rest(
    alloc: Global,
    found: &mut Found,
    nodes: &NamedNodes,
    types: Setting,
    fields: Sequence<Sequence<Option<Ty>>>,
    heads: Sequence<Head>,
) -> Result<Judged, NoMemory>
    requires types { types ≡ for_types (named_package nodes.now) }
    requires fields { fields ≡ field_types (named_package nodes.now) }
    requires heads { heads ≡ heads_of (named_package nodes.now) }
    ensures found { IfOk result (λ j. j.refusal ≡ decided found.old (flat_map (body_sites (named_package nodes.now)) (map (method_made nodes.now.texts (exprs_of nodes.now) (stmts_of nodes.now)) nodes.now.methods))) }
    ensures fields { IfOk result (λ j. j.fields ≡ field_types (named_package nodes.now)) }
    ensures heads { IfOk result (λ j. j.heads ≡ heads_of (named_package nodes.now)) }
    ensures around { IfOk result (λ j. IsAround (named_package nodes.now) j.around) }
{
    let around = round_methods(alloc, nodes, types, heads.as_slice())?;
    judge_bodies(
        alloc,
        found,
        nodes,
        &around,
        fields.as_slice(),
        heads.as_slice(),
    )?;
    Ok(Judged {
        refusal: found.first(),
        fields,
        heads,
        around,
    })
}

/// Judges a package by the rules of types and effects, T1 to T5 and E1 to E5: the first refusal, and what its typed tree
/// is made of. `Err` where memory was refused.
pub fn judge_package(alloc: Global, nodes: &NamedNodes) -> Result<Judged, NoMemory>
    ensures { IfOk result (IsJudged (named_package nodes.now)) }
{
    let mut found = Found::nothing();
    let types = judge_consts(alloc, &mut found, nodes)?;
    judge_statuses(&mut found, nodes);
    let around = types.lent();
    let here = Here {
        alloc,
        nodes,
        around: &around,
    };
    let fields = judge_fields(&here, &mut found)?;
    let heads = judge_heads(&here, &mut found)?;
    judge_rest(alloc, &mut found, nodes, types, fields, heads)
}
