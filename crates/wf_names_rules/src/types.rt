// What a written type says of the values that have it.

ghost use Rattle.std.specs.Prelude.{◌≡◌};
ghost use Rattle.wf_ast.specs.ParsedTrees.{type_at, core_at};
ghost use Rattle.wf_names_rules.specs.Declarations.{bytes_of};
ghost use Rattle.wf_names_rules.specs.Meanings.{width_named as width_by_name, width_of, sort_named as sort_by_name, slice_sort as slice_sort_of, array_sort as array_sort_of, sort_of as sort_of_type};

use crate::sorts::Sort;
use crate::tables::text_bytes;
use wf_ast::PackageNodes;
use wf_ast::parsed::{Core, Prefix, TypeExpr};
use wf_base::base_methods::Kind;
use wf_base::widths::Width;

/// The width of the numeric type with this name after `base.`.
pub fn width_named(name: &[u8]) -> Option<Width>
    ensures { result ≡ width_by_name name.now }
{
    if name == b"u8".as_slice() {
        Some(Width::W8)
    } else if name == b"u16".as_slice() {
        Some(Width::W16)
    } else if name == b"u32".as_slice() {
        Some(Width::W32)
    } else if name == b"u64".as_slice() {
        Some(Width::W64)
    } else {
        None
    }
}

/// The width of a type that has no prefix before its core.
pub fn width(parsed: &PackageNodes, core: Core) -> Option<Width>
    ensures { (es : _) (bounds : _) → result ≡ width_of (bytes_of parsed.now.texts) (core_at es core bounds) }
{
    match core {
        Core::Base { name, .. } => width_named(text_bytes(parsed, name.text)),
        Core::BaseStatus { .. } => None,
        Core::Struct(_) => None,
    }
}

fn sort_named(name: &[u8]) -> Sort
    ensures { result ≡ sort_by_name name.now }
{
    if name == b"io_reader".as_slice() {
        Sort::Methods(Kind::Reader)
    } else if name == b"io_writer".as_slice() {
        Sort::Methods(Kind::Writer)
    } else {
        Sort::Plain
    }
}

fn core_sort(parsed: &PackageNodes, core: Core) -> Sort
    ensures { (es : _) (bounds : _) → result ≡ sort_of_type (bytes_of parsed.now.texts) (core_at es core bounds) }
{
    match core {
        Core::Base { name, .. } => sort_named(text_bytes(parsed, name.text)),
        Core::BaseStatus { .. } => Sort::Methods(Kind::Status),
        Core::Struct(name) => Sort::Struct(name.text),
    }
}

fn slice_sort(element: Option<Width>) -> Sort
    ensures { result ≡ slice_sort_of element }
{
    match element {
        Some(width) => Sort::Methods(Kind::Slice(width)),
        None => Sort::Plain,
    }
}

fn array_sort(element: Option<Width>) -> Sort
    ensures { result ≡ array_sort_of element }
{
    match element {
        Some(width) => Sort::Methods(Kind::Array(width)),
        None => Sort::Plain,
    }
}

/// What may be called on values of a type.
pub fn sort(parsed: &PackageNodes, of: &TypeExpr) -> Sort
    ensures { (es : _) → result ≡ sort_of_type (bytes_of parsed.now.texts) (type_at es of.now) }
{
    match of.prefixes.as_slice() {
        [] => core_sort(parsed, of.core),
        [Prefix::Slice(_)] => slice_sort(width(parsed, of.core)),
        [Prefix::Array { .. }] => array_sort(width(parsed, of.core)),
        _ => Sort::Plain,
    }
}
