// The arguments of a call from the host.

ghost use Rattle.std.specs.Prelude.{◌≡◌, [], length, map, is_some, option_map, slice_get, unwrap_or};
ghost use Rattle.wf_base.specs.declared.widths.Width.TheVariants.{W8};
ghost use Rattle.wf_ast.specs.declared.types.Ty.TheVariants.{Reader, Slice};
ghost use Rattle.wf_ast.specs.TypedPackage.{variable_of};
ghost use Rattle.wf_ast.specs.declared.typed_nodes.TypedNodes.{TypedNodes};
ghost use Rattle.wf_bufs.specs.HostViews.{arg_of};
ghost use Rattle.wf_meaning.specs.SourceCall.{host_value, host_values};
ghost use Rattle.wf_mean_exprs.specs.MachineState.{slot_seen};
ghost use Rattle.wf_mean_stmts.specs.Arguments.{Fills};

use wf_ast::{Ty, Var};
use wf_bufs::{Arg, ByteArrays};
use wf_mean_exprs::values::{SliceSpan, SliceStore, Slot};

/// The values of a host's arguments, in order. False where a reader or writer is null or a number lies outside its refinement,
/// and where they are not those that the method declares; the slots then hold what they happen to hold.
pub(crate) fn fill_from_host(
    arrays: &ByteArrays,
    declared: &[Var],
    args: &[Arg],
    into: &mut [Slot],
) -> bool
    requires sizes { length into.old ≡ length declared.now }
    ensures values { (nodes : TypedNodes) → Fills result (host_values arrays.now (map (variable_of nodes) declared.now) (map arg_of args.now)) (map slot_seen into.new) }
    ensures size { length into.new ≡ length into.old }
{
    if args.len() != declared.len() {
        return false;
    }
    for i in 0..args.len() {
        match value_from_host(arrays, declared[i].ty, args[i]) {
            Some(v) => into[i] = v,
            None => return false,
        }
    }
    true
}

/// Whether a host's arguments have values: no reader or writer is null, and every number lies in its refinement.
pub(crate) fn fit_from_host(arrays: &ByteArrays, declared: &[Var], args: &[Arg]) -> bool
    ensures { (nodes : TypedNodes) → result ≡ is_some (host_values arrays.now (map (variable_of nodes) declared.now) (map arg_of args.now)) }
{
    if args.len() != declared.len() {
        return false;
    }
    for i in 0..args.len() {
        if value_from_host(arrays, declared[i].ty, args[i]).is_none() {
            return false;
        }
    }
    true
}

// An argument's value; None where a reader or writer is null, where a number lies outside its refinement, and where the argument
// is of another kind.
fn value_from_host(arrays: &ByteArrays, ty: Ty, arg: Arg) -> Option<Slot>
    ensures { option_map slot_seen result ≡ host_value arrays.now ty (arg_of arg) }
{
    match ty {
        Ty::Num { lo, hi, .. } => match arg {
            Arg::Num(n) => {
                if lo <= n && n <= hi {
                    Some(Slot::Num(n))
                } else {
                    None
                }
            }
            Arg::Flag(_) | Arg::Io(_) | Arg::Bytes(_) => None,
        },
        Ty::Flag => match arg {
            Arg::Flag(b) => Some(Slot::Truth(b)),
            Arg::Num(_) | Arg::Io(_) | Arg::Bytes(_) => None,
        },
        Ty::Reader => buffer_from_host(arg),
        Ty::Writer => buffer_from_host(arg),
        Ty::Slice(_) => bytes_from_host(arrays, arg),
        Ty::Status => None,
        Ty::Array { .. } => None,
        Ty::Part(_) => None,
    }
}

fn buffer_from_host(arg: Arg) -> Option<Slot>
    ensures { option_map slot_seen result ≡ host_value [] Reader (arg_of arg) }
{
    match arg {
        Arg::Io(Some(k)) => Some(Slot::Buffer(k)),
        Arg::Io(None) => None,
        Arg::Num(_) | Arg::Flag(_) | Arg::Bytes(_) => None,
    }
}

fn bytes_from_host(arrays: &ByteArrays, arg: Arg) -> Option<Slot>
    ensures { option_map slot_seen result ≡ host_value arrays.now (Slice W8) (arg_of arg) }
{
    match arg {
        Arg::Bytes(Some(a)) => Some(Slot::Elements(SliceSpan {
            store: SliceStore::HostArray(a),
            from: 0,
            end: length_of(arrays, a),
        })),
        Arg::Bytes(None) => Some(Slot::Elements(SliceSpan {
            store: SliceStore::Nowhere,
            from: 0,
            end: 0,
        })),
        Arg::Num(_) | Arg::Flag(_) | Arg::Io(_) => None,
    }
}

// The length of the byte array with this number, and 0 where there is none.
fn length_of(arrays: &ByteArrays, a: u16) -> u64
    ensures { result ≡ length (unwrap_or (slice_get arrays.now a) []) }
{
    let k = a as usize;
    if k < arrays.len() {
        arrays.at(k).bytes().len() as u64
    } else {
        0
    }
}
