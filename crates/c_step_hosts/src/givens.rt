// The values that are passed for a host's arguments.

ghost use Rattle.std.specs.Prelude.{◌≡◌, ℕ, ◌+◌, ◌*◌, ◌^◌, ◌<◌, ◌≤◌, ◌∷◌, [], ◌++◌, List, length, map, vec_capacity};
ghost use Rattle.wf_bufs.specs.HostViews.{arg_of};
ghost use Rattle.wf_bufs.specs.HostSeen.{host_of};
ghost use Rattle.wf_num.specs.declared.c_arithmetic.CTy.TheVariants.{U64 as u64_type};
ghost use Rattle.c_meaning.specs.declared.values.CValue.TheVariants.{Numeric as numeric, Address as address};
ghost use Rattle.c_meaning.specs.CValues.{number, to_object, truth as truth_number};
ghost use Rattle.c_meaning.specs.CRun.{arg_bytes, slice_values, arg_values, all_values};
ghost use Rattle.c_step_hosts.specs.Lending.{IsThere, AreThere};

use c_meaning::values::{CValue, Number, Pointer};
use wf_bufs::{Arg, Bufs};
use wf_num::CTy;

/// Adds a value; there is room for it.
fn add(given: &mut Vec<CValue>, v: CValue)
    requires { length given.old.items < vec_capacity given.old }
    ensures values { given.new.items ≡ given.old.items ++ v ∷ [] }
    ensures room { vec_capacity given.old ≤ vec_capacity given.new }
{
    let _ = given.push(v);
}

/// A number of `size_t`.
fn size(n: u64) -> CValue
    ensures { result ≡ numeric (number u64_type n) }
{
    CValue::Numeric(Number {
        ty: CTy::U64,
        bits: n,
    })
}

/// A truth value.
fn truth(b: bool) -> Number
    ensures { result ≡ truth_number b }
{
    Number {
        ty: CTy::Int,
        bits: if b { 1 } else { 0 },
    }
}

/// A pointer to the first cell of an object.
fn start(object: usize) -> CValue
    ensures { result ≡ address (to_object object) }
{
    CValue::Address(Pointer {
        object,
        field: 0,
        index: 0,
    })
}

/// The two values of a slice of so many bytes, which are this object.
fn add_slice(count: usize, object: usize, given: &mut Vec<CValue>)
    requires { length given.old.items + 2 ≤ vec_capacity given.old }
    ensures values { (them : List ℕ) → length them ≡ count → given.new.items ≡ given.old.items ++ slice_values them object }
    ensures room { vec_capacity given.old ≤ vec_capacity given.new }
{
    if count == 0 {
        add(given, CValue::NullPointer);
        add(given, size(0));
    } else {
        add(given, start(object));
        add(given, size(count as u64));
    }
}

/// How many bytes a byte array has that an argument may name.
fn count_bytes(name: Option<u16>, host: &Bufs) -> usize
    requires { IsThere (length host.now.bufs) (length host.now.arrays) (arg_of (Arg.Bytes name)) }
    ensures { result ≡ length (arg_bytes (host_of host.now) (arg_of (Arg.Bytes name))) }
{
    match name {
        Some(k) => host.arrays.at(k as usize).bytes().len(),
        None => 0,
    }
}

/// The values of an argument. Its io buffer's struct and its bytes are these objects.
fn add_values(arg: Arg, host: &Bufs, buffer: usize, bytes: usize, given: &mut Vec<CValue>)
    requires there { IsThere (length host.now.bufs) (length host.now.arrays) (arg_of arg) }
    requires room { length given.old.items + 2 ≤ vec_capacity given.old }
    ensures values { given.new.items ≡ given.old.items ++ arg_values (host_of host.now) buffer bytes (arg_of arg) }
    ensures room { vec_capacity given.old ≤ vec_capacity given.new }
{
    match arg {
        Arg::Num(n) => add(given, size(n)),
        Arg::Flag(b) => add(given, CValue::Numeric(truth(b))),
        Arg::Io(None) => add(given, CValue::NullPointer),
        Arg::Io(Some(_)) => add(given, start(buffer)),
        Arg::Bytes(name) => add_slice(count_bytes(name, host), bytes, given),
    }
}

/// The values of all arguments of a call. The structs of the io buffers are the objects from `buffer` on, and the bytes
/// those from `bytes` on.
pub fn add_all(args: &[Arg], host: &Bufs, buffer: usize, bytes: usize, given: &mut Vec<CValue>)
    requires there { AreThere (length host.now.bufs) (length host.now.arrays) (map arg_of args.now) }
    requires room { length given.old.items + 2 * length args.now ≤ vec_capacity given.old }
    requires numbers { buffer + length args.now < 2 ^ 64 }
    requires others { bytes + length args.now < 2 ^ 64 }
    ensures values { given.new.items ≡ given.old.items ++ all_values (host_of host.now) buffer bytes (map arg_of args.now) }
    ensures room { vec_capacity given.old ≤ vec_capacity given.new }
{
    let mut io = buffer;
    let mut object = bytes;
    for arg in args {
        add_values(*arg, host, io, object, given);
        io += 1;
        object += 1;
    }
}
