// The table of base methods: rows that are there, and rows that aren't.

use wf_base::{ArgTy, Gives, Kind, Mark, Width, base_method};

// The mark of a method, or that there is none.
fn mark_of(kind: Kind, name: &[u8]) -> Option<Mark> {
    Some(base_method(kind, name)?.mark())
}

fn have_marks(rows: &[(Kind, &[u8], Option<Mark>)]) -> bool {
    for (kind, name, mark) in rows {
        if mark_of(*kind, *name) != *mark {
            return false;
        }
    }
    true
}

fn gives_flag(kind: Kind, name: &[u8]) -> bool {
    match base_method(kind, name) {
        Some(method) => method.gives() == Gives::Flag,
        None => false,
    }
}

// The type of an argument, by its number from 0.
fn argument(kind: Kind, name: &[u8], i: u32) -> Option<ArgTy> {
    let (_, ty) = base_method(kind, name)?.arg(i)?;
    Some(ty)
}

fn have_arguments(rows: &[(Kind, &[u8], u32, Option<ArgTy>)]) -> bool {
    for (kind, name, i, ty) in rows {
        if argument(*kind, *name, *i) != *ty {
            return false;
        }
    }
    true
}

#[test]
fn base_methods(rt: HostRuntime) {
    assert!(rt;
        have_marks(&[
            (Kind::Reader, b"read_u64be", Some(Mark::Coroutine)),
            (Kind::Writer, b"write_u8", Some(Mark::Coroutine)),
            (Kind::Reader, b"is_closed", Some(Mark::Pure)),
            (Kind::Status, b"is_suspension", Some(Mark::Pure)),
            (Kind::Writer, b"is_closed", None),
            (Kind::Array(Width::W8), b"copy_from_slice", None),
            (Kind::Reader, b"read_u8be", None),
            (Kind::Reader, b"", None),
        ])
    );
    assert!(rt;
        gives_flag(Kind::Reader, b"is_closed") && gives_flag(Kind::Status, b"is_suspension")
    );
    assert!(rt;
        have_arguments(&[
            (Kind::Reader, b"skip_u32_fast", 1, Some(ArgTy::U32)),
            (Kind::Reader, b"skip_u32_fast", 2, None),
            (
                Kind::Slice(Width::W16),
                b"copy_from_slice",
                0,
                Some(ArgTy::SameSlice)
            ),
        ])
    );
}
