// Scripts driven over an engine that runs nothing, each with its report by hand.

ghost use Rattle.std.specs.Prelude.{◌≡◌, IfOk, [], ◌∷◌, codes};
ghost use Rattle.wf_text.specs.Surface.{reader, status, numeric};
ghost use Rattle.wf_bufs.specs.SurfaceViews.{answer_kind_of};
ghost use Rattle.wf_script_drive.specs.Lawful.{HasOwnNumbers};

use std::alloc::Global;
use wf_base::Width;
use wf_bufs::{AnswerKind, ArgDecl, ArgKind, MethodDecl, PublicSurface, StructDecl, ZeroEngine};
use wf_outside::PureSink;
use wf_script::read_script;
use wf_script_drive::{DriveEnd, drive};
use wf_text::{MethodId, NoMemory, StructId};

fn method(
    alloc: Global,
    number: MethodId,
    name: &[u8],
    args: Vec<ArgDecl>,
    answers: AnswerKind,
) -> Result<MethodDecl, NoMemory>
    ensures { IfOk result (λ it. it ≡ record { number = number.0; name = name.now; args = args.items; answers = answer_kind_of answers }) }
{
    let name = Vec::from_slice(alloc, name)?;
    Ok(MethodDecl {
        number,
        name,
        args,
        answers,
    })
}

fn source(alloc: Global) -> Result<Vec<ArgDecl>, NoMemory>
    ensures { IfOk result (λ args. args.items ≡ (record { name = codes "src"; kind = reader }) ∷ []) }
{
    let src = ArgDecl {
        name: Vec::from_slice(alloc, b"src")?,
        kind: ArgKind::Reader,
    };
    Ok(vec![in alloc; src]?)
}

// A struct that is fed, and that answers a number.
fn sum(alloc: Global) -> Result<StructDecl, NoMemory>
    ensures { IfOk result (λ it. it ≡ record { number = 0; name = codes "sum"; methods = (record { number = 0; name = codes "add"; args = (record { name = codes "src"; kind = reader }) ∷ []; answers = status }) ∷ (record { number = 1; name = codes "total"; args = []; answers = numeric 32 }) ∷ [] }) }
{
    let add = method(
        alloc,
        MethodId(0),
        b"add",
        source(alloc)?,
        AnswerKind::Status,
    )?;
    let width = AnswerKind::Number(Width::W32);
    let total = method(alloc, MethodId(1), b"total", Vec::new(alloc), width)?;
    Ok(StructDecl {
        number: StructId(0),
        name: Vec::from_slice(alloc, b"sum")?,
        methods: vec![in alloc; add, total]?,
    })
}

fn package(alloc: Global) -> Result<PublicSurface, NoMemory>
    ensures it { IfOk result (λ it. it ≡ record { package_name = []; statuses = [] ∷ []; structs = (record { number = 0; name = codes "sum"; methods = (record { number = 0; name = codes "add"; args = (record { name = codes "src"; kind = reader }) ∷ []; answers = status }) ∷ (record { number = 1; name = codes "total"; args = []; answers = numeric 32 }) ∷ [] }) ∷ [] }) }
    ensures numbers { IfOk result HasOwnNumbers }
{
    Ok(PublicSurface {
        package_name: Vec::new(alloc),
        statuses: vec![in alloc; Vec::new(alloc)]?,
        structs: vec![in alloc; sum(alloc)?]?,
    })
}

// Whether driving this script into a sink of this room ends so, with this report.
fn drives(
    alloc: Global,
    text: &[u8],
    room: usize,
    wanted: DriveEnd,
    report: &[u8],
) -> Result<bool, NoMemory> {
    let surface = package(alloc)?;
    let Ok(script) = read_script(alloc, text, &surface) else {
        return Ok(false);
    };
    let receivers = Vec::from_slice(alloc, script.receivers())?;
    let mut engine = ZeroEngine::new(package(alloc)?, receivers);
    let mut host = script.host(alloc)?;
    let mut out = PureSink::with_room(alloc, room)?;
    let end = drive(&script, &surface, &mut engine, &mut host, &mut out);
    Ok(end == wanted && out.written() == report)
}

fn reports_hold(alloc: Global) -> Result<bool, NoMemory> {
    let script =
        b"# all commands\nnew s sum\nnull z sum\ninit s\nbuf b 4\nbytes a 0aFF\n\nput b 010203\nput b 0405\ncall s.add src=b\ncall s.total\ncall z.add src=null\nturns 7\nshow a\nshow b\nclose b\nput b 06\ncompact b\nshow b";
    let report =
        b"new s\nnull z\ninit s ok\nbuf b 4\nbytes a 2\nput b 3\nput b 1\ncall s.add ok b ri=0 wi=4 pos=0 open\ncall s.total 0\ncall z.add ok\nturns 7\nshow a 0aff\nshow b 01020304 ri=0 wi=4 pos=0 open\nclose b\nput b 0\ncompact b\nshow b 01020304 ri=0 wi=4 pos=0 closed\n";
    let whole = drives(alloc, script, 4096, DriveEnd::Done, report)?;
    let nothing = drives(alloc, b"", 0, DriveEnd::Done, b"")?;
    let no_room = drives(alloc, b"buf b 4", 7, DriveEnd::OutFailed, b"")?;
    Ok(whole && nothing && no_room)
}

#[test]
fn scripts_are_driven(rt: HostRuntime) {
    assert!(rt; reports_hold(rt.alloc()) == Ok(true));
}
