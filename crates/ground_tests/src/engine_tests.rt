// An engine that runs nothing, called and driven through a list of actions.

ghost use Rattle.std.specs.Prelude.{◌≡◌, IfOk, length, [], ◌∷◌};
ghost use Rattle.wf_bufs.specs.SurfaceViews.{answer_kind_of};

use std::alloc::Global;
use wf_base::Width;
use wf_bufs::{
    Action, AnswerKind, BoundedCall, Buf, BufList, Bufs, ByteArray, ByteArrays, Call, Engine,
    MethodDecl, Outcome, PublicSurface, ReceiverDecl, Reply, Saw, StructDecl, ZeroEngine, perform,
};
use wf_text::{MethodId, NoMemory, StatusId, StructId};

// A package with the status ok alone, and one struct with one method.
fn one_method(alloc: Global, answers: AnswerKind) -> Result<PublicSurface, NoMemory>
    ensures { IfOk result (λ it. it ≡ record { package_name = []; statuses = [] ∷ []; structs = (record { number = 0; name = []; methods = (record { number = 0; name = []; args = []; answers = answer_kind_of answers }) ∷ [] }) ∷ [] }) }
{
    let method = MethodDecl {
        number: MethodId(0),
        name: Vec::new(alloc),
        args: Vec::new(alloc),
        answers,
    };
    let it = StructDecl {
        number: StructId(0),
        name: Vec::new(alloc),
        methods: vec![in alloc; method]?,
    };
    let statuses = vec![in alloc; Vec::new(alloc)]?;
    let structs = vec![in alloc; it]?;
    Ok(PublicSurface {
        package_name: Vec::new(alloc),
        statuses,
        structs,
    })
}

fn one_buffer(alloc: Global) -> Result<Bufs, NoMemory>
    ensures buffers { IfOk result (λ host. length host.bufs ≡ 1) }
    ensures arrays { IfOk result (λ host. length host.arrays ≡ 0) }
{
    let mut bufs = BufList::new(alloc);
    bufs.push(Buf::new(alloc, 1)?)?;
    Ok(Bufs {
        bufs,
        arrays: ByteArrays::new(alloc),
    })
}

fn reply_to_call(alloc: Global, answers: AnswerKind) -> Result<Reply, NoMemory> {
    let receivers = vec![in alloc;
        ReceiverDecl {
            of: StructId(0),
            null: false
        },
    ]?;
    let mut engine = ZeroEngine::new(one_method(alloc, answers)?, receivers);
    let mut host = one_buffer(alloc)?;
    let what = Call {
        receiver: 0,
        method: MethodId(0),
        args: &[],
    };
    Ok(engine.call(&what, &mut host, 1))
}

// What is seen of an init, a call and a close.
fn three_actions(alloc: Global) -> Result<Vec<Saw>, NoMemory> {
    let receivers = vec![in alloc;
        ReceiverDecl {
            of: StructId(0),
            null: false
        },
    ]?;
    let mut engine = ZeroEngine::new(one_method(alloc, AnswerKind::Flag)?, receivers);
    let mut host = one_buffer(alloc)?;
    let call = Action::Call(BoundedCall {
        receiver: 0,
        method: MethodId(0),
        args: Vec::new(alloc),
        turns: 1,
    });
    let init = Action::Init {
        receiver: 0,
        turns: 1,
    };
    let actions = vec![in alloc; init, call, Action::Close { buffer: 0 }]?;
    Ok(perform(alloc, &mut engine, &mut host, actions.as_slice())?)
}

fn shows(seen: &[Saw], k: usize, reply: Reply, closed: bool) -> bool {
    match seen.get(k) {
        Some(saw) => saw.reply == reply
            && saw.host.bufs.len() == 1
            && saw.host.bufs.at(0).is_closed() == closed,
        None => false,
    }
}

fn all_is_seen(alloc: Global) -> Result<bool, NoMemory> {
    let seen = three_actions(alloc)?;
    let init = shows(
        seen.as_slice(),
        0,
        Reply::Done(Outcome::Status(StatusId(0))),
        false,
    );
    let call = shows(seen.as_slice(), 1, Reply::Done(Outcome::Flag(false)), false);
    let close = shows(seen.as_slice(), 2, Reply::Done(Outcome::Nothing), true);
    Ok(seen.len() == 3 && init && call && close)
}

// A list of one byte array, the second of whose bytes is set to 9.
fn second_set(alloc: Global) -> Result<ByteArrays, NoMemory>
    ensures { IfOk result (λ list. length list ≡ 1) }
{
    let mut list = ByteArrays::new(alloc);
    list.push(ByteArray::new(alloc, &[1, 2, 3])?)?;
    let array = list.at_mut(0);
    let _set = array.set_byte(1, 9);
    let _past = array.set_byte(3, 9);
    Ok(list)
}

// Two buffers, the second closed.
fn one_closed(alloc: Global) -> Result<BufList, NoMemory>
    ensures { IfOk result (λ list. length list ≡ 2) }
{
    let mut list = BufList::new(alloc);
    list.push(Buf::new(alloc, 1)?)?;
    list.push(Buf::new(alloc, 2)?)?;
    list.at_mut(1).close();
    Ok(list)
}

// Buffers and byte arrays are copied one by one.
fn a_copy_holds_the_same(alloc: Global) -> Result<bool, NoMemory> {
    let host = Bufs {
        bufs: one_closed(alloc)?,
        arrays: second_set(alloc)?,
    };
    let copy = host.copy(alloc)?;
    if copy.bufs.len() != 2 || copy.arrays.len() != 1 {
        return Ok(false);
    }
    let closed = copy.bufs.at(1).is_closed() && !copy.bufs.at(0).is_closed();
    Ok(closed && copy.arrays.at(0).bytes() == [1, 9, 3].as_slice())
}

fn replies_hold(alloc: Global) -> Result<bool, NoMemory> {
    let status = reply_to_call(alloc, AnswerKind::Status)?;
    let number = reply_to_call(alloc, AnswerKind::Number(Width::W8))?;
    Ok(
        status == Reply::Done(Outcome::Status(StatusId(0)))
            && number == Reply::Done(Outcome::Num(0)),
    )
}

#[test]
fn engines_and_actions(rt: HostRuntime) {
    let alloc = rt.alloc();
    assert!(rt; replies_hold(alloc) == Ok(true));
    assert!(rt; all_is_seen(alloc) == Ok(true) && a_copy_holds_the_same(alloc) == Ok(true));
}
