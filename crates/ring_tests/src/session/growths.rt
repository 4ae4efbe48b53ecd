// A session, its node and its service where a growth is refused: whole answers are written, and the next course is whole.
use disk_model::{FuseDevice, MemDevice};
use node_store::Node;
use ring_records::{NodeNo, Refusal};
use sessions::{SessionFault, SoloService, serve};
use std::alloc::{AllocError, AllocGlobal};
use std::process::Abort;

const LINES: &[u8] = b"stand red 5 10\nwho red 5\nlatest Red\nhello\nbye\nwho red 5\n";

/// What is written where the session finds memory: all that was asked, or where the service lacks some a Stand that is not
/// taken, one that is not made durable, or a question that is not answered.
static TEXTS: [&[u8]; 4] = [
    b"stood\nnone\nno 1 name\nno 25 line\nbye\n",
    b"no 8 memory\nnone\nno 1 name\nno 25 line\nbye\n",
    b"no 8 memory\nno 9 failed\nno 1 name\nno 25 line\nbye\n",
    b"stood\nno 8 memory\nno 1 name\nno 25 line\nbye\n",
];

/// A service over a node in memory.
type Solo = SoloService<FuseDevice<MemDevice>>;

/// How a session ended, and what it wrote.
type Course = (Result<u64, SessionFault>, Vec<u8>);

/// A service over node 1 of a new ring of 3.
fn service<R: Abort + AllocGlobal>(rt: &R) -> Result<Solo, Refusal> {
    let Ok(device) = MemDevice::new(rt.alloc(), 46 + 2 * 4_096) else {
        return Err(Refusal::OutOfMemory);
    };
    match Node::create(
        rt.alloc(),
        FuseDevice::idle(device),
        NodeNo::first(),
        3,
        4_096,
        0,
    ) {
        Ok(made) => Ok(SoloService::new(made)),
        Err((_device, refusal)) => Err(refusal),
    }
}

/// Ends a service. A ticket that is open stands for an input that is not durable.
fn end(rt: &impl Abort, service: Solo) {
    let (mut node, unanswered) = service.into_parts();
    if let Some(ticket) = unanswered {
        assert!(rt; (node.desk().accepted(), node.durable()) == (1, 0));
        node.close();
        match node.forfeit(ticket) {
            Ok(()) => {}
            Err((_ticket, refusal)) => panic!(rt; "{refusal}"),
        }
    }
    drop(node);
}

/// A session over a new node. Its writer has memory enough.
fn course<R: Abort + AllocGlobal>(rt: &R) -> Result<Course, Refusal> {
    let room: Result<Vec<u8>, AllocError> = Vec::with_capacity(rt.alloc(), 64);
    let Ok(mut out) = room else {
        return Err(Refusal::OutOfMemory);
    };
    let mut service = match service(rt) {
        Ok(service) => service,
        Err(refusal) => return Err(refusal),
    };
    let mut lines = LINES;
    let answer = serve(rt.alloc(), &mut lines, &mut out, &mut service);
    end(rt, service);
    Ok((answer, out))
}

/// Whether it is one of them.
fn is_text(text: &[u8]) -> bool {
    for wanted in &TEXTS {
        if *wanted == text {
            return true;
        }
    }
    false
}

/// Whether all was answered.
fn is_whole(course: &Course) -> bool {
    course.0 == Ok(5) && course.1.as_slice() == TEXTS[0]
}

/// Whether the session ended so, with all that was asked, or with whole lines of it.
fn is_told(course: &Course) -> bool {
    let text = course.1.as_slice();
    match course.0 {
        Ok(lines) => lines == 5 && is_text(text),
        Err(SessionFault::Memory) => {
            TEXTS[0].starts_with(text) && (text.is_empty() || text.ends_with(b"\n"))
        }
        Err(_) => false,
    }
}

#[test]
fn refused_growths(rt: HostRuntime) {
    let mut told = course(&rt);
    match &told {
        Ok(course) => assert!(rt; is_told(course)),
        Err(refusal) => assert!(rt; *refusal == Refusal::OutOfMemory),
    }
    if !matches!(&told, Ok(course) if is_whole(course)) {
        // It begins again.
        told = course(&rt);
    }
    assert!(rt; matches!(&told, Ok(course) if is_whole(course)));
}
