//! What policies answer, where a request for memory is refused.
use crate::again::again;
use crate::world::{ANN, DELETE, FORBIDDING, ready};
use base_lines::{ServeFault, Sink, SliceSource, VecSink};
use cedar_ast::Decision;
use cedar_auth::{Ready, Response, serve};
use cedar_value::Request;
use std::alloc::Global;
use std::process::Abort;
use std::test::Fail;

fn request(alloc: Global, ready: &Ready) -> Result<Request, Fail> {
    match ready.read(alloc, DELETE) {
        Ok(request) => Ok(request),
        Err(fault) => {
            let number = fault.number();
            drop(fault);
            again(number, ready.read(alloc, DELETE))
        }
    }
}

// The response to the request, which has to fit.
fn answered<'r>(alloc: Global, ready: &'r Ready, request: &Request) -> Result<Response<'r>, Fail> {
    if !ready.fits(request) {
        return Err("the request does not fit".into());
    }
    match ready.answer(alloc, request) {
        Ok(response) => Ok(response),
        Err(_) => again(1, ready.answer(alloc, request)),
    }
}

// Whether the response denies by this policy alone, and nothing erred.
fn denies(response: &Response<'_>, policy: &str) -> bool {
    for id in response.determining.iter() {
        if *id != policy {
            return false;
        }
    }
    response.decision == Decision::Deny
        && response.determining.len() == 1
        && response.erring.is_empty()
}

fn is_forbidden_to(alloc: Global, ready: &Ready, request: &Request) -> Result<bool, Fail> {
    let response = answered(alloc, ready, request)?;
    let is_forbidden = denies(&response, "f");
    drop(response);
    Ok(is_forbidden)
}

// Whether the request of the line is forbidden.
fn is_forbidden(alloc: Global, ready: &Ready) -> Result<bool, Fail> {
    let request = request(alloc, ready)?;
    let is_forbidden = is_forbidden_to(alloc, ready, &request);
    drop(request);
    is_forbidden
}

#[test]
fn a_forbid_that_takes_memory_forbids(rt: HostRuntime) -> Result<(), Fail> {
    let alloc = rt.alloc();
    let ready = ready(alloc, FORBIDDING, ANN)?;
    let is_forbidden = is_forbidden(alloc, &ready);
    drop(ready);
    assert!(rt; is_forbidden?);
    Ok(())
}

/// Two lines, of which the second asks.
const LINES: &[u8] =
    b"{\n{\"principal\":\"User::\\\"ann\\\"\",\"action\":\"Action::\\\"delete\\\"\",\"resource\":\"Doc::\\\"d\\\"\"}\n";

/// Their answers, and the first of them.
const ANSWERS: &[u8] =
    b"{\"refused\":501}\n{\"decision\":\"deny\",\"determining\":[\"f\"],\"erring\":[]}\n";

const FIRST_ANSWER: &[u8] = b"{\"refused\":501}\n";

// Whether the text is one of no line, of the first, or of both.
fn is_whole(text: &[u8]) -> bool {
    text.is_empty() || text == FIRST_ANSWER || text == ANSWERS
}

// How `serve` ends on the two lines, and what it writes.
fn served(alloc: Global, ready: &Ready) -> (Result<(), ServeFault>, VecSink) {
    let mut source = SliceSource::new(LINES);
    let mut sink = VecSink::new(alloc);
    let end = serve(alloc, ready, &mut source, &mut sink);
    (end, sink)
}

fn check_served(rt: &impl Abort, alloc: Global, ready: &Ready) {
    let (end, sink) = served(alloc, ready);
    match end {
        Ok(()) => assert_eq!(rt; sink.bytes(), ANSWERS),
        Err(fault) => {
            // The sink may have been refused memory, too, and then has failed.
            assert!(rt; fault == ServeFault::OutOfMemory || sink.failures() == 1);
            assert!(rt; is_whole(sink.bytes()));
            check_served_again(rt, alloc, ready);
        }
    }
}

fn check_served_again(rt: &impl Abort, alloc: Global, ready: &Ready) {
    let (end, sink) = served(alloc, ready);
    assert!(rt; end.is_ok());
    assert_eq!(rt; sink.bytes(), ANSWERS);
}

#[test]
fn lines_are_answered_whole(rt: HostRuntime) -> Result<(), Fail> {
    let alloc = rt.alloc();
    let ready = ready(alloc, FORBIDDING, ANN)?;
    check_served(&rt, alloc, &ready);
    drop(ready);
    Ok(())
}
