//! Requests in flight, where a request for memory is refused.
use crate::again::again;
use crate::world::{ANN, DELETE, FORBIDDING, PERMITTING, ready};
use cedar_ast::Decision;
use cedar_auth::Ready;
use cedar_service::{JobId, NotPublished, Response, Service};
use std::alloc::Global;
use std::process::Abort;
use std::test::Fail;

// The second call, by what the first handed back.
fn service_again(alloc: Global, refused: NotPublished) -> Result<Service, Fail> {
    let number = refused.fault.number();
    again(number, Service::new(alloc, refused.ready))
}

fn service(alloc: Global, ready: Ready) -> Result<Service, Fail> {
    match Service::new(alloc, ready) {
        Ok(service) => Ok(service),
        Err(refused) => service_again(alloc, refused),
    }
}

// The second call, by what the first handed back.
fn publish_again(service: &mut Service, refused: NotPublished) -> Result<u64, Fail> {
    let number = refused.fault.number();
    again(number, service.publish(refused.ready))
}

fn publish(service: &mut Service, ready: Ready) -> Result<u64, Fail> {
    match service.publish(ready) {
        Ok(number) => Ok(number),
        Err(refused) => publish_again(service, refused),
    }
}

/// Bob joins the team.
const CHANGES: &[u8] =
    br#"{"upsert":[{"uid":{"type":"User","id":"bob"},"attrs":{},"parents":[{"type":"Team","id":"t"}]}]}"#;

fn change(service: &mut Service) -> Result<u64, Fail> {
    match service.change(CHANGES) {
        Ok(number) => Ok(number),
        Err(fault) => {
            let number = fault.number();
            drop(fault);
            again(number, service.change(CHANGES))
        }
    }
}

fn open(service: &mut Service) -> Result<JobId, Fail> {
    match service.open(DELETE) {
        Ok(job) => Ok(job),
        Err(fault) => {
            let number = fault.number();
            drop(fault);
            again(number, service.open(DELETE))
        }
    }
}

// How many instructions the run under way of a job has executed; None where none is under way.
fn executed(service: &Service, job: JobId) -> Option<u32> {
    Some(service.running(job)?.executed())
}

// A step of a job. A step that is refused leaves the run under way as it was.
fn step(rt: &impl Abort, service: &mut Service, job: JobId) -> Result<bool, Fail> {
    let before = executed(service, job);
    match service.step(job) {
        Ok(finished) => Ok(finished),
        Err(fault) => {
            let number = fault.number();
            drop(fault);
            assert_eq!(rt; executed(service, job), before);
            again(number, service.step(job))
        }
    }
}

// Steps a job until it is finished, at most so often.
fn finish(rt: &impl Abort, service: &mut Service, job: JobId) -> Result<(), Fail> {
    for _ in 0..100 {
        if step(rt, service, job)? {
            return Ok(());
        }
    }
    Err("the job is not finished".into())
}

fn is_by(response: &Response, decision: Decision, policy: &str) -> bool {
    for id in response.determining.iter() {
        if id.as_str() != policy {
            return false;
        }
    }
    response.decision == decision && response.determining.len() == 1 && response.erring.is_empty()
}

// The answer of a finished job is this one; taking it takes no memory.
fn assert_taken(
    rt: &impl Abort,
    service: &mut Service,
    job: JobId,
    decision: Decision,
    policy: &str,
) {
    match service.take(job) {
        Ok(response) => {
            let is_wanted = is_by(&response, decision, policy);
            drop(response);
            assert!(rt; is_wanted);
        }
        Err(fault) => {
            drop(fault);
            assert!(rt; false, "the answer of job {job} is refused");
        }
    }
}

// A job by the forbidding policies, and beside it one by the permitting policies, which are published in between, and over entities
// that are changed then.
fn check_jobs(rt: &impl Abort, alloc: Global, service: &mut Service) -> Result<(), Fail> {
    let forbidden = open(service)?;
    let permitting = ready(alloc, PERMITTING, b"[]")?;
    let number = publish(service, permitting)?;
    assert_eq!(rt; number, 1);
    let number = change(service)?;
    assert_eq!(rt; number, 2);
    let permitted = open(service)?;
    finish(rt, service, permitted)?;
    finish(rt, service, forbidden)?;
    assert_taken(rt, service, forbidden, Decision::Deny, "f");
    assert_taken(rt, service, permitted, Decision::Allow, "p");
    Ok(())
}

#[test]
fn jobs_go_on_after_a_refusal(rt: HostRuntime) -> Result<(), Fail> {
    let alloc = rt.alloc();
    let mut service = service(alloc, ready(alloc, FORBIDDING, ANN)?)?;
    let checked = check_jobs(&rt, alloc, &mut service);
    drop(service);
    checked
}
