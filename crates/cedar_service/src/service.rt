//! The service.
ghost use Rattle.std.specs.Prelude.{◌≡◌, IfOk, IfErr, OnOk, OnErr, Some, nat_eq, option_copied};
ghost use Rattle.std.specs.HashMap.{Updates};
ghost use Rattle.cedar_conform_values.specs.Numbers.{number_of as fault_number};
ghost use Rattle.cedar_service_law.specs.Service.{first_state, publish, open_job, step, take_answer, published, opened, stepped, taken, refused, Happens};
ghost use Rattle.cedar_service_law.specs.Jobs.{job_at};
ghost use Rattle.cedar_service.specs.Changing.{Changes, RefusesChange};
ghost use Rattle.cedar_service.specs.Errors.{NamesAllowed};
ghost use Rattle.cedar_service.specs.Numbers.{number_of};
ghost use Rattle.cedar_service.specs.Runs.{IsRunAt};

use crate::job::Job;
use crate::not_published::NotPublished;
use crate::response::Response;
use crate::service_fault::ServiceFault;
use cedar_auth::Ready;
use cedar_conform_values::ConformFault;
use cedar_machine::Resting;
use std::alloc::{AllocError, Global};
use std::collections::HashMap;
use std::marker::Model;
use std::sync::Arc;

/// The number of a job: 0, 1, 2 and on, in the order in which they are opened. No number is used again.
pub type JobId = u64;

/// The current version, which answers new jobs, and the open jobs, each with the version that was current when it was opened. A
/// version that is no longer current is dropped when no job holds it. Contracts see the service as a `ServiceState`, and each
/// call as one of its events (own).
#[derive(Drop)]
pub struct Service {
    alloc: Global,
    current: Arc<Ready, Global>,
    number: u64,
    next_job: JobId,
    jobs: HashMap<JobId, Job>,
}

impl Model for Service {
    ghost use Rattle.std.specs.Coded.{codes};
    ghost use Rattle.cedar_value.specs.Private.DatumCode.{datum_code};
    ghost use Rattle.cedar_schema_types.specs.Private.TypeCode.{type_code};
    ghost use Rattle.cedar_ast_expressions.specs.Private.ExpressionCode.{expression_code};
    ghost use Rattle.cedar_service_law.specs.Service.{ServiceState};

    ghost Value = { ServiceState };

    ghost coded = { Prim.hlevel (codes, datum_code, type_code, expression_code) };

    ghost view = { λ s. record { number = s.number; current = s.current.value; next_job = s.next_job; jobs = s.jobs.entries } };
}

// Replaces a version by another one.
fn put_version(place: &mut Arc<Ready, Global>, version: Arc<Ready, Global>)
    ensures { place.new.value ≡ version.value }
{
    *place = version;
}

// Why changes of entities are refused.
fn of_changes(fault: ConformFault) -> ServiceFault
    ensures { number_of result ≡ fault_number fault }
{
    match fault {
        ConformFault::OutOfMemory => ServiceFault::OutOfMemory,
        fault => ServiceFault::Changes(fault),
    }
}

// Puts a value at a number. Refused when out of memory, and nothing is then put.
fn put<T: Drop>(table: &mut HashMap<JobId, T>, id: JobId, value: T) -> Result<(), AllocError>
    ensures ok { OnOk result (Updates nat_eq table.old table.new id (Some value)) }
    ensures refused { OnErr result (table.new.entries ≡ table.old.entries) }
{
    table.insert(id, value)?;
    Ok(())
}

impl Service {
    /// A service whose current version has number 0, without jobs. It keeps the allocator for its later calls.
    ///
    /// # Errors
    ///
    /// Fails only when out of memory. The version is handed back.
    pub fn new(alloc: Global, ready: Ready) -> Result<Service, NotPublished>
        ensures first { IfOk result (λ s. s ≡ first_state ready) }
        ensures refused { IfErr result (λ e. number_of e.fault ≡ 1) }
        ensures handed_back { IfErr result (λ e. e.ready ≡ ready) }
    {
        match Arc::new(alloc, ready) {
            Ok(current) => Ok(Service {
                alloc,
                current,
                number: 0,
                next_job: 0,
                jobs: HashMap::new(alloc),
            }),
            Err(failed) => Err(NotPublished {
                fault: ServiceFault::OutOfMemory,
                ready: failed.value,
            }),
        }
    }

    /// Makes a version the current one, and returns its number, one more than the last one's. Open jobs keep their versions.
    ///
    /// # Errors
    ///
    /// 1 when out of memory, and 803 where no number is left. The version is handed back, and nothing is changed.
    pub fn publish(&mut self, ready: Ready) -> Result<u64, NotPublished>
        ensures ok { IfOk result (λ n. Happens self.old (publish ready) (published n) self.new) }
        ensures refused { IfErr result (λ e. Happens self.old (publish ready) (refused (number_of e.fault)) self.new) }
        ensures handed_back { IfErr result (λ e. e.ready ≡ ready) }
    {
        if self.number == u64::MAX {
            return Err(NotPublished {
                fault: ServiceFault::NoMoreNumbers,
                ready,
            });
        }
        match Arc::new(self.alloc, ready) {
            Ok(version) => {
                put_version(&mut self.current, version);
                self.number += 1;
                Ok(self.number)
            }
            Err(failed) => Err(NotPublished {
                fault: ServiceFault::OutOfMemory,
                ready: failed.value,
            }),
        }
    }

    /// Makes the version after changes of entities the current one, and returns its number, one more than the last one's. It has
    /// the schema, the policies and the settings of the version that was current, and shares them with it. Open jobs keep their
    /// versions.
    ///
    /// The changes are the bytes of a JSON, `{"upsert":[entry, ..],"remove":[uid, ..]}`, as `Ready::with_changes` reads them.
    ///
    /// # Errors
    ///
    /// 1 when out of memory, 803 where no number is left, and otherwise 401, 402 or 501 to 509 only where the changes have that
    /// fault at the current version. Nothing is changed then.
    pub fn change(&mut self, changes: &[u8]) -> Result<u64, ServiceFault>
        ensures ok { IfOk result (λ n. Changes self.old changes.now n self.new) }
        ensures refused { IfErr result (λ fault. RefusesChange self.old changes.now (number_of fault)) }
        ensures unchanged { OnErr result (self.new ≡ self.old) }
    {
        let version = match self.current.with_changes(self.alloc, changes) {
            Ok(version) => version,
            Err(fault) => return Err(of_changes(fault)),
        };
        match self.publish(version) {
            Ok(number) => Ok(number),
            Err(refused) => Err(refused.fault),
        }
    }

    /// Opens a job for a request line, which is read with the current version's schema, and returns its number. A job with no
    /// policy to run is finished at once.
    ///
    /// # Errors
    ///
    /// 1 when out of memory, 803 where no number is left, and otherwise 501 to 506 or 509 to 511 only where the line has that
    /// fault. Nothing is changed then.
    pub fn open(&mut self, line: &[u8]) -> Result<JobId, ServiceFault>
        ensures ok { IfOk result (λ j. Happens self.old (open_job line.now) (opened j) self.new) }
        ensures refused { IfErr result (λ fault. Happens self.old (open_job line.now) (refused (number_of fault)) self.new) }
    {
        if self.next_job == u64::MAX {
            return Err(ServiceFault::NoMoreNumbers);
        }
        let request = match self.current.read(self.alloc, line) {
            Ok(request) => request,
            Err(fault) => return Err(ServiceFault::from(fault)),
        };
        let version = Arc::try_clone(&self.current)?;
        let job = Job::new(self.alloc, version, request)?;
        let id = self.next_job;
        put(&mut self.jobs, id, job)?;
        self.next_job += 1;
        Ok(id)
    }

    /// One step of a job: one instruction of the current policy, or, where that policy has ended, its result is entered and the
    /// next one begins. True where the job is now finished. A finished job stays as it is, and takes no memory.
    ///
    /// # Errors
    ///
    /// 1 when out of memory, and 801 where there is no such job. Nothing is changed then, and the step can be tried again.
    pub fn step(&mut self, id: JobId) -> Result<bool, ServiceFault>
        ensures ok { IfOk result (λ finished. Happens self.old (step id) (stepped finished) self.new) }
        ensures refused { IfErr result (λ fault. Happens self.old (step id) (refused (number_of fault)) self.new) }
    {
        match self.jobs.get(&id) {
            None => return Err(ServiceFault::NoSuchJob),
            Some(job) => {
                if job.is_finished() {
                    return Ok(true);
                }
            }
        }
        let Some(job) = self.jobs.get_mut(&id) else {
            unreachable!()
        };
        let finished = match job.step(self.alloc) {
            Ok(finished) => finished,
            Err(_) => return Err(ServiceFault::OutOfMemory),
        };
        Ok(finished)
    }

    /// The response to a finished job's request in the version that was current when the job was opened. The job is then gone.
    /// The only errors that the response names are overflow and missing entity, and also a decimal error where that version's
    /// settings have `any_decimal` on. Takes no memory.
    ///
    /// # Errors
    ///
    /// 801 where there is no such job, 802 where it is not finished. Nothing is changed then.
    pub fn take(&mut self, id: JobId) -> Result<Response, ServiceFault>
        ensures ok { IfOk result (λ response. Happens self.old (take_answer id) (taken response) self.new) }
        ensures errors { IfOk result (NamesAllowed (job_at self.old.jobs id)) }
        ensures refused { IfErr result (λ fault. Happens self.old (take_answer id) (refused (number_of fault)) self.new) }
    {
        match self.jobs.get(&id) {
            None => return Err(ServiceFault::NoSuchJob),
            Some(job) => {
                if !job.is_finished() {
                    return Err(ServiceFault::NotFinished);
                }
            }
        }
        let Some(job) = self.jobs.remove(&id) else {
            unreachable!()
        };
        Ok(job.into_response())
    }

    /// The current run of a job, lent. None where there is no such job or it is finished. Takes no memory.
    pub fn running(&self, id: JobId) -> Option<&Resting>
        ensures { IsRunAt (job_at self.now.jobs id) (option_copied result) }
    {
        match self.jobs.get(&id) {
            Some(job) => job.running(),
            None => None,
        }
    }
}
