//! Policies that are ready to answer.
ghost use Rattle.std.specs.Prelude.{ℕ, List, ◌≡◌, ◌≢◌, ◌↔◌, ◌<◌, length, Contains, IfErr, IfOk, IsTrue, MatchResult, OnOk};
ghost use Rattle.std.specs.List.Sorted.{IsStrictlyIncreasing};
ghost use Rattle.cedar_ast.specs.Response.{ErringTree, response};
ghost use Rattle.cedar_conform_values.specs.declared.conform_fault.ConformFault.TheVariants.{OutOfMemory};
ghost use Rattle.cedar_conform_entities.specs.Bytes.{BytesDenote, BytesHaveFault};
ghost use Rattle.cedar_conform_entities.specs.Changes.{BytesDenoteChanged, BytesHaveChangesFault};
ghost use Rattle.cedar_conform.specs.Parts.{PartsDenote, PartsHaveFault, parts_of};
ghost use Rattle.cedar_conform.specs.Places.{IsPlacedAt};
ghost use Rattle.cedar_conform.specs.Requests.{LineDenotes, LineHasFault};
ghost use Rattle.cedar_schema_spec.specs.Conformance.{Conforms, Fits, FitsIn};
ghost use Rattle.cedar_schema_spec.specs.WellFormed.{AreTypesApart};
ghost use Rattle.cedar_schema_spec.specs.declared.environment.Environment.{Environment as EnvironmentTree};
ghost use Rattle.cedar_value.specs.World.{World};
ghost use Rattle.cedar_value.specs.declared.request.Request.{Request as RequestTree};
ghost use Rattle.cedar_check_spec.specs.Soundness.{IsAllowedWith};
ghost use Rattle.cedar_auth.specs.AnswerLine.{AnswersLine};
ghost use Rattle.cedar_auth_spec.specs.Candidates.{AreCandidates, OthersAreFalse};
ghost use Rattle.cedar_auth_spec.specs.Codes.{IsPartAt};
ghost use Rattle.cedar_auth_spec.specs.Headline.{IsAnsweredSoundlyWith};
ghost use Rattle.cedar_auth_spec.specs.Validation.{IsValidatedWith};
ghost use Rattle.cedar_auth.specs.Private.Kept.{IsReady};
ghost use Rattle.cedar_auth.specs.Private.ReadyTrees.{ready_tree};
ghost use Rattle.cedar_auth.specs.Private.Selected.{LeavesFalse};
ghost use Rattle.cedar_auth.specs.Private.Tally.{tally_of};

use crate::evaluator::Evaluator;
use crate::not_ready::NotReady;
use crate::response::Response;
use crate::tally::Tally;
use crate::validated::Validated;
use cedar_ast::{Decision, Effect};
use cedar_auth_candidates::{Candidates, Selection};
use cedar_auth_law::engine_is_sound;
use cedar_check_law::candidates_are_enough;
use cedar_check_spec::Settings;
use cedar_code::Code;
use cedar_conform::{
    FittingRequest, RequestParts, RequestReader, denoted_requests_fit,
    denoted_requests_have_no_fault, read_changes, read_entities_owned, read_fitting_parts,
    read_fitting_request, read_request,
};
use cedar_conform_values::{ConformFault, read_values_belong};
use cedar_parser_tokens::uid_or_none;
use cedar_schema::tests_of_schemas_decide;
use cedar_store::Store;
use cedar_value::{Request, is_name_tells_names};
use std::alloc::{AllocError, Global};
use std::marker::Model;
use std::sync::Arc;

/// Validated policies with their schema, and entities that conform to it. Contracts see the schema, the policies, the
/// settings under which these were accepted, and the world of the entities.
#[derive(Drop)]
pub struct Ready {
    indexed: Arc<Indexed, Global>,
    store: Store,
}

// Validated policies, and which of them are candidates in each environment. What is ready over other entities shares them.
#[derive(Drop)]
struct Indexed {
    validated: Validated,
    candidates: Candidates,
}

impl Model for Ready {
    ghost use Rattle.std.specs.Coded.{codes};
    ghost use Rattle.cedar_value.specs.Private.DatumCode.{datum_code};
    ghost use Rattle.cedar_schema_types.specs.Private.TypeCode.{type_code};
    ghost use Rattle.cedar_ast_expressions.specs.Private.ExpressionCode.{expression_code};
    ghost use Rattle.cedar_auth_spec.specs.Ready.{ReadyTree};
    ghost use Rattle.cedar_auth.specs.Private.Kept.{IsReady};

    ghost Value = { ReadyTree };

    ghost coded = { Prim.hlevel (codes, datum_code, type_code, expression_code) };

    ghost view = { λ r. record {
      schema = r.indexed.value.validated.schema;
      policies = r.indexed.value.validated.policies;
      settings = r.indexed.value.validated.settings;
      world = r.store;
    } };

    ghost invariant = { λ r. IsReady r.indexed.value.validated.schema r.indexed.value.validated.policies.policies r.store r.indexed.value.candidates };
}

impl Ready {
    /// The policies, ready to answer requests over the entities that the bytes denote for the schema (Cedar documentation,
    /// entities JSON). Takes a copy of the bytes.
    ///
    /// # Errors
    ///
    /// 1 when out of memory, and otherwise 401, 402 or 501 to 509 only where that fault is in the bytes. Each hands the
    /// policies back.
    pub fn new(alloc: Global, validated: Validated, entities: &[u8]) -> Result<Ready, NotReady>
        ensures holds { IfOk result (λ r. (r.schema ≡ validated.schema) × (r.policies ≡ validated.policies)) }
        ensures settings { IfOk result (λ r. r.settings ≡ validated.settings) }
        ensures denotes { IfOk result (λ r. BytesDenote validated.schema entities.now r.world) }
        ensures conforms { IfOk result (λ r. Conforms r.schema r.world) }
        ensures refused { IfErr result (λ e. e.fault ≢ OutOfMemory → BytesHaveFault validated.schema entities.now e.fault) }
        ensures handed_back { IfErr result (λ e. e.validated ≡ validated) }
    {
        match Vec::from_slice(alloc, entities) {
            Ok(copied) => Ready::new_owned(alloc, validated, copied),
            Err(_) => Err(NotReady {
                fault: ConformFault::OutOfMemory,
                validated,
            }),
        }
    }

    /// Like [`Ready::new`], but owns the bytes. It frees them as they are read, so the bytes and the entities are never in
    /// memory as a whole at the same time.
    ///
    /// # Errors
    ///
    /// Those of [`Ready::new`]. After an error the bytes are lost. A caller that may want to call again, for example when out
    /// of memory, calls [`Ready::new`] or keeps a copy.
    pub fn new_owned(
        alloc: Global,
        validated: Validated,
        entities: Vec<u8>,
    ) -> Result<Ready, NotReady>
        ensures holds { IfOk result (λ r. (r.schema ≡ validated.schema) × (r.policies ≡ validated.policies)) }
        ensures settings { IfOk result (λ r. r.settings ≡ validated.settings) }
        ensures denotes { IfOk result (λ r. BytesDenote validated.schema entities.items r.world) }
        ensures conforms { IfOk result (λ r. Conforms r.schema r.world) }
        ensures refused { IfErr result (λ e. e.fault ≢ OutOfMemory → BytesHaveFault validated.schema entities.items e.fault) }
        ensures handed_back { IfErr result (λ e. e.validated ≡ validated) }
    {
        let store = match read_entities_owned(alloc, validated.schema(), entities) {
            Ok(store) => store,
            Err(fault) => return Err(NotReady { fault, validated }),
        };
        let Ok(candidates) = Candidates::new(alloc, validated.schema(), validated.policies()) else {
            return Err(NotReady {
                fault: ConformFault::OutOfMemory,
                validated,
            });
        };
        match Arc::new(
            alloc,
            Indexed {
                validated,
                candidates,
            },
        ) {
            Ok(indexed) => Ok(Ready { indexed, store }),
            Err(failed) => Err(NotReady {
                fault: ConformFault::OutOfMemory,
                validated: failed.value.validated,
            }),
        }
    }

    /// The same policies, ready to answer requests over the entities that the bytes denote for the schema (Cedar documentation,
    /// entities JSON). The policies are shared: the call takes the time and the memory of reading the entities. What is ready now stays as
    /// it is.
    ///
    /// # Errors
    ///
    /// Those of [`Ready::new`].
    pub fn with_entities(&self, alloc: Global, entities: &[u8]) -> Result<Ready, ConformFault>
        ensures holds { IfOk result (λ r. (r.schema ≡ self.now.schema) × (r.policies ≡ self.now.policies)) }
        ensures settings { IfOk result (λ r. r.settings ≡ self.now.settings) }
        ensures denotes { IfOk result (λ r. BytesDenote self.now.schema entities.now r.world) }
        ensures conforms { IfOk result (λ r. Conforms r.schema r.world) }
        ensures refused { IfErr result (λ e. e ≢ OutOfMemory → BytesHaveFault self.now.schema entities.now e) }
    {
        match Vec::from_slice(alloc, entities) {
            Ok(copied) => self.with_entities_owned(alloc, copied),
            Err(_) => Err(ConformFault::OutOfMemory),
        }
    }

    /// Like [`Ready::with_entities`], but owns the bytes and frees them as they are read.
    ///
    /// # Errors
    ///
    /// Those of [`Ready::new`]. After an error the bytes are lost.
    pub fn with_entities_owned(
        &self,
        alloc: Global,
        entities: Vec<u8>,
    ) -> Result<Ready, ConformFault>
        ensures holds { IfOk result (λ r. (r.schema ≡ self.now.schema) × (r.policies ≡ self.now.policies)) }
        ensures settings { IfOk result (λ r. r.settings ≡ self.now.settings) }
        ensures denotes { IfOk result (λ r. BytesDenote self.now.schema entities.items r.world) }
        ensures conforms { IfOk result (λ r. Conforms r.schema r.world) }
        ensures refused { IfErr result (λ e. e ≢ OutOfMemory → BytesHaveFault self.now.schema entities.items e) }
    {
        let store = read_entities_owned(alloc, self.indexed.validated.schema(), entities)?;
        match Arc::try_clone(&self.indexed) {
            Ok(indexed) => Ok(Ready { indexed, store }),
            Err(_) => Err(ConformFault::OutOfMemory),
        }
    }

    /// The same policies, ready to answer requests over the entities after the changes that the bytes write,
    /// `{"upsert":[entry, ..],"remove":[uid, ..]}` (Cedar's crate, upsert and removal of entities). The policies are shared. What
    /// is ready now stays as it is.
    ///
    /// # Errors
    ///
    /// 1 when out of memory, and otherwise 401, 402 or 501 to 509 only where that fault is in the bytes.
    pub fn with_changes(&self, alloc: Global, changes: &[u8]) -> Result<Ready, ConformFault>
        ensures holds { IfOk result (λ r. (r.schema ≡ self.now.schema) × (r.policies ≡ self.now.policies)) }
        ensures settings { IfOk result (λ r. r.settings ≡ self.now.settings) }
        ensures denotes { IfOk result (λ r. BytesDenoteChanged self.now.schema changes.now self.now.world r.world) }
        ensures conforms { IfOk result (λ r. Conforms r.schema r.world) }
        ensures refused { IfErr result (λ e. e ≢ OutOfMemory → BytesHaveChangesFault self.now.schema self.now.world changes.now e) }
    {
        let store = read_changes(alloc, self.indexed.validated.schema(), &self.store, changes)?;
        match Arc::try_clone(&self.indexed) {
            Ok(indexed) => Ok(Ready { indexed, store }),
            Err(_) => Err(ConformFault::OutOfMemory),
        }
    }

    // The policies and their candidates.
    fn indexed(&self) -> &Indexed
        ensures view { ready_tree result.now self.now.world ≡ self.now }
        ensures ready { IsReady result.now.validated.schema result.now.validated.policies.policies self.now.world result.now.candidates }
    {
        &self.indexed
    }

    /// The policies with their schema.
    pub fn validated(&self) -> &Validated
        ensures { result.now ≡ record { schema = self.now.schema; policies = self.now.policies; settings = self.now.settings } }
    {
        &self.indexed.validated
    }

    /// The settings under which the policies were accepted.
    pub fn settings(&self) -> Settings
        ensures { result ≡ self.now.settings }
    {
        self.indexed.validated.settings()
    }

    /// The entities. Takes no memory.
    pub fn store(&self) -> &Store
        ensures { result.now ≡ self.now.world }
    {
        &self.store
    }

    /// How many changes of entities are kept over the entities that were read whole: 0 where no changes were made since. Entities that are
    /// read whole again are kept without changes. See `Store::kept_changes` for what counts, and what is forgotten.
    pub fn kept_changes(&self) -> usize {
        self.store.kept_changes()
    }

    /// The code, the id and the effect of the policy at a position from 0. Takes no memory.
    pub fn part(&self, position: usize) -> (&Code, &str, Effect)
        requires { position < length self.now.policies.policies }
        ensures { IsPartAt self.now.policies.policies position result.0.now.instructions result.1.now result.2 }
    {
        let Some(part) = self.indexed.validated.part(position) else {
            unreachable!()
        };
        (part.code, part.policy.id().as_str(), part.policy.effect())
    }

    /// The request that a line denotes for the schema (Cedar documentation, entities and context in JSON).
    ///
    /// # Errors
    ///
    /// 1 when out of memory, and otherwise 501 to 506 or 509 to 511 only where that fault is in the line.
    pub fn read(&self, alloc: Global, line: &[u8]) -> Result<Request, ConformFault>
        ensures denotes { IfOk result (LineDenotes self.now.schema line.now) }
        ensures fits { IfOk result (Fits self.now.schema) }
        ensures only { (q : RequestTree) → LineDenotes self.now.schema line.now q → MatchResult result (λ found. found ≡ q) (λ e. e ≡ OutOfMemory) }
        ensures refused { IfErr result (λ e. e ≢ OutOfMemory → LineHasFault self.now.schema line.now e) }
    {
        read_request(alloc, self.indexed.validated.schema(), line)
    }

    // Like `read`, with a reader that keeps its buffers from line to line, and with the position of the request's environment.
    pub(crate) fn read_fitting(
        &self,
        alloc: Global,
        line: &[u8],
        reader: &mut RequestReader,
    ) -> Result<FittingRequest, ConformFault>
        ensures denotes { IfOk result (λ found. LineDenotes self.now.schema line.now found.request) }
        ensures fits { IfOk result (λ found. Fits self.now.schema found.request) }
        ensures placed { IfOk result (λ found. IsPlacedAt self.now.schema found.request found.environment) }
        ensures only { (q : RequestTree) → LineDenotes self.now.schema line.now q → MatchResult result (λ found. found.request ≡ q) (λ e. e ≡ OutOfMemory) }
        ensures refused { IfErr result (λ e. e ≢ OutOfMemory → LineHasFault self.now.schema line.now e) }
    {
        read_fitting_request(alloc, self.indexed.validated.schema(), line, reader)
    }

    /// The request that parts denote for the schema (Cedar documentation, entities and context in JSON), with the position of its
    /// environment. The reader keeps its buffers from request to request.
    ///
    /// # Errors
    ///
    /// 1 when out of memory, and otherwise 501 to 506 or 509 to 511 only where that fault is in the parts.
    pub fn read_fitting_parts(
        &self,
        alloc: Global,
        parts: &RequestParts<'_>,
        reader: &mut RequestReader,
    ) -> Result<FittingRequest, ConformFault>
        ensures denotes { IfOk result (λ found. PartsDenote self.now.schema (parts_of parts.now) found.request) }
        ensures fits { IfOk result (λ found. Fits self.now.schema found.request) }
        ensures placed { IfOk result (λ found. IsPlacedAt self.now.schema found.request found.environment) }
        ensures only { (q : RequestTree) → PartsDenote self.now.schema (parts_of parts.now) q → MatchResult result (λ found. found.request ≡ q) (λ e. e ≡ OutOfMemory) }
        ensures refused { IfErr result (λ e. e ≢ OutOfMemory → PartsHaveFault self.now.schema (parts_of parts.now) e) }
    {
        read_fitting_parts(alloc, self.validated().schema(), parts, reader)
    }

    /// Whether a request fits the schema: its action applies to its principal and its resource, and its context belongs
    /// to the action's context type (Cedar documentation, validation). Takes no memory.
    pub fn fits(&self, request: &Request) -> bool
        ensures { IsTrue result ↔ Fits self.now.schema request.now }
    {
        cedar_conform::fits(self.indexed.validated.schema(), request)
    }

    /// The response to a request that fits, from the evaluation of every policy (Cedar language reference, authorization).
    /// Every policy's code runs safely, and the response is Cedar's. The only errors that it names are overflow and missing
    /// entity, and also a decimal error where the settings have `any_decimal` on.
    ///
    /// # Errors
    ///
    /// Fails only when out of memory, which is never a decision.
    pub fn answer(&self, alloc: Global, request: &Request) -> Result<Response<'_>, AllocError>
        requires { Fits self.now.schema request.now }
        ensures ok { IfOk result (λ r. r ≡ response self.now.policies.policies request.now self.now.world) }
        ensures errors { IfOk result (λ r. (x : ErringTree) → Contains r.erring x → IsAllowedWith self.now.settings x.error) }
        ensures sound { IsAnsweredSoundlyWith self.now.settings self.now.policies.policies request.now self.now.world }
    {
        // Every request that fits is answered soundly.
        self.soundness();
        let mut selection = Selection::new(alloc);
        let mut tally = Tally::new(alloc);
        self.tally(alloc, request, &mut selection, &mut tally)?;
        Ok(tally.into_response())
    }

    /// The positions of the candidates for a request that fits, ascending: the policies whose scopes a request with this action
    /// and with entities of these types may meet. A policy at another position is false for it. Takes no memory, and as many
    /// comparisons as the logarithm of the number of actions and of types.
    pub fn candidates(&self, request: &Request) -> &[usize]
        requires { Fits self.now.schema request.now }
        ensures exact { (env : EnvironmentTree) → FitsIn self.now.schema env request.now
            → AreCandidates self.now.schema self.now.policies.policies env result.now }
        ensures others { OthersAreFalse self.now.policies.policies request.now self.now.world result.now }
    {
        // The policies that are left out are false, since no action's type is an entity type.
        candidates_are_enough();
        let indexed = self.indexed();
        indexed.validated.schema().well_formedness();
        indexed.candidates.positions(request)
    }

    // The positions, ascending, of the policies to run for the request over a store: its candidates, where they are many only those
    // that its own entities reach. Each other policy is false.
    fn selected_over<'x, 's>(
        &'x self,
        request: &Request,
        store: &'s Store,
        selection: &'x mut Selection<'s>,
    ) -> Result<&'x [usize], AllocError>
        requires fits { Fits self.now.schema request.now }
        requires conforms { Conforms self.now.schema store.now }
        ensures ascend { IfOk result (λ ks. IsStrictlyIncreasing ks.now) }
        ensures others { IfOk result (λ ks. LeavesFalse self.now.policies.policies request.now store.now ks.now) }
        ensures within { IfOk result (λ ks. (k : ℕ) → Contains ks.now k → k < length self.now.policies.policies) }
    {
        // No action's type is an entity type, as in each schema.
        let indexed = self.indexed();
        indexed.validated.schema().well_formedness();
        indexed.candidates.selected(request, store, selection)
    }

    // The same over the entities that are ready, for a request of whose environment the position is known.
    fn selected_fitting<'x, 'r>(
        &'r self,
        found: &FittingRequest,
        selection: &'x mut Selection<'r>,
    ) -> Result<&'x [usize], AllocError>
        requires fits { Fits self.now.schema found.now.request }
        requires placed { IsPlacedAt self.now.schema found.now.request found.now.environment }
        ensures ascend { IfOk result (λ ks. IsStrictlyIncreasing ks.now) }
        ensures others { IfOk result (λ ks. LeavesFalse self.now.policies.policies found.now.request self.now.world ks.now) }
        ensures within { IfOk result (λ ks. (k : ℕ) → Contains ks.now k → k < length self.now.policies.policies) }
    {
        // No action's type is an entity type, as in each schema.
        let indexed = self.indexed();
        indexed.validated.schema().well_formedness();
        indexed
            .candidates
            .selected_at(found.environment, &found.request, self.store(), selection)
    }

    // Runs the code of the policies that are selected for the request, in order, and gathers how they ended.
    pub(crate) fn tally<'r>(
        &'r self,
        alloc: Global,
        request: &Request,
        selection: &mut Selection<'r>,
        tally: &mut Tally<'r>,
    ) -> Result<(), AllocError>
        requires { Fits self.now.schema request.now }
        ensures { OnOk result (tally.new ≡ tally_of request.now self.now.world self.now.policies.policies) }
    {
        // The entities conform to the schema.
        self.premises();
        self.tally_over(alloc, request, self.store(), selection, tally)
    }

    // The same over other entities that conform.
    pub(crate) fn tally_over<'r, 's>(
        &'r self,
        alloc: Global,
        request: &Request,
        store: &'s Store,
        selection: &mut Selection<'s>,
        tally: &mut Tally<'r>,
    ) -> Result<(), AllocError>
        requires fits { Fits self.now.schema request.now }
        requires conforms { Conforms self.now.schema store.now }
        ensures { OnOk result (tally.new ≡ tally_of request.now store.now self.now.policies.policies) }
    {
        let positions = self.selected_over(request, store, selection)?;
        let mut evaluator = Evaluator::over(request, store);
        self.validated()
            .tally(alloc, &mut evaluator, positions, tally)
    }

    // Like `tally`, for a request of whose environment the position is known.
    pub(crate) fn tally_fitting<'r>(
        &'r self,
        alloc: Global,
        found: &FittingRequest,
        selection: &mut Selection<'r>,
        tally: &mut Tally<'r>,
    ) -> Result<(), AllocError>
        requires fits { Fits self.now.schema found.now.request }
        requires placed { IsPlacedAt self.now.schema found.now.request found.now.environment }
        ensures { OnOk result (tally.new ≡ tally_of found.now.request self.now.world self.now.policies.policies) }
    {
        let positions = self.selected_fitting(found, selection)?;
        let mut evaluator = Evaluator::over(&found.request, self.store());
        self.validated()
            .tally(alloc, &mut evaluator, positions, tally)
    }

    // The decision on a request of whose environment the position is known. Keeps no list of policies.
    pub(crate) fn decide_fitting(
        &self,
        alloc: Global,
        found: &FittingRequest,
    ) -> Result<Decision, AllocError>
        requires fits { Fits self.now.schema found.now.request }
        requires placed { IsPlacedAt self.now.schema found.now.request found.now.environment }
        ensures { IfOk result (λ d. d ≡ (response self.now.policies.policies found.now.request self.now.world).decision) }
    {
        let mut selection = Selection::new(alloc);
        let positions = self.selected_fitting(found, &mut selection)?;
        let mut evaluator = Evaluator::over(&found.request, self.store());
        self.validated().decide(alloc, &mut evaluator, positions)
    }

    /// Every request that fits is answered soundly over each world that conforms to the schema: what [`engine_is_sound`] says of
    /// these policies, under their settings. A law: it runs no code.
    pub fn soundness_over(&self)
        ensures { (w : World) (q : RequestTree) → Conforms self.now.schema w → Fits self.now.schema q
            → IsAnsweredSoundlyWith self.now.settings self.now.policies.policies q w }
    {
        // The theorem of the engine, and its premise that no action's type is an entity type.
        engine_is_sound();
        self.indexed().validated.schema().well_formedness();
    }

    /// Every request that fits is answered soundly: what [`engine_is_sound`] says of these policies, under their settings, and
    /// this world. A law: it runs no code.
    pub fn soundness(&self)
        ensures { (q : RequestTree) → Fits self.now.schema q → IsAnsweredSoundlyWith self.now.settings self.now.policies.policies q self.now.world }
    {
        // The theorem of the engine, and its premise that no action's type is an entity type.
        engine_is_sound();
        self.indexed().validated.schema().well_formedness();
    }

    /// The premises of [`engine_is_sound`] hold of these policies and this world: no action's type is an entity type, strict
    /// validation under the settings accepts the policies for the schema, and the world conforms to it. A law: it runs no code.
    pub fn premises(&self)
        ensures apart { AreTypesApart self.now.schema }
        ensures validated { IsValidatedWith self.now.settings self.now.schema self.now.policies.policies }
        ensures conforms { Conforms self.now.schema self.now.world }
    {
        // No action's type is an entity type, as in each schema.
        self.indexed().validated.schema().well_formedness();
    }

    /// Every request that a line denotes for the schema is answered soundly: what [`engine_is_sound`] says of these policies,
    /// under their settings, and this world. A law: it runs no code.
    pub fn lines_are_answered_soundly(&self)
        ensures { (line : List ℕ) (q : RequestTree) → LineDenotes self.now.schema line q
            → IsAnsweredSoundlyWith self.now.settings self.now.policies.policies q self.now.world }
    {
        // A request that a line denotes fits the schema, and is then answered soundly.
        denoted_requests_fit();
        self.soundness();
    }

    /// Each line has an answer: it denotes a request for the schema, or it has a fault and denotes none. A law: it runs no code.
    pub fn lines_have_answers(&self)
        ensures { (line : List ℕ) → (text : List ℕ) × AnswersLine self.now line text }
    {
        // Each step of reading a line has a value or a fault: uids, names, actions of the schema, and contexts as values of
        // their types. A line that denotes a request has no fault.
        denoted_requests_have_no_fault();
        uid_or_none();
        is_name_tells_names();
        tests_of_schemas_decide();
        read_values_belong();
        self.validated().schema().well_formedness();
    }
}
