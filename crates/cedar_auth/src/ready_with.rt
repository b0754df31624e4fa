//! Answers over entities that come with a request.
ghost use Rattle.std.specs.Prelude.{ℕ, List, ◌≡◌, ◌≢◌, Contains, IfErr, IfOk, MatchResult, OnOk, unwrap_or};
ghost use Rattle.cedar_ast.specs.Response.{ErringTree, response};
ghost use Rattle.cedar_conform_values.specs.declared.conform_fault.ConformFault.TheVariants.{OutOfMemory};
ghost use Rattle.cedar_conform_entities.specs.Changes.{BytesDenoteChanged, BytesHaveChangesFault};
ghost use Rattle.cedar_conform.specs.RequestsWithEntities.{LineDenotesWithEntities, LineHasFaultWithEntities};
ghost use Rattle.cedar_schema_spec.specs.Conformance.{Conforms, Fits};
ghost use Rattle.cedar_store.specs.Changes.{HaveSameEntities};
ghost use Rattle.cedar_value.specs.World.{World};
ghost use Rattle.cedar_value.specs.declared.request.Request.{Request as RequestTree};
ghost use Rattle.cedar_check_spec.specs.Soundness.{IsAllowedWith};
ghost use Rattle.cedar_auth_spec.specs.Headline.{IsAnsweredSoundlyWith};
ghost use Rattle.cedar_auth.specs.AnswerLineWithEntities.{AnswersLineWithEntities};
ghost use Rattle.cedar_auth.specs.Private.Tally.{tally_of};

use crate::ready::Ready;
use crate::response::Response;
use crate::room::Room;
use crate::tally::Tally;
use cedar_auth_candidates::Selection;
use cedar_conform::{
    RequestReader, changed_worlds_conform, read_changes, read_request_with_entities,
    requests_with_entities_are_exact, requests_with_entities_fit, worlds_for_requests_conform,
};
use cedar_conform_values::{ConformFault, read_values_belong};
use cedar_parser_tokens::uid_or_none;
use cedar_schema::tests_of_schemas_decide;
use cedar_store::Store;
use cedar_value::{Request, below_is_a_chain_of_links, is_name_tells_names};
use std::alloc::{AllocError, Global};

impl Ready {
    /// The response to a request that fits, over the entities after the changes that the bytes write,
    /// `{"upsert":[entry, ..],"remove":[uid, ..]}` (Cedar's crate, upsert and removal of entities). It is what
    /// [`Ready::with_changes`] and then [`Ready::answer`] give. What is ready now stays as it is: the changes are for this request
    /// alone.
    ///
    /// # Errors
    ///
    /// 1 when out of memory, which is never a decision, and otherwise 401, 402 or 501 to 509 only where that fault is in the bytes.
    pub fn answer_with(
        &self,
        alloc: Global,
        request: &Request,
        changes: &[u8],
    ) -> Result<Response<'_>, ConformFault>
        requires { Fits self.now.schema request.now }
        ensures ok { IfOk result (λ r. (w : World) × BytesDenoteChanged self.now.schema changes.now self.now.world w
            × (r ≡ response self.now.policies.policies request.now w)) }
        ensures errors { IfOk result (λ r. (x : ErringTree) → Contains r.erring x → IsAllowedWith self.now.settings x.error) }
        ensures sound { (w : World) → BytesDenoteChanged self.now.schema changes.now self.now.world w
            → IsAnsweredSoundlyWith self.now.settings self.now.policies.policies request.now w }
        ensures refused { IfErr result (λ e. e ≢ OutOfMemory → BytesHaveChangesFault self.now.schema self.now.world changes.now e) }
    {
        // The entities conform, and every request that fits is answered soundly over each world that the changes denote.
        self.premises();
        self.changes_are_answered_soundly();
        let store = read_changes(alloc, self.validated().schema(), self.store(), changes)?;
        let mut selection = Selection::new(alloc);
        let mut tally = Tally::new(alloc);
        self.tally_over(alloc, request, &store, &mut selection, &mut tally)?;
        Ok(tally.into_response())
    }

    // Reads a line with entities, with a reader that keeps its buffers from line to line.
    pub(crate) fn read_with_entities(
        &self,
        alloc: Global,
        line: &[u8],
        reader: &mut RequestReader,
    ) -> Result<(Request, Option<Store>), ConformFault>
        ensures denotes { IfOk result (λ r. LineDenotesWithEntities self.now.schema self.now.world line.now r.0 (unwrap_or r.1 self.now.world)) }
        ensures fits { IfOk result (λ r. Fits self.now.schema r.0) }
        ensures conforms { IfOk result (λ r. Conforms self.now.schema (unwrap_or r.1 self.now.world)) }
        ensures only { (q : RequestTree) (w : World) → LineDenotesWithEntities self.now.schema self.now.world line.now q w
            → MatchResult result (λ r. (r.0 ≡ q) × HaveSameEntities (unwrap_or r.1 self.now.world) w) (λ e. e ≡ OutOfMemory) }
        ensures refused { IfErr result (λ e. e ≢ OutOfMemory → LineHasFaultWithEntities self.now.schema self.now.world line.now e) }
    {
        // The entities conform to the schema.
        self.premises();
        read_request_with_entities(alloc, self.validated().schema(), self.store(), line, reader)
    }

    // Like `tally`, over the entities of the line where it brought some.
    pub(crate) fn tally_for<'r>(
        &'r self,
        alloc: Global,
        request: &Request,
        brought: &Option<Store>,
        room: &mut Room<'r>,
    ) -> Result<(), AllocError>
        requires fits { Fits self.now.schema request.now }
        requires conforms { Conforms self.now.schema (unwrap_or brought.now self.now.world) }
        ensures { OnOk result (room.new.tally ≡ tally_of request.now (unwrap_or brought.now self.now.world) self.now.policies.policies) }
    {
        match brought {
            Some(store) => {
                let mut selection = Selection::new(alloc);
                self.tally_over(alloc, request, store, &mut selection, &mut room.tally)
            }
            None => self.tally(alloc, request, &mut room.selection, &mut room.tally),
        }
    }

    /// Every request that fits is answered soundly over each world that bytes of changes denote: what
    /// [`engine_is_sound`](crate::engine_is_sound) says of these policies, under their settings. A law: it runs no code.
    pub fn changes_are_answered_soundly(&self)
        ensures { (changes : List ℕ) (w : World) (q : RequestTree) → BytesDenoteChanged self.now.schema changes self.now.world w → Fits self.now.schema q
            → IsAnsweredSoundlyWith self.now.settings self.now.policies.policies q w }
    {
        // A world that the changes denote conforms, and each request is answered soundly over a world that does.
        changed_worlds_conform();
        self.soundness_over();
        self.premises();
        self.validated().schema().well_formedness();
    }

    /// Every request that a line with entities denotes is answered soundly over the world that the line denotes for it: what
    /// [`engine_is_sound`](crate::engine_is_sound) says of these policies, under their settings. A law: it runs no code.
    pub fn lines_with_entities_are_answered_soundly(&self)
        ensures { (line : List ℕ) (q : RequestTree) (w : World) → LineDenotesWithEntities self.now.schema self.now.world line q w
            → IsAnsweredSoundlyWith self.now.settings self.now.policies.policies q w }
    {
        // The request fits, the world conforms, and each request that fits is answered soundly over a world that conforms.
        requests_with_entities_fit();
        worlds_for_requests_conform();
        self.soundness_over();
        self.premises();
        self.validated().schema().well_formedness();
    }

    /// Each line with entities has an answer: it denotes a request and a world for it, or it has a fault and denotes none. A law: it
    /// runs no code.
    pub fn lines_with_entities_have_answers(&self)
        ensures { (line : List ℕ) → (text : List ℕ) × AnswersLineWithEntities self.now line text }
    {
        // Each step of reading a line has a value or a fault: uids, names, declarations and descents of the schema, contexts and
        // attributes as values of their types, and whether an entity is below itself. A line that denotes a request and a world
        // has no fault.
        requests_with_entities_are_exact();
        uid_or_none();
        is_name_tells_names();
        tests_of_schemas_decide();
        read_values_belong();
        below_is_a_chain_of_links();
        self.validated().schema().well_formedness();
    }
}
