//! Policies that are ready to answer, and the buffers that calls keep.
ghost use Rattle.std.specs.Prelude.{◌≡◌, IfOk};

use cedar_auth::Ready;
use cedar_conform::RequestReader;
use std::alloc::{AllocError, Global};
use std::marker::Model;
use std::sync::Arc;

/// Policies that are ready to answer, which engines of other handles may share, and the buffers that are kept from call to call.
/// Contracts see the policies with their schema, their settings and their world.
#[derive(Drop)]
pub struct Engine {
    pub(crate) ready: Arc<Ready, Global>,
    pub(crate) reader: RequestReader,
    pub(crate) text: Vec<u8>,
}

impl Model for Engine {
    ghost use Rattle.cedar_auth.specs.ReadyCode.{ready_codes};
    ghost use Rattle.cedar_auth_spec.specs.Ready.{ReadyTree};

    ghost Value = { ReadyTree };

    ghost coded = { Prim.hlevel ready_codes };

    ghost view = { λ e. e.ready.value };
}

impl Engine {
    /// An engine of policies that are ready, with empty buffers.
    pub(crate) fn new(alloc: Global, ready: Ready) -> Result<Engine, AllocError>
        ensures { IfOk result (λ e. e ≡ ready) }
    {
        Ok(Engine {
            ready: Arc::new(alloc, ready)?,
            reader: RequestReader::new(alloc)?,
            text: Vec::new(alloc),
        })
    }

    /// Another engine of the same policies, with buffers of its own. It copies no policies.
    pub(crate) fn share(&self, alloc: Global) -> Result<Engine, AllocError>
        ensures { IfOk result (λ e. e ≡ self.now) }
    {
        Ok(Engine {
            ready: Arc::try_clone(&self.ready)?,
            reader: RequestReader::new(alloc)?,
            text: Vec::new(alloc),
        })
    }
}
