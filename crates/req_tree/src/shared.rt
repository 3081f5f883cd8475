//! A requirement that several rules share. It is no deeper than a requirement may be, so that it can be walked.

ghost use Rattle.std.specs.Prelude.{◌≡◌, IfOk};
ghost use Rattle.req_tree.specs.Tree.{tree_of};
ghost use Rattle.req_tree.specs.Spellable.{IsShallow};

use crate::req::Req;
use std::alloc::{AllocError, Global};
use std::marker::Model;
use std::sync::Arc;

/// A shared requirement, which contracts see as its tree: however often it is shared, it is the same.
#[derive(Drop)]
pub struct SharedReq {
    shared: Arc<Req>,
}

impl Model for SharedReq {
    ghost use Rattle.std.specs.Arc.{arc_value};
    ghost use Rattle.req_tree.specs.Tree.{Tree, tree_of};
    ghost use Rattle.req_tree.specs.TreeCode.{tree_code};
    ghost use Rattle.req_tree.specs.Spellable.{IsShallow};

    ghost Value = { Tree };

    ghost coded = { tree_code };

    ghost view = { λ s. tree_of (arc_value s.shared) };

    ghost invariant = { λ s. IsShallow (tree_of (arc_value s.shared)) };
}

impl SharedReq {
    pub fn new(alloc: Global, req: Req) -> Result<SharedReq, AllocError>
        requires { IsShallow (tree_of req) }
        ensures { IfOk result (λ shared. shared ≡ tree_of req) }
    {
        let shared = Arc::new(alloc, req)?;
        Ok(SharedReq { shared })
    }

    /// The same requirement once more, without a copy.
    pub fn share(&self) -> Result<SharedReq, AllocError>
        ensures { IfOk result (λ shared. shared ≡ self.now) }
    {
        let shared = Arc::try_clone(&self.shared)?;
        Ok(SharedReq { shared })
    }

    pub fn req(&self) -> &Req
        ensures tree { tree_of result.now ≡ self.now }
        ensures shallow { IsShallow (tree_of result.now) }
    {
        &self.shared
    }
}
