//! An operand that has no subtrees, as it is read.

ghost use Rattle.std.specs.Prelude.{◌≡◌, false};
ghost use Rattle.req_tree.specs.Tree.{tree_of};
ghost use Rattle.req_primary.specs.Operands.{is_cert_field};

use req_tree::{Bytes, Match, Req};

/// A requirement that is no test of a certificate's field.
#[derive(Drop)]
pub struct PlainReq {
    pub(crate) req: Req,
    ghost plain: { is_cert_field (tree_of req) ≡ false },
}

/// A requirement without subtrees, or a test of a certificate whose key was not looked at.
#[derive(Drop)]
pub enum Operand {
    Plain(PlainReq),
    CertKey { slot: i32, key: Bytes, test: Match },
}
