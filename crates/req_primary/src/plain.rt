//! Operands that are read as what they are.

ghost use Rattle.std.specs.Prelude.{◌≡◌, false};
ghost use Rattle.req_tree.specs.Tree.{tree_of};
ghost use Rattle.req_primary.specs.Operands.{is_cert_field};
ghost use Rattle.req_primary.specs.Keys.{operand_tree};

use crate::operand::{Operand, PlainReq};
use req_tree::Req;

/// A requirement that has no key of a certificate's test.
pub(crate) fn plain(req: Req) -> Operand
    requires { is_cert_field (tree_of req) ≡ false }
    ensures { operand_tree result ≡ tree_of req }
{
    Operand::Plain(PlainReq { req })
}
