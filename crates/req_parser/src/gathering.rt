//! Parts made one set.

ghost use Rattle.std.specs.Prelude.{◌≡◌, option_map};
ghost use Rattle.req_tree.specs.Tree.{tree_of};
ghost use Rattle.req_primary.specs.Keys.{outcome_of};
ghost use Rattle.req_parser.specs.Gathering.{AllFit, tree_in};
ghost use Rattle.req_parser.specs.Gathering as spec;

use crate::parts::Part;
use req_primary::Built;
use req_tree::{Req, ReqSet};

/// The set of parts of which no two have one kind, unless some requirement was too deep to be built.
pub(crate) fn gathered(mut parts: Vec<Part>) -> Option<ReqSet>
    requires { AllFit parts.items }
    ensures { result ≡ spec.gathered parts.items }
{
    let mut set = ReqSet::new();
    while let Some(part) = parts.pop() {
        let Part { kind, built } = part;
        let Some(req) = requirement_in(built) else {
            return None;
        };
        set.put(kind, req);
    }
    Some(set)
}

/// The requirement that was built.
fn requirement_in(built: Built) -> Option<Req>
    ensures { option_map tree_of result ≡ tree_in (outcome_of built) }
{
    match built {
        Built::Fine { tree, depth: _ } => Some(Box::into_inner(tree)),
        Built::Deep => None,
        Built::BadKey => None,
    }
}
