//! A set of requirements, one for each part that code can play towards other code.

ghost use Rattle.std.specs.Prelude.{◌≡◌, None, option_map};
ghost use Rattle.std.specs.Option.{option_copied};
ghost use Rattle.req_tree.specs.Tree.{tree_of};
ghost use Rattle.req_tree.specs.TreeSet.{IsSetKind, no_parts, part_of, with_part};

use crate::req::Req;
use std::marker::Model;

/// At most one requirement for each type: 1 host, 2 guest, 3 designated, 4 library, 5 plugin.
#[derive(Drop)]
pub struct ReqSet {
    host: Option<Req>,
    guest: Option<Req>,
    designated: Option<Req>,
    library: Option<Req>,
    plugin: Option<Req>,
}

impl Model for ReqSet {
    ghost use Rattle.std.specs.Prelude.{option_map};
    ghost use Rattle.req_tree.specs.Tree.{tree_of};
    ghost use Rattle.req_tree.specs.TreeSet.{TreeSet, set_code};

    ghost Value = { TreeSet };

    ghost coded = { set_code };

    ghost view = { λ s. record { host = option_map tree_of s.host; guest = option_map tree_of s.guest; designated = option_map tree_of s.designated; library = option_map tree_of s.library; plugin = option_map tree_of s.plugin } };
}

impl ReqSet {
    /// The set without parts, which takes no memory.
    pub fn new() -> ReqSet
        ensures { result ≡ no_parts }
    {
        ReqSet {
            host: None,
            guest: None,
            designated: None,
            library: None,
            plugin: None,
        }
    }

    /// The requirement of a type, and `None` for a number that is no type.
    pub fn part(&self, kind: u32) -> Option<&Req>
        ensures { option_map tree_of (option_copied result) ≡ part_of kind self.now }
    {
        match kind {
            1 => self.host.as_ref(),
            2 => self.guest.as_ref(),
            3 => self.designated.as_ref(),
            4 => self.library.as_ref(),
            5 => self.plugin.as_ref(),
            _ => None,
        }
    }

    /// Adds the requirement of a type that has none.
    pub fn put(&mut self, kind: u32, req: Req)
        requires kind { IsSetKind kind }
        requires free { part_of kind self.old ≡ None }
        ensures { self.new ≡ with_part kind (tree_of req) self.old }
    {
        match kind {
            1 => fill(&mut self.host, req),
            2 => fill(&mut self.guest, req),
            3 => fill(&mut self.designated, req),
            4 => fill(&mut self.library, req),
            _ => fill(&mut self.plugin, req),
        }
    }
}

fn fill(part: &mut Option<Req>, req: Req)
    ensures { option_map tree_of part.new ≡ Some (tree_of req) }
{
    *part = Some(req);
}
