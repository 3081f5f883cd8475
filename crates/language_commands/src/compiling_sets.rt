//! `compileset NAME`: the blob of the set of requirements whose text a file is.

ghost use Rattle.std.specs.Prelude.{◌≡◌, ◌≢◌, Err, IfOk};
ghost use Rattle.gk_io.specs.Devices.{PassesShelf};
ghost use Rattle.req_grammar.specs.declared.limits.TheConstants.{MOST_TEXT_BYTES};
ghost use Rattle.run_status.specs.Files.{SaysOnFile};
ghost use Rattle.run_status.specs.Said.{IsSpoken};
ghost use Rattle.language_commands.specs.CompilingSets.{CompilesSet};

use crate::refusal::refuse_text;
use gk_io::Shelf;
use req_grammar::MOST_TEXT_BYTES;
use req_grammar::laws::texts_say_one_tree;
use req_language::{SetLanguageFault, blob_of_set};
use run_status::{Asked, Said, Status, Stop, fetch_file};
use std::alloc::{AllocError, Global};

/// What `compileset NAME` says.
pub fn compile_set<H: Shelf>(alloc: Global, name: &str, shelf: &mut H) -> Result<Said, Stop>
    ensures says { IfOk result (λ said. SaysOnFile CompilesSet (H.files shelf.old) name.now MOST_TEXT_BYTES said.status said.text) }
    ensures spoken { IfOk result (λ said. IsSpoken said.status) }
    ensures shelf { PassesShelf (result ≡ Err Stop.ShelfFault) (result ≡ Err Stop.ShelfFault) (H.files shelf.old) (H.files shelf.new) (H.faults shelf.old) (H.faults shelf.new) }
    ensures unasked { result ≢ Err Stop.ClockFault }
{
    match fetch_file(alloc, shelf, name, MOST_TEXT_BYTES)? {
        Asked::File(text) => Ok(compiled(alloc, text.as_slice())?),
        Asked::Said(said) => Ok(said),
    }
}

fn compiled(alloc: Global, text: &[u8]) -> Result<Said, AllocError>
    ensures says { IfOk result (λ said. CompilesSet text.now said.status said.text) }
    ensures spoken { IfOk result (λ said. IsSpoken said.status) }
{
    texts_say_one_tree();
    match blob_of_set(alloc, text) {
        Ok(text) => Ok(Said {
            status: Status::Fine,
            text,
        }),
        Err(SetLanguageFault::Text(fault)) => refuse_text(alloc, fault),
        Err(_) => Err(AllocError),
    }
}
