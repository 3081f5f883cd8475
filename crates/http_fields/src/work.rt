//! What a request asks for.

ghost use Rattle.std.specs.Prelude.{◌≡◌, option_map};
ghost use Rattle.http_fields.specs.Views.{work_of, asked_of};
ghost use Rattle.http_model.specs.Paths as spec;

use crate::fault::HttpFault;

/// What is to be done.
#[derive(Clone, Copy)]
pub enum Work {
    Status,
    Rules,
    /// The signature in the body is assessed.
    Assess {
        /// The word of the kind whose rules decide: `execute`, `install` or `open`.
        kind: &'static [u8],
        /// Whether the outcome may be kept.
        keep: bool,
    },
    /// The line in the body's form is an edit.
    Edit,
}

impl Work {
    // The method of a request for it.
    fn method(self) -> &'static [u8]
        ensures { result.now ≡ spec.method_of (work_of self) }
    {
        match self {
            Work::Status | Work::Rules => b"GET",
            Work::Assess { .. } | Work::Edit => b"POST",
        }
    }
}

/// What a method and a target ask for, or why nothing: `NoPath`, then `BadMethod`.
pub fn read_work(method: &[u8], target: &[u8]) -> Result<Work, HttpFault>
    ensures { asked_of result ≡ spec.work_of method.now target.now }
{
    let Some(work) = work_at(target) else {
        return Err(HttpFault::NoPath);
    };
    if method == work.method() {
        Ok(work)
    } else {
        Err(HttpFault::BadMethod)
    }
}

fn work_at(target: &[u8]) -> Option<Work>
    ensures { option_map work_of result ≡ spec.work_at target.now spec.all_works }
{
    if target == b"/status".as_slice() {
        Some(Work::Status)
    } else if target == b"/rules".as_slice() {
        Some(Work::Rules)
    } else if target == b"/edit".as_slice() {
        Some(Work::Edit)
    } else {
        assess_at(target)
    }
}

fn assess_at(target: &[u8]) -> Option<Work>
    ensures { option_map work_of result ≡ spec.work_at target.now spec.all_assessments }
{
    if target == b"/assess/execute".as_slice() {
        Some(assess(b"execute", true))
    } else if target == b"/assess/execute/nocache".as_slice() {
        Some(assess(b"execute", false))
    } else if target == b"/assess/install".as_slice() {
        Some(assess(b"install", true))
    } else if target == b"/assess/install/nocache".as_slice() {
        Some(assess(b"install", false))
    } else if target == b"/assess/open".as_slice() {
        Some(assess(b"open", true))
    } else if target == b"/assess/open/nocache".as_slice() {
        Some(assess(b"open", false))
    } else {
        None
    }
}

fn assess(kind: &'static [u8], keep: bool) -> Work
    ensures { work_of result ≡ spec.assess kind.now keep }
{
    Work::Assess { kind, keep }
}
