//! Why a request is refused.

ghost use Rattle.std.specs.Prelude.{◌≡◌, ◌≤◌, [], ◌∷◌, ◌++◌, length};
ghost use Rattle.http_fields.specs.Views.{fault_of};
ghost use Rattle.http_model.specs.Faults.{http_fault_text, http_fault_status};

/// Why a request isn't answered as it asks.
#[derive(Clone, Copy, PartialEq, Eq)]
pub enum HttpFault {
    /// No head comes.
    BadHead,
    /// The body is too long.
    TooLarge,
    /// How long the body is isn't said.
    NoLength,
    /// Nothing stands at the target.
    NoPath,
    /// The target has another method.
    BadMethod,
    /// The body is no form of one line.
    BadForm,
    OutOfMemory,
    /// How long the body is isn't said in digits, or twice.
    BadLength,
    /// No more turns can be drawn.
    Spent,
}

impl HttpFault {
    /// The refusal with its LF.
    pub fn body(self) -> &'static [u8]
        ensures text { result.now ≡ http_fault_text (fault_of self) ++ 10 ∷ [] }
        ensures short { length result.now ≤ 40 }
    {
        match self {
            HttpFault::BadHead => b"refused http 1 BadHead\n",
            HttpFault::TooLarge => b"refused http 2 TooLarge\n",
            HttpFault::NoLength => b"refused http 3 NoLength\n",
            HttpFault::NoPath => b"refused http 4 NoPath\n",
            HttpFault::BadMethod => b"refused http 5 BadMethod\n",
            HttpFault::BadForm => b"refused http 6 BadForm\n",
            HttpFault::OutOfMemory => b"refused http 7 OutOfMemory\n",
            HttpFault::BadLength => b"refused http 8 BadLength\n",
            HttpFault::Spent => b"refused http 9 Spent\n",
        }
    }

    /// The status of the reply.
    pub fn status(self) -> u16
        ensures { result ≡ http_fault_status (fault_of self) }
    {
        match self {
            HttpFault::BadHead | HttpFault::BadForm | HttpFault::BadLength => 400,
            HttpFault::NoPath => 404,
            HttpFault::BadMethod => 405,
            HttpFault::NoLength => 411,
            HttpFault::TooLarge => 413,
            HttpFault::OutOfMemory => 500,
            HttpFault::Spent => 503,
        }
    }
}
