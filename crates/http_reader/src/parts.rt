//! What a head says of its body and of the connection, by the places of its parts.

ghost use Rattle.std.specs.Prelude.{◌≡◌, ◌<◌};
ghost use Rattle.httparse.specs.Grammar.{RequestHead};
ghost use Rattle.httparse.specs.Spans.{IsRequestAt, IsRequestWithin};
ghost use Rattle.http_fields.specs.Views.{length_of};
ghost use Rattle.http_model.specs.Streams as spec;
ghost use Rattle.http_model.specs.declared.limits.TheConstants.{REPLY_LIMIT};

use http_fields::{HttpFault, asks_to_close, measure};
use http_model::limits::REPLY_LIMIT;
use httparse::spans::{HeaderSpan, RequestSpans};

/// The length of the body behind the head whose parts these are; or why it isn't known.
pub fn body_length(
    window: &[u8],
    fields: &[HeaderSpan],
    spans: RequestSpans,
) -> Result<usize, HttpFault>
    requires within { IsRequestWithin window.now fields.now spans }
    ensures length { (h : RequestHead) → IsRequestAt window.now fields.now spans h → length_of result ≡ spec.measured_of h }
{
    measure(
        spans.method.of(window),
        window,
        fields.split_at(spans.headers).0,
    )
}

/// Whether the reply to the head whose parts these are ends the connection, where so many came before it.
pub fn closes(count: usize, window: &[u8], fields: &[HeaderSpan], spans: RequestSpans) -> bool
    requires few { count < REPLY_LIMIT }
    requires within { IsRequestWithin window.now fields.now spans }
    ensures closes { (h : RequestHead) → IsRequestAt window.now fields.now spans h → result ≡ spec.closes count h }
{
    let is_last = count + 1 == REPLY_LIMIT;
    let is_old = spans.version == 0;
    is_last | (is_old | asks_to_close(window, fields.split_at(spans.headers).0))
}
