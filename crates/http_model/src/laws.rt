//! Laws over the definitions: functions that do nothing and whose contracts are the laws.

ghost use Rattle.std.specs.Prelude.{◌≡◌};
ghost use Rattle.http_model.specs.Laws.{HasOneHead, HeadsStay, BadHeadsStay, AreLookedFor, RequestsAddUp, HasOneStream, RefusalsStay};
ghost use Rattle.http_model.specs.declared.limits.TheConstants.{HEAD_LIMIT, FIELD_LIMIT, BODY_LIMIT, LENGTH_DIGITS, REPLY_LIMIT};

/// However a stream is cut into pieces, its head is the same, and so is whether it is bad.
pub fn heads_come_in_pieces()
    ensures one { HasOneHead }
    ensures stay { HeadsStay }
    ensures bad { BadHeadsStay }
{}

/// What the answers of `httparse` and a scan of lines say of the bytes.
pub fn heads_are_looked_for()
    ensures { AreLookedFor }
{}

/// Whoever takes request after request off a stream comes to the requests of the whole.
pub fn requests_add_up()
    ensures { RequestsAddUp }
{}

/// A stream is cut into requests in one way, and ends in one way; a request that is refused stays refused.
pub fn a_stream_has_one_end()
    ensures one { HasOneStream }
    ensures stay { RefusalsStay }
{}

/// The limits of requests and connections.
pub fn limits_of_requests()
    ensures head_bytes { HEAD_LIMIT ≡ 8_192 }
    ensures fields { FIELD_LIMIT ≡ 64 }
    ensures body_bytes { BODY_LIMIT ≡ 16_777_216 }
    ensures length_digits { LENGTH_DIGITS ≡ 19 }
    ensures replies { REPLY_LIMIT ≡ 1_000 }
{}
