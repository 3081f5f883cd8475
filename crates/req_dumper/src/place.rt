//! Where a requirement stands among others.

ghost use Rattle.std.specs.Prelude.{◌≡◌};
ghost use Rattle.req_dumper.specs.Places.{place_of, needs_or, needs_and};

/// Where a requirement stands: that decides whether parentheses stand round it.
#[derive(Clone, Copy, Drop)]
pub(crate) enum Place {
    /// Alone, or beside `or`.
    Alone,
    BesideAnd,
    BehindBang,
}

/// Whether parentheses stand round operands with `or` between them.
pub(crate) fn needs_or(place: Place) -> bool
    ensures { result ≡ needs_or (place_of place) }
{
    !matches!(place, Place::Alone)
}

/// Whether parentheses stand round operands with `and` between them.
pub(crate) fn needs_and(place: Place) -> bool
    ensures { result ≡ needs_and (place_of place) }
{
    matches!(place, Place::BehindBang)
}
