//! Laws of the definitions: each is the clause of a function that does nothing.

ghost use Rattle.http_body_laws.specs.Laws as laws;

/// Bytes that begin with a chunked body within the limits are read as it, and no further.
pub fn chunked_bodies_are_read()
    ensures { laws.BodiesAreRead }
{}

/// What is read whole is a chunked body within the limits.
pub fn whole_are_chunked_bodies()
    ensures { laws.WholeAreBodies }
{}

/// Where a chunk line brings the sizes above the limit, the body is refused with 413.
pub fn too_large_are_refused()
    ensures { laws.TooLargeAreRefused }
{}

/// It is refused with 413 nowhere else.
pub fn refused_are_too_large()
    ensures { laws.RefusedAreTooLarge }
{}

/// Bytes that are refused with 400 begin no chunked body, whatever follows.
pub fn refused_are_no_bodies()
    ensures { laws.RefusedAreNone }
{}

/// Bytes that are neither refused nor a whole body can become one by the grammar: no refusal comes late.
pub fn others_go_on()
    ensures { laws.OthersGoOn }
{}
