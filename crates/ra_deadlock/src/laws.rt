//! What a deadlock is good for: it never ends by itself.
ghost use Rattle.ra_deadlock.specs.Lasting.{CirclesLast};

/// A deadlock lasts until one of its requests is given back or given up: whatever else happens, none of those that wait
/// is granted.
pub fn circles_last()
    ensures { CirclesLast }
{}
