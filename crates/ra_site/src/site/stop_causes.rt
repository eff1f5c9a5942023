ghost use Rattle.std.specs.Prelude.{◌≡◌};
ghost use Rattle.ra_site.specs.StopCauses as spec;

use crate::{BookError, SiteError, Stop};

/// Returns the cause to stop all nodes after a call of a site was refused, or `None` if that site is stopped already,
/// so that no other site need be. [`Site::pump`](crate::Site::pump) stops them for this cause. It does not allocate.
pub fn stop_of(refused: SiteError) -> Option<Stop>
    ensures { result ≡ spec.stop_of refused }
{
    let SiteError::Refused(refused) = refused else {
        return None;
    };
    match refused {
        BookError::Failed => None,
        BookError::Memory => Some(Stop::Memory),
        BookError::ClockFull => Some(Stop::Clock),
        BookError::Exhausted => Some(Stop::Exhausted),
        BookError::Frame(_) => Some(Stop::Frame),
        BookError::Busy
        | BookError::NotHeld
        | BookError::NotWaiting
        | BookError::WrongNode
        | BookError::Stranger => Some(Stop::Refused),
    }
}
