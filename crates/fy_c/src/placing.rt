//! What a call makes, put into its place.
ghost use Rattle.std.specs.Prelude.{◌≡◌, IfOk, IfErr};
ghost use Rattle.fy_c.specs.Statuses.{number, ending};

use crate::status::Status;

/// Puts what was made into its place. The number of how that ended is answered.
///
/// # Errors
///
/// Why nothing was made: the place then stays as it was.
pub(crate) fn put<T: Drop>(made: Result<T, Status>, place: &mut T) -> u32
    ensures answer { result ≡ number (ending made) }
    ensures put { IfOk made (λ value. place.new ≡ value) }
    ensures kept { IfErr made (λ _. place.new ≡ place.old) }
{
    match made {
        Ok(value) => {
            *place = value;
            Status::Done.number()
        }
        Err(status) => status.number(),
    }
}
