//! Lines that are lost for want of memory.
use std::alloc::AllocError;

/// What a line is, for which there is no memory, in a session that is open.
#[derive(Clone, Copy, Debug, PartialEq, Eq)]
pub enum LostLine {
    /// An opening, which was read as one.
    Opening,
    /// A request, which is counted as a call, or a line of which it isn't known what it is.
    Request,
}

impl From<AllocError> for LostLine {
    ghost use Rattle.std.specs.Prelude.{◌≡◌};
    ghost use Rattle.tt_session.specs.declared.lost_line.LostLine.TheVariants.{Request};

    ghost from_gives = { λ _ e. e ≡ Request };

    fn from(_error: AllocError) -> LostLine {
        LostLine::Request
    }
}
