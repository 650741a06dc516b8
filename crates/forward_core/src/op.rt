//! What happens to a forwarding session.
use mux_link::LinkOp;

/// One thing that happens to a forwarding session.
#[derive(Drop)]
pub enum ForwardOp {
    /// This happens at its link.
    Link(LinkOp),
    /// The session is paused, and its link cut.
    Pause,
    /// The session goes on. One that was paused or whose link was cut gets a new link.
    Resume,
}
