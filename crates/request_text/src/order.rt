//! The commands that take nothing but a session.
ghost use Rattle.std.specs.Prelude.{◌≡◌};
ghost use Rattle.request_text.specs.Orders.{forward_order_word, sync_order_word};

/// A command to a synchronisation session.
#[derive(Clone, Copy, Debug, PartialEq, Eq)]
pub enum SyncOrder {
    Pause,
    Resume,
    Reset,
    Terminate,
}

/// A command to a forwarding session.
#[derive(Clone, Copy, Debug, PartialEq, Eq)]
pub enum ForwardOrder {
    Pause,
    Resume,
    Terminate,
}

/// The word of a command to a synchronisation session. It takes no memory.
pub(crate) fn sync_order_word(order: SyncOrder) -> &'static str
    ensures { result.now ≡ sync_order_word order }
{
    match order {
        SyncOrder::Pause => "pause",
        SyncOrder::Resume => "resume",
        SyncOrder::Reset => "reset",
        SyncOrder::Terminate => "terminate",
    }
}

/// The word of a command to a forwarding session. It takes no memory.
pub(crate) fn forward_order_word(order: ForwardOrder) -> &'static str
    ensures { result.now ≡ forward_order_word order }
{
    match order {
        ForwardOrder::Pause => "pause",
        ForwardOrder::Resume => "resume",
        ForwardOrder::Terminate => "terminate",
    }
}
