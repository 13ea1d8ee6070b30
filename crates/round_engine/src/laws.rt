//! What holds of lists of steps. Each law stands on a function that does nothing.

ghost use Rattle.round_engine.specs.Progresses.{OrdersAgree};

/// Two lists of steps with the same planes of each column, however interleaved, leave the same knowledge.
pub fn orders_agree()
    ensures { OrdersAgree }
{}
