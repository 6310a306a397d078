//! What holds of the definitions alone. Each function does nothing, and its contract is the law.

ghost use Rattle.std.specs.Prelude.{◌≡◌};
ghost use Rattle.calls.specs.{is_query, only_asks, tested, refusals_of, World, effect_of, Call};

/// The calls that only ask are those whose effect is an answer alone: none is left out, and no other is among them.
pub fn queries_only_ask()
    ensures { (world : World) (call : Call) → is_query call ≡ only_asks (effect_of world call) }
{}

/// Each call is refused by what its row of `calls.table` names, in that order.
pub fn refusals_are_named()
    ensures { (world : World) (call : Call) → tested world call ≡ refusals_of call }
{}
