//! What makes calls, by their names and arguments as data.

ghost use Rattle.std.specs.Prelude.{◌≡◌};
ghost use Rattle.calls.specs.{Err, IfOk, Ok, Result, false, true, World, is_doupdate, Call, Reply, Refresh, IsAnswerTo, IsOfKind, kind_of, is_query, as_reply};

use crate::answer::Answer;
use world::{Call, Composed, Refresh, Reply};

/// What makes calls, each but `doupdate`.
pub trait Calls {
    /// Why a call did nothing.
    type Error;

    // The call was made, and ended so: all that is known of it.
    ghost made: { Self → Call → Result Reply Self.Error → Self → Type 0 };

    /// Makes a call.
    fn call(&mut self, call: &Call<'_>) -> Result<Reply, Self::Error>
        requires { is_doupdate call.now ≡ false }
        ensures { made self.old call.now result self.new };

    /// Makes a call that only asks.
    fn ask(&self, query: &Call<'_>) -> Result<Reply, Self::Error>
        requires { is_query query.now ≡ true }
        ensures { made self.now query.now result self.now };

    // Each answer is of the kind that the call has.
    ghost answers: { (old : Self) (call : Call) (reply : Reply) (new : Self) → is_doupdate call ≡ false → made old call (Ok reply) new
        → IsAnswerTo call reply };

    // No update_panels is refused.
    ghost composes: { (old : Self) (e : Self.Error) (new : Self) → made old (Call.Refresh Refresh.UpdatePanels) (Err e) new → ⊥ };

    /// Makes a call whose answers are of one kind.
    final fn make<A: Answer>(&mut self, call: &Call<'_>) -> Result<A, Self::Error>
        requires other { is_doupdate call.now ≡ false }
        requires kind { (world : World) → kind_of world call.now ≡ A.kind }
        ensures { made self.old call.now (as_reply A.reply_of result) self.new }
    {
        typed(self.call(call))
    }

    /// Makes a call that only asks, and whose answers are of one kind.
    final fn find<A: Answer>(&self, query: &Call<'_>) -> Result<A, Self::Error>
        requires query { is_query query.now ≡ true }
        requires kind { (world : World) → kind_of world query.now ≡ A.kind }
        ensures { made self.now query.now (as_reply A.reply_of result) self.now }
    {
        typed(self.ask(query))
    }

    /// Takes the picture of windows and panels into the virtual screen, with the cursor of the top visible panel's
    /// window, or else of the standard screen. It answers how many cells it read.
    final fn update_panels(&mut self) -> Composed
        ensures { made self.old (Call.Refresh Refresh.UpdatePanels) (Ok (Reply.Composed result)) self.new }
    {
        match self.make(&Call::Refresh(Refresh::UpdatePanels)) {
            Ok(composed) => composed,
            Err(_) => unreachable!(),
        }
    }
}

/// An answer, as the type that all of its kind have.
fn typed<A: Answer, E>(made: Result<Reply, E>) -> Result<A, E>
    requires { IfOk made (IsOfKind A.kind) }
    ensures { made ≡ as_reply A.reply_of result }
{
    let reply = made?;
    Ok(A::of(reply).unwrap())
}
