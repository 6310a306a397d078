//! What a painter's texts show after all that was sent to a terminal before. Each function does nothing, and
//! its contract is the law.

ghost use Rattle.std.specs.Prelude.{◌≡◌, ◌≤◌, ◌++◌};
ghost use Rattle.paint.specs.{ℕ, Bool, List, [], length, take, Some, None, HasSize, Terminal, IsInProfile, LeadsWithBreaks, showing, PainterState, ShownPicture, IsUpdateText, Agrees};

/// A painter that knows nothing agrees with every stream in the profile, and so with the empty one.
#[tactic(auto, using(crate::proofs::Repair::unknown))]
pub fn unknown_agrees()
    ensures every { (painter : PainterState) → painter.last ≡ None → (stream : List ℕ) (t u : Terminal) → IsInProfile stream t u → Agrees painter stream t }
    ensures empty { (t : Terminal) → IsInProfile [] t t }
{}

/// After a doupdate all that was sent agrees with the painter, which knows what it showed.
pub fn agrees_after_update()
    ensures { (painter : PainterState) (clear : Bool) (wanted : ShownPicture) (stream text : List ℕ) (t : Terminal)
        → HasSize painter.lines painter.columns t.picture
        → Agrees painter stream t → IsUpdateText painter clear wanted text
        → Agrees (record painter { last = Some wanted }) (stream ++ text) t }
{}

/// After a doupdate that failed all that was sent agrees with the painter, which knows nothing then.
pub fn agrees_after_fault()
    ensures { (painter : PainterState) (clear : Bool) (wanted : ShownPicture) (stream text : List ℕ) (sent : ℕ) (t : Terminal)
        → HasSize painter.lines painter.columns t.picture
        → Agrees painter stream t → IsUpdateText painter clear wanted text → sent ≤ length text
        → Agrees (record painter { last = None }) (stream ++ take sent text) t }
{}

/// After any stream that agrees with the painter, the text of a doupdate leaves the terminal showing the picture and
/// the cursor.
pub fn shows_after_update()
    ensures { (painter : PainterState) (clear : Bool) (wanted : ShownPicture) (stream text : List ℕ) (t : Terminal)
        → HasSize painter.lines painter.columns t.picture
        → Agrees painter stream t → IsUpdateText painter clear wanted text
        → LeadsWithBreaks (stream ++ text) t (showing wanted.picture wanted.cursor) }
{}
