//! What holds of streams and terminals by definition. Each function does nothing, and its contract is the law.

#![tactic(auto, using(crate::proofs::LawLemmas::laws))]

ghost use Rattle.std.specs.Prelude.{◌≡◌, ◌↔◌, ◌<◌, ◌≤◌, ◌++◌};
ghost use Rattle.ecma.specs.{ℕ, List, [], length, take, HasSize, Picture, difference, EndsOrEscapes, Item, Splits, Reader, HasRead, Terminal, spelling, IsToken, IsItemOf, FailsAt, Leads};
ghost use Rattle.ecma.specs.{LeadsWithBreaks, IsInProfile, Reaches};
ghost use Rattle.ecma.specs.declared.token.Token.{Token};

/// A stream is one sequence of items at most. Of two sequences of items at its start, the one that leaves no more bytes
/// begins with the other, also where items were never finished.
pub fn one_row_of_items()
    ensures whole { (stream : List ℕ) (items others : List Item) → Splits stream items [] → Splits stream others [] → items ≡ others }
    ensures prefix { (stream : List ℕ) (items others : List Item) (rest left : List ℕ) → Splits stream items rest → Splits stream others left
        → length left ≤ length rest → (more : List Item) × (others ≡ items ++ more) × Splits rest more left }
{}

/// A stream reaches one terminal at most before an offset.
pub fn one_terminal_reached()
    ensures { (stream : List ℕ) (offset : ℕ) (t u v : Terminal) → Reaches stream t offset u → Reaches stream t offset v → u ≡ v }
{}

/// A stream fails at one offset at most, with one terminal, and then it isn't in the profile.
pub fn one_failure()
    ensures offset { (stream : List ℕ) (offset other : ℕ) (t u v : Terminal) → FailsAt stream t offset u → FailsAt stream t other v
        → offset ≡ other }
    ensures terminal { (stream : List ℕ) (offset other : ℕ) (t u v : Terminal) → FailsAt stream t offset u → FailsAt stream t other v
        → u ≡ v }
    ensures outside { (stream : List ℕ) (offset : ℕ) (t u v : Terminal) → FailsAt stream t offset u → IsInProfile stream t v → ⊥ }
{}

/// What a reader shows is that of the stream, however it was cut: two readers of one stream show one terminal.
pub fn one_terminal_shown()
    ensures { (stream : List ℕ) (first : Terminal) (one other : Reader) → HasRead stream first one → HasRead stream first other
        → one.terminal ≡ other.terminal }
{}

/// A stream that fails does so at the same offset, with the same terminal, whatever follows it.
pub fn failure_stays()
    ensures { (stream more : List ℕ) (offset : ℕ) (t u : Terminal) → FailsAt stream t offset u → FailsAt (stream ++ more) t offset u }
{}

/// If a stream leads from t to u and another from u to v, then the one followed by the other leads from t to v.
pub fn joined_streams()
    ensures { (stream more : List ℕ) (t u v : Terminal) → Leads stream t u → Leads more u v → Leads (stream ++ more) t v }
{}

/// The same after a stream with breaks.
pub fn joined_after_breaks()
    ensures { (stream more : List ℕ) (t u v : Terminal) → LeadsWithBreaks stream t u → Leads more u v
        → LeadsWithBreaks (stream ++ more) t v }
{}

/// What begins with an escape may follow any stream in the profile, also one that ends within a control sequence.
pub fn repaired_stream()
    ensures { (stream more : List ℕ) (t u v : Terminal) → IsInProfile stream t u → Leads more u v → 0 < length more → EndsOrEscapes more
        → LeadsWithBreaks (stream ++ more) t v }
{}

/// A stream that is cut off anywhere is in the profile too.
pub fn cut_stream()
    ensures { (stream : List ℕ) (t v : Terminal) (n : ℕ) → Leads stream t v → (u : Terminal) × IsInProfile (take n stream) t u }
{}

/// No stream changes the size of the picture.
pub fn size_stays()
    ensures { (lines columns offset : ℕ) (stream : List ℕ) (t u : Terminal) → HasSize lines columns t.picture
        → Reaches stream t offset u → HasSize lines columns u.picture }
{}

/// Two pictures of one size differ in no place exactly if they are one picture.
pub fn no_difference()
    ensures { (lines columns : ℕ) (old new : Picture) → HasSize lines columns old → HasSize lines columns new
        → (difference old new ≡ 0) ↔ (old ≡ new) }
{}

/// The spelling of a token is one item, and it does what the token does.
pub fn spelled_item()
    ensures { (token : Token) → IsToken token → IsItemOf (spelling token) token }
{}
