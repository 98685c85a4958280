//! What the definitions of a capture say of every text, as functions that only carry a proof.

ghost use Rattle.std.specs.Prelude.{◌≡◌, ◌↔◌, ◌++◌, ◌∷◌, [], List, Ok, Err, ℕ, true};
ghost use Rattle.mdp_capture.specs.Capture.{CaptureContent, RefusedLine, capture_of, has_record};
ghost use Rattle.mdp_capture.specs.Fronts.{FollowsRecords, GoesOnFrom, IsFrontOf, front_of};
ghost use Rattle.mdp_capture.specs.Lines.{IsCaptureOf};
ghost use Rattle.mdp_capture.specs.Refused.{HasOneAnswer, IsRefusedCapture};

/// Proves that a text has a capture exactly where each list of the capture is what the text's lines bring to it, with
/// their numbers and in their order, every instrument stands before the first record, and the instruments fit.
pub fn captures_hold_their_lines()
    ensures { (text : List ℕ) (capture : CaptureContent)
        → (capture_of text ≡ Ok capture) ↔ IsCaptureOf text capture }
{}

/// Proves that a text is refused exactly on its first line that refuses the run, for the first refusal that holds there
/// in the order 35, 33, 31, 32; or, with 34 on line 0, where no line lists an instrument.
pub fn refusals_are_of_the_first_line()
    ensures { (text : List ℕ) (refused : RefusedLine) →
        (capture_of text ≡ Err refused) ↔ IsRefusedCapture text refused.line refused.refusal }
{}

/// Proves that each text has one capture or is refused on one line for one refusal, and never both.
pub fn texts_have_one_answer()
    ensures { (text : List ℕ) → HasOneAnswer text }
{}

/// Proves that the front of a text is what its lines bring up to the first that refuses the run, and that it is the
/// capture of a text that has one.
pub fn fronts_hold_their_lines()
    ensures lines { (text : List ℕ) → IsFrontOf text (front_of text) }
    ensures whole { (text : List ℕ) (capture : CaptureContent) →
        capture_of text ≡ Ok capture → front_of text ≡ capture }
{}

/// Proves that a text goes on from what stands before any of its line feeds: each list of its front begins with that of
/// the front of what stands there.
pub fn fronts_only_grow()
    ensures { (text more : List ℕ) →
        GoesOnFrom (front_of (text ++ 10 ∷ [])) (front_of (text ++ 10 ∷ more)) }
{}

/// Proves that behind a record the instruments stay and nothing but a late instrument can refuse the run, whatever
/// follows the line feed.
pub fn only_late_instruments_follow_records()
    ensures { (text more : List ℕ) (front : CaptureContent) →
        capture_of (text ++ 10 ∷ []) ≡ Ok front → has_record front ≡ true
        → FollowsRecords front (capture_of (text ++ 10 ∷ more)) }
{}
