//! What the definitions of a run say of every text, as functions that only carry a proof.

ghost use Rattle.std.specs.Prelude.{◌≡◌, ◌≤◌, ◌↔◌, ℕ, List, Ok, length};
ghost use Rattle.std.specs.Str.Lines.{lines};
ghost use Rattle.mdp_capture.specs.Capture.{CaptureContent, capture_of};
ghost use Rattle.mdp_capture.specs.Lines.{numbered_lines};
ghost use Rattle.mdp_pipeline.specs.Merge.{in_order, records_of};
ghost use Rattle.mdp_pipeline.specs.Merging.{Tagged, IsByLine, IsInTextOrder};
ghost use Rattle.mdp_pipeline.specs.TextOrder.{arrivals_in, records_from};

/// Proves that the order by line is the order of the text where each line has a number of its own, as in a text of up
/// to 4294967295 lines: the records of its lines, merged by line, stand as their lines do. A capture has the records of
/// its text's lines, so that its merge by line is the merge in the order of the text.
pub fn law_of_orders()
    ensures lines { (text : List ℕ) → length (lines text) ≤ 4294967295
        → in_order (records_from (numbered_lines text)) ≡ arrivals_in (numbered_lines text) }
    ensures capture { (text : List ℕ) (capture : CaptureContent) →
        capture_of text ≡ Ok capture → records_of capture ≡ records_from (numbered_lines text) }
    ensures merge { (text : List ℕ) (capture : CaptureContent) (merge : List Tagged) →
        capture_of text ≡ Ok capture → length (lines text) ≤ 4294967295
        → IsByLine (records_of capture) merge ↔ IsInTextOrder (numbered_lines text) merge }
{}
