//! Laws of what the queries come to. Each function does nothing: its clauses are the laws.
ghost use Rattle.std.specs.Prelude.{◌≡◌, ℕ, ◌<◌, List, MatchOption};
ghost use Rattle.slice_num.specs.Valuation.{Valuation};
ghost use Rattle.slice_step.specs.ValuationFile.{IsValuationFile, valuations_fault, IsReplayFile, replay_fault};
ghost use Rattle.slice_num.specs.declared.cut_answer.CutAnswer.{CutAnswer};
ghost use Rattle.slice_step.specs.Exact.{ValueIsExact, ShareIsExact, LeastPointIsExact, LeastAnswerIsExact};

/// Where the numbers fit, the values and share-values that the queries give are those of the definitions: sums over
/// all steps of height times length, and their parts of the whole.
pub fn values_are_exact()
    ensures value { ValueIsExact }
    ensures share { ShareIsExact }
{}

/// Where the numbers fit, the points of cuts are the least ones: the stretch up to the point has the amount that was
/// asked for, and up to no earlier point; and the answer to a cut of a piece is the least right one.
pub fn cuts_are_least()
    ensures point { LeastPointIsExact }
    ensures answer { LeastAnswerIsExact }
{}

/// A file of valuations has one answer: it says one list of valuations where it has no fault, and none where it has one.
pub fn valuation_files_have_one_answer()
    ensures one { (bytes : List ℕ) (agents : ℕ) (vs ws : List Valuation) → IsValuationFile bytes agents vs → IsValuationFile bytes agents ws → vs ≡ ws }
    ensures exact { (bytes : List ℕ) (agents : ℕ) → 0 < agents → MatchOption (valuations_fault bytes agents) ((vs : List Valuation) × IsValuationFile bytes agents vs) (λ e. (vs : List Valuation) → IsValuationFile bytes agents vs → ⊥) }
{}

/// The same of a file of valuations and answers.
pub fn replay_files_have_one_answer()
    ensures one { (bytes : List ℕ) (agents : ℕ) (vs ws : List Valuation) (ys zs : List CutAnswer) → IsReplayFile bytes agents vs ys → IsReplayFile bytes agents ws zs → (vs ≡ ws) × (ys ≡ zs) }
    ensures exact { (bytes : List ℕ) (agents : ℕ) → 0 < agents → MatchOption (replay_fault bytes agents) ((vs : List Valuation) × ((ys : List CutAnswer) × IsReplayFile bytes agents vs ys)) (λ e. (vs : List Valuation) (ys : List CutAnswer) → IsReplayFile bytes agents vs ys → ⊥) }
{}
