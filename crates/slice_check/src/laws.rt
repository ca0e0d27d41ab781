//! Laws of the definitions that contracts cite. Each function does nothing: its clause is the law.
ghost use Rattle.std.specs.Prelude.{◌≡◌, ℕ, ℤ, List, [], Some};
ghost use Rattle.std.specs.List.{All};
ghost use Rattle.slice_num.specs.declared.cut_answer.CutAnswer.{CutAnswer};
ghost use Rattle.slice_core.specs.Agents.{HasAgents};
ghost use Rattle.slice_core.specs.Division.{IsFair};
ghost use Rattle.slice_core.specs.Measures.{AreMeasures};
ghost use Rattle.slice_core.specs.Run.{Worth, run_core};
ghost use Rattle.slice_core.specs.Tree.{Core};
ghost use Rattle.slice_linear.specs.Rows.{LinearRow};
ghost use Rattle.slice_paths.specs.Goals.{goals};
ghost use Rattle.slice_paths.specs.RunLaws.{IsRefuted};
ghost use Rattle.slice_check.specs.Verdicts.{IsVerdict};
ghost use Rattle.slice_check.specs.declared.verdict.Verdict.{Verdict};
ghost use Rattle.slice_check.specs.declared.answer.CertAnswer.{CertAnswer};
ghost use Rattle.slice_check.specs.declared.answer.CertFault.{CertFault};
ghost use Rattle.slice_check.specs.declared.answer.Rejection.{Rejection};
ghost use Rattle.slice_check.specs.Certificate.{Accepts};
ghost use Rattle.slice_check.specs.Faults.{Fails, IsAnswer, IsUnread, Rejects};
ghost use Rattle.slice_check.specs.Upgrades.{UpgradeFails, UpgradeIs};
ghost use Rattle.slice_check.specs.declared.upgrade.UpgradeFault.TheVariants.{Cert};

/// A file with which something is wrong is no certificate.
pub fn rejected_is_no_certificate()
    ensures { (core : Core) (file : List ℕ) (r : Rejection) → Rejects core file r → Accepts core file → ⊥ }
{}

/// Where a file is a certificate, each goal's rows have no solution, or those after a front of its choices have none.
pub fn certified_goals_are_refuted()
    ensures { (core : Core) (file : List ℕ) → Accepts core file → All (IsRefuted core) (goals core) }
{}

/// So each run of a core that has a certificate is fair: it isn't stuck, and if it is done, it leaves no envy.
pub fn certified_cores_are_fair()
    ensures { (core : Core) (file : List ℕ) → HasAgents core.agents core.tree → Accepts core file
        → (w : Worth) (length_ : ℕ) (ys : List CutAnswer) → AreMeasures core.agents length_ w → IsFair core.agents w (run_core w core length_ ys) }
{}

/// Of rows and multipliers one verdict holds at most.
pub fn verdicts_exclude_one_another()
    ensures { (rows : List LinearRow) (m : List ℤ) (v w : Verdict) → IsVerdict rows m v → IsVerdict rows m w → v ≡ w }
{}

/// What is said of a file is one thing: one answer, one rejection, or one fault, want of memory and failed reads aside.
pub fn one_thing_is_said_of_a_file()
    ensures rejections { (core : Core) (file : List ℕ) (r s : Rejection) → Rejects core file r → Rejects core file s → r ≡ s }
    ensures answers { (core : Core) (file : List ℕ) (a b : CertAnswer) → IsAnswer core file a → IsAnswer core file b → a ≡ b }
    ensures faults { (core : Core) (file : List ℕ) (f g : CertFault) → (IsUnread f → ⊥) → (IsUnread g → ⊥) → Fails core file f → Fails core file g → f ≡ g }
    ensures either { (core : Core) (file : List ℕ) (a : CertAnswer) (f : CertFault) → IsAnswer core file a → Fails core file f → IsUnread f }
{}

/// What is written of a file by the upgrade, and answered, is one: one answer with one text, or one fault with one, want of memory
/// and failed reads and writes aside.
pub fn one_thing_is_written_of_a_file()
    ensures answers { (core : Core) (file : List ℕ) (a b : CertAnswer) (xs ys : List ℕ) → UpgradeIs core file (Some []) (Some xs) a → UpgradeIs core file (Some []) (Some ys) b → (a ≡ b) × (xs ≡ ys) }
    ensures faults { (core : Core) (file : List ℕ) (f g : CertFault) (xs ys : List ℕ) → (IsUnread f → ⊥) → (IsUnread g → ⊥)
        → UpgradeFails core file (Some []) (Some xs) (Cert f) → UpgradeFails core file (Some []) (Some ys) (Cert g) → (f ≡ g) × (xs ≡ ys) }
    ensures either { (core : Core) (file : List ℕ) (a : CertAnswer) (f : CertFault) (xs ys : List ℕ) → UpgradeIs core file (Some []) (Some xs) a → UpgradeFails core file (Some []) (Some ys) (Cert f) → IsUnread f }
{}
