//! The upgrade of a certificate of version 1: it is checked, and written again in version 2, each line in its short form, but
//! for those of goals that a line before took.
ghost use Rattle.std.specs.Prelude.{◌≡◌, ◌⊎◌, ◌↔◌, ℕ, ℤ, ◌+◌, ◌<◌, ◌≤◌, List, [], length, IfOk, IfErr, IsTrue, OnOk, Some, None, Err};
ghost use Rattle.std.specs.List.{All};
ghost use Rattle.slice_num.specs.Rational.{Fits};
ghost use Rattle.slice_core.specs.Cores.{core_of};
ghost use Rattle.slice_core.specs.Tree.{Core as CoreOf};
ghost use Rattle.slice_linear.specs.Rows.{Refutes};
ghost use Rattle.slice_io.specs.Causes.{Rose};
ghost use Rattle.slice_io.specs.Files.{told_file};
ghost use Rattle.slice_io.specs.Lines.{StandsIn, IsSameReader};
ghost use Rattle.slice_io.specs.Told.{appended};
ghost use Rattle.slice_paths.specs.Events.{Event, NoMore, events_of, next_goal};
ghost use Rattle.slice_paths.specs.Goals.{Goal as GoalOf, goals as goals_of};
ghost use Rattle.slice_paths.specs.Streams.{TellsRest, IsGivenLast};
ghost use Rattle.slice_cert.specs.CertLines.{MayStand, line_text};
ghost use Rattle.slice_cert.specs.declared.line.Line.{Line as LineOf};
ghost use Rattle.slice_cert.specs.declared.line.Line.TheVariants.{Header, Refutation, Closing};
ghost use Rattle.slice_check.specs.Certificate.{AtEnd, AtGoal, SaysLine, line_limit, file_limit};
ghost use Rattle.slice_check.specs.Faults.{IsAnswer};
ghost use Rattle.slice_check.specs.Steps.{IsFresh, IsOther, Reached, ReachedEnd, Stops};
ghost use Rattle.slice_check.specs.Upgrades.{IsMissing, IsOfVersion2, IsUpgraded, LinesStop, UpgradeFails, UpgradeIs, WholeLinesOut};
ghost use Rattle.slice_check.specs.Upgrading.{BeginHalts, CloseHalts, DiffersFirst, GoalHalts, GoalsHalt, HaltsBehind, HasPassed, IsDone, IsMoot, IsPut, IsReadTo, IsShortOut, IsTakenBy, LineHalts, LinesHalt, ReadsBack, RefutesNot, ShortHalts, StopsFirst};
ghost use Rattle.slice_check.specs.Verdicts.{HaveOneWidth, IsVerdict};

use crate::answer::{CertAnswer, CertFault, HeaderField, Rejection, Stop};
use crate::check::{
    FILE_LIMIT, LINE_LIMIT, Taking, check_closing, judge, next_goal, next_line, taking_of,
    version_of,
};
use crate::verdict::Verdict;
use slice_cert::{Line, short_line, write_line};
use slice_core::Core;
use slice_io::{LineReader, Shelf, Sink, put_all};
use slice_num::{Memory, Word};
use slice_paths::laws::{
    covers_are_fronts, goals_have_covers, short_forms_refute, skips_pass_over_those_that_share,
};
use slice_paths::{Goal, GoalStream, SkipFault};
use sqlite_items::Items;
use std::alloc::Global;

/// Why nothing is said of a file that was to be upgraded.
#[derive(Clone, Copy, Debug, PartialEq, Eq)]
pub enum UpgradeFault {
    /// For the same reason the checker says nothing of it.
    Cert(CertFault),
    /// A write failed: the sink's count of faults rose.
    WriteFault,
}

// Why the work ends before the closing line is out.
#[derive(Clone, Copy)]
pub(crate) enum Halt {
    // The checker stops.
    Stopped(Stop),
    // The sink failed.
    WriteFault,
}

// How many goals may be given.
const GOAL_LIMIT: u64 = 1_000_000;

/// Whether the file `name` is a certificate of version 1 of the core, and one of version 2 that says the same.
///
/// It checks the file as `check_certificate` does, and answers as it does; a header of version 2 differs in its version. As
/// soon as the header is accepted, one of version 2 is written; as soon as the line of a goal is, and before the next goal is
/// made, its short form, where no line that was written took the goal yet; and the closing line when the file is accepted.
/// What is written then is a certificate. Where the file is rejected or a refusal comes, the lines so far are out. Whole lines
/// are out in any case, but for a failed write.
///
/// `Cert` comes with the causes of `check_certificate`, with memory for the lines, too; `WriteFault` only where a write
/// failed. It asks for no other file.
pub fn upgrade_certificate<S: Shelf, K: Sink>(
    alloc: Global,
    core: &Core,
    shelf: &mut S,
    name: &str,
    sink: &mut K,
) -> Result<CertAnswer, UpgradeFault>
    requires asked { S.CanAsk shelf.old name.now }
    ensures answer { IfOk result (λ a. (file : List ℕ) → told_file (S.told shelf.old) name.now ≡ Some (Some file) → UpgradeIs (core_of core.now) file (K.told sink.old) (K.told sink.new) a) }
    ensures fault { IfErr result (λ e. (file : List ℕ) → told_file (S.told shelf.old) name.now ≡ Some (Some file) → UpgradeFails (core_of core.now) file (K.told sink.old) (K.told sink.new) e) }
    ensures accepted { IfOk result (λ a. IsUpgraded (core_of core.now) (K.told sink.old) (K.told sink.new) a) }
    ensures lines { IfOk result (λ _. WholeLinesOut (K.told sink.old) (K.told sink.new)) }
    ensures lines_so_far { IfErr result (λ e. LinesStop (K.told sink.old) (K.told sink.new) e) }
    ensures missing { told_file (S.told shelf.old) name.now ≡ Some None → IfErr result (λ e. IsMissing (K.told sink.old) (K.told sink.new) e) × (IfOk result (λ _. ⊥)) }
    ensures read { result ≡ Err (UpgradeFault.Cert CertFault.ReadFault) → Rose (S.faults shelf.old) (S.faults shelf.new) }
    ensures rose { result ≡ Err UpgradeFault.WriteFault → Rose (K.faults sink.old) (K.faults sink.new) }
    ensures same { S.told shelf.new ≡ S.told shelf.old }
    ensures rule { (n : List ℕ) → S.CanAsk shelf.old n ↔ S.CanAsk shelf.new n }
    ensures later { (S.faults shelf.old ≤ S.faults shelf.new) × (K.faults sink.old ≤ K.faults sink.new) }
{
    let Ok(mut lines) = LineReader::new(alloc, name, LINE_LIMIT, FILE_LIMIT) else {
        return Err(UpgradeFault::Cert(CertFault::Memory));
    };
    let Ok(goals) = GoalStream::new(alloc, core) else {
        return Err(UpgradeFault::Cert(CertFault::Memory));
    };
    match upgrade_lines(alloc, core, goals, shelf, &mut lines, sink) {
        Ok(goals) => Ok(CertAnswer::Accepted { goals }),
        Err(Halt::Stopped(Stop::Rejected(rejection))) => Ok(CertAnswer::Rejected(rejection)),
        Err(Halt::Stopped(Stop::Failed(fault))) => Err(UpgradeFault::Cert(fault)),
        Err(Halt::WriteFault) => Err(UpgradeFault::WriteFault),
    }
}

// Reads all lines and writes theirs, and gives the number of goals.
fn upgrade_lines<S: Shelf, K: Sink>(
    alloc: Global,
    core: &Core,
    mut goals: GoalStream<'_>,
    shelf: &mut S,
    lines: &mut LineReader,
    sink: &mut K,
) -> Result<u64, Halt>
    requires asked { S.CanAsk shelf.old lines.old.name }
    requires limits { (lines.old.line_limit ≡ line_limit) × (lines.old.limit ≡ file_limit) }
    requires first { lines.old.given ≡ 0 }
    requires fresh { IsFresh (core_of core.now) goals }
    requires core { goals.core ≡ core.now }
    ensures answer { IfOk result (λ n. (file : List ℕ) → told_file (S.told shelf.old) lines.old.name ≡ Some (Some file) → StandsIn lines.old file
        → UpgradeIs (core_of core.now) file (K.told sink.old) (K.told sink.new) (CertAnswer.Accepted n)) }
    ensures halt { IfErr result (λ h. (file : List ℕ) → told_file (S.told shelf.old) lines.old.name ≡ Some (Some file) → StandsIn lines.old file
        → LinesHalt (core_of core.now) file (K.told sink.old) (K.told sink.new) h) }
    ensures accepted { IfOk result (λ n. IsUpgraded (core_of core.now) (K.told sink.old) (K.told sink.new) (CertAnswer.Accepted n)) }
    ensures lines { OnOk result (WholeLinesOut (K.told sink.old) (K.told sink.new)) }
    ensures lines_so_far { IfErr result (λ h. HaltsBehind (K.told sink.old) (K.told sink.new) h) }
    ensures missing { told_file (S.told shelf.old) lines.old.name ≡ Some None → lines.old.ahead ≡ [] → (result ≡ Err (Halt.Stopped (Stop.Failed CertFault.ReadFault))) × (K.told sink.new ≡ K.told sink.old) }
    ensures read { result ≡ Err (Halt.Stopped (Stop.Failed CertFault.ReadFault)) → Rose (S.faults shelf.old) (S.faults shelf.new) }
    ensures rose { result ≡ Err Halt.WriteFault → Rose (K.faults sink.old) (K.faults sink.new) }
    ensures same { S.told shelf.new ≡ S.told shelf.old }
    ensures rule { (n : List ℕ) → S.CanAsk shelf.old n ↔ S.CanAsk shelf.new n }
    ensures later { S.faults shelf.old ≤ S.faults shelf.new }
    ensures out_later { K.faults sink.old ≤ K.faults sink.new }
{
    if let Err(halt) = begin(alloc, core, shelf, lines, sink) {
        return Err(halt);
    }
    let count = match upgrade_goals(alloc, core, &mut goals, shelf, lines, sink) {
        Err(halt) => return Err(halt),
        Ok(count) => count,
    };
    match close(alloc, count, shelf, lines, sink) {
        Err(halt) => Err(halt),
        Ok(()) => Ok(count),
    }
}

// Reads the header, of version 1, and writes that of version 2.
fn begin<S: Shelf, K: Sink>(
    alloc: Global,
    core: &Core,
    shelf: &mut S,
    lines: &mut LineReader,
    sink: &mut K,
) -> Result<(), Halt>
    requires asked { S.CanAsk shelf.old lines.old.name }
    requires limits { (lines.old.line_limit ≡ line_limit) × (lines.old.limit ≡ file_limit) }
    requires first { lines.old.given ≡ 0 }
    ensures stands { OnOk result ((file : List ℕ) → told_file (S.told shelf.old) lines.old.name ≡ Some (Some file) → StandsIn lines.old file
        → Reached (core_of core.now) file 1 0 (events_of (core_of core.now)) 1 × StandsIn lines.new file) }
    ensures out { OnOk result (K.told sink.new ≡ appended (K.told sink.old) (line_text (Header 2 (core_of core.now).name (core_of core.now).agents))) }
    ensures line { OnOk result (ReadsBack (Header 2 (core_of core.now).name (core_of core.now).agents)) }
    ensures given { OnOk result (lines.new.given ≡ 1) }
    ensures halt { IfErr result (λ h. (file : List ℕ) → told_file (S.told shelf.old) lines.old.name ≡ Some (Some file) → StandsIn lines.old file
        → BeginHalts (core_of core.now) file (K.told sink.old) (K.told sink.new) h) }
    ensures lines_so_far { IfErr result (λ h. HaltsBehind (K.told sink.old) (K.told sink.new) h) }
    ensures missing { told_file (S.told shelf.old) lines.old.name ≡ Some None → lines.old.ahead ≡ [] → (result ≡ Err (Halt.Stopped (Stop.Failed CertFault.ReadFault))) × (K.told sink.new ≡ K.told sink.old) }
    ensures read { result ≡ Err (Halt.Stopped (Stop.Failed CertFault.ReadFault)) → Rose (S.faults shelf.old) (S.faults shelf.new) }
    ensures rose { result ≡ Err Halt.WriteFault → Rose (K.faults sink.old) (K.faults sink.new) }
    ensures keeps { IsSameReader lines.old lines.new }
    ensures same { S.told shelf.new ≡ S.told shelf.old }
    ensures rule { (n : List ℕ) → S.CanAsk shelf.old n ↔ S.CanAsk shelf.new n }
    ensures later { S.faults shelf.old ≤ S.faults shelf.new }
    ensures out_later { K.faults sink.old ≤ K.faults sink.new }
{
    if let Err(stop) = check_first(alloc, core, shelf, lines) {
        return Err(Halt::Stopped(stop));
    }
    put_header(alloc, core, sink)
}

// Reads the header, of version 1.
fn check_first<S: Shelf>(
    alloc: Global,
    core: &Core,
    shelf: &mut S,
    lines: &mut LineReader,
) -> Result<(), Stop>
    requires asked { S.CanAsk shelf.old lines.old.name }
    requires limits { (lines.old.line_limit ≡ line_limit) × (lines.old.limit ≡ file_limit) }
    requires first { lines.old.given ≡ 0 }
    ensures stands { OnOk result ((file : List ℕ) → told_file (S.told shelf.old) lines.old.name ≡ Some (Some file) → StandsIn lines.old file
        → Reached (core_of core.now) file 1 0 (events_of (core_of core.now)) 1 × StandsIn lines.new file) }
    ensures given { OnOk result (lines.new.given ≡ 1) }
    ensures stop { IfErr result (λ s. (file : List ℕ) → told_file (S.told shelf.old) lines.old.name ≡ Some (Some file) → StandsIn lines.old file
        → StopsFirst (core_of core.now) file s) }
    ensures missing { told_file (S.told shelf.old) lines.old.name ≡ Some None → lines.old.ahead ≡ [] → result ≡ Err (Stop.Failed CertFault.ReadFault) }
    ensures read { result ≡ Err (Stop.Failed CertFault.ReadFault) → Rose (S.faults shelf.old) (S.faults shelf.new) }
    ensures keeps { IsSameReader lines.old lines.new }
    ensures same { S.told shelf.new ≡ S.told shelf.old }
    ensures rule { (n : List ℕ) → S.CanAsk shelf.old n ↔ S.CanAsk shelf.new n }
    ensures later { S.faults shelf.old ≤ S.faults shelf.new }
{
    let line = match next_line(alloc, shelf, lines) {
        Err(stop) => return Err(stop),
        Ok(line) => line,
    };
    match first_of(&line, core.name(), core.agents()) {
        Err(field) => Err(Stop::Rejected(Rejection::HeaderDiffers { field })),
        Ok(()) => Ok(()),
    }
}

// The first thing in which the line differs from a header of version 1, if it does.
fn first_of(line: &Line, protocol: &Word, agents: u32) -> Result<(), HeaderField>
    ensures ok { OnOk result (line.now ≡ Line.Header 1 protocol.now agents) }
    ensures differs { IfErr result (λ f. DiffersFirst protocol.now agents line.now f) }
{
    if is_of_version_2(line) {
        return Err(HeaderField::Version);
    }
    match version_of(line, protocol, agents) {
        Err(field) => Err(field),
        Ok(_) => Ok(()),
    }
}

// Whether the line is a header of version 2.
fn is_of_version_2(line: &Line) -> bool
    ensures { IsTrue result ↔ IsOfVersion2 line.now }
{
    match line {
        Line::Header { version, .. } => *version == 2,
        _ => false,
    }
}

// Reads the lines of all goals and writes theirs, and gives how many goals there are.
fn upgrade_goals<S: Shelf, K: Sink>(
    alloc: Global,
    core: &Core,
    goals: &mut GoalStream<'_>,
    shelf: &mut S,
    lines: &mut LineReader,
    sink: &mut K,
) -> Result<u64, Halt>
    requires asked { S.CanAsk shelf.old lines.old.name }
    requires limits { (lines.old.line_limit ≡ line_limit) × (lines.old.limit ≡ file_limit) }
    requires first { (lines.old.given ≡ 1) × (goals.old.given ≡ 0) }
    requires rest { TellsRest goals.old }
    requires core { goals.old.core ≡ core.now }
    ensures put { IfOk result (λ n. (body : List LineOf) × (taken : ℕ) × (n ≡ length (goals_of (core_of core.now))) × IsPut (core_of core.now) (K.told sink.old) (K.told sink.new) n taken body
        × ((file : List ℕ) → told_file (S.told shelf.old) lines.old.name ≡ Some (Some file) → StandsIn lines.old file
        → Reached (core_of core.now) file 1 0 goals.old.ahead 1 → (ahead : List Event) × (next_goal ahead n ≡ NoMore) × IsReadTo (core_of core.now) file n ahead lines.new.given body × StandsIn lines.new file)) }
    ensures given { OnOk result (lines.new.given ≤ 1000001) }
    ensures halt { IfErr result (λ h. (file : List ℕ) → told_file (S.told shelf.old) lines.old.name ≡ Some (Some file) → StandsIn lines.old file
        → Reached (core_of core.now) file 1 0 goals.old.ahead 1 → GoalsHalt (core_of core.now) file (K.told sink.old) (K.told sink.new) h) }
    ensures lines_so_far { IfErr result (λ h. HaltsBehind (K.told sink.old) (K.told sink.new) h) }
    ensures read { result ≡ Err (Halt.Stopped (Stop.Failed CertFault.ReadFault)) → Rose (S.faults shelf.old) (S.faults shelf.new) }
    ensures rose { result ≡ Err Halt.WriteFault → Rose (K.faults sink.old) (K.faults sink.new) }
    ensures keeps { IsSameReader lines.old lines.new }
    ensures same { S.told shelf.new ≡ S.told shelf.old }
    ensures rule { (n : List ℕ) → S.CanAsk shelf.old n ↔ S.CanAsk shelf.new n }
    ensures later { S.faults shelf.old ≤ S.faults shelf.new }
    ensures out_later { K.faults sink.old ≤ K.faults sink.new }
{
    let mut taken = 0;
    loop {
        let goal = match next_goal(goals) {
            Err(stop) => return Err(Halt::Stopped(stop)),
            Ok(None) => return Ok(goals.given()),
            Ok(Some(goal)) => goal,
        };
        taken = match upgrade_goal(alloc, core, &goal, taken, goals, shelf, lines, sink) {
            Err(halt) => return Err(halt),
            Ok(taken) => taken,
        };
    }
}

// Reads the line of the goal that was given last. Written lines took all goals before `taken`; where this one isn't among
// them, the short form of its line is written. Gives up to which goal all are taken then.
fn upgrade_goal<S: Shelf, K: Sink>(
    alloc: Global,
    core: &Core,
    goal: &Goal,
    taken: u64,
    goals: &GoalStream<'_>,
    shelf: &mut S,
    lines: &mut LineReader,
    sink: &mut K,
) -> Result<u64, Halt>
    requires asked { S.CanAsk shelf.old lines.old.name }
    requires limits { (lines.old.line_limit ≡ line_limit) × (lines.old.limit ≡ file_limit) }
    requires few { (lines.old.given < 2000000) × (goal.now.number < 1000000) }
    requires rows { HaveOneWidth goal.now.rows }
    requires rest { TellsRest goals.now }
    requires last { IsGivenLast goals.now goal.now }
    requires core { goals.now.core ≡ core.now }
    ensures done { IfOk result (λ t. (m : List ℤ) × IsVerdict goal.now.rows m Verdict.Yes × IsDone (core_of core.now) goal.now m taken (K.told sink.old) (K.told sink.new) t
        × ((file : List ℕ) → told_file (S.told shelf.old) lines.old.name ≡ Some (Some file) → StandsIn lines.old file
        → SaysLine file lines.old.given (Refutation goal.now.number m) × StandsIn lines.new file)) }
    ensures given { OnOk result (lines.new.given ≡ lines.old.given + 1) }
    ensures halt { IfErr result (λ h. (file : List ℕ) → told_file (S.told shelf.old) lines.old.name ≡ Some (Some file) → StandsIn lines.old file
        → AtGoal (core_of core.now) file 1 goal.now.number lines.old.given goal.now → GoalHalts (core_of core.now) goal.now taken (K.told sink.old) (K.told sink.new) h file lines.old.given) }
    ensures lines_so_far { IfErr result (λ h. HaltsBehind (K.told sink.old) (K.told sink.new) h) }
    ensures read { result ≡ Err (Halt.Stopped (Stop.Failed CertFault.ReadFault)) → Rose (S.faults shelf.old) (S.faults shelf.new) }
    ensures rose { result ≡ Err Halt.WriteFault → Rose (K.faults sink.old) (K.faults sink.new) }
    ensures keeps { IsSameReader lines.old lines.new }
    ensures same { S.told shelf.new ≡ S.told shelf.old }
    ensures rule { (n : List ℕ) → S.CanAsk shelf.old n ↔ S.CanAsk shelf.new n }
    ensures later { S.faults shelf.old ≤ S.faults shelf.new }
    ensures out_later { K.faults sink.old ≤ K.faults sink.new }
{
    let multipliers = match plain_line(alloc, goal, shelf, lines) {
        Err(stop) => return Err(Halt::Stopped(stop)),
        Ok(multipliers) => multipliers,
    };
    if goal.number() < taken {
        return Ok(taken);
    }
    put_short(alloc, core, goal, multipliers.as_slice(), goals, sink)
}

// Reads the line of the goal that was given last, which takes this goal alone, and gives its multipliers, which refute it.
fn plain_line<S: Shelf>(
    alloc: Global,
    goal: &Goal,
    shelf: &mut S,
    lines: &mut LineReader,
) -> Result<Items<i128>, Stop>
    requires asked { S.CanAsk shelf.old lines.old.name }
    requires limits { (lines.old.line_limit ≡ line_limit) × (lines.old.limit ≡ file_limit) }
    requires few { lines.old.given < 2000000 }
    requires rows { HaveOneWidth goal.now.rows }
    ensures line { IfOk result (λ m. (file : List ℕ) → told_file (S.told shelf.old) lines.old.name ≡ Some (Some file) → StandsIn lines.old file
        → SaysLine file lines.old.given (Refutation goal.now.number m) × StandsIn lines.new file) }
    ensures yes { IfOk result (λ m. IsVerdict goal.now.rows m Verdict.Yes) }
    ensures fits { IfOk result (λ m. All Fits m) }
    ensures given { OnOk result (lines.new.given ≡ lines.old.given + 1) }
    ensures stop { IfErr result (λ s. (core : CoreOf) (file : List ℕ) → told_file (S.told shelf.old) lines.old.name ≡ Some (Some file) → StandsIn lines.old file
        → AtGoal core file 1 goal.now.number lines.old.given goal.now → Stops core file s × (IsMoot s ⊎ RefutesNot file lines.old.given goal.now)) }
    ensures read { result ≡ Err (Stop.Failed CertFault.ReadFault) → Rose (S.faults shelf.old) (S.faults shelf.new) }
    ensures keeps { IsSameReader lines.old lines.new }
    ensures same { S.told shelf.new ≡ S.told shelf.old }
    ensures rule { (n : List ℕ) → S.CanAsk shelf.old n ↔ S.CanAsk shelf.new n }
    ensures later { S.faults shelf.old ≤ S.faults shelf.new }
{
    let line = match next_line(alloc, shelf, lines) {
        Err(stop) => return Err(stop),
        Ok(line) => line,
    };
    let multipliers = match multipliers_of(line, goal.number(), lines.given()) {
        Err(stop) => return Err(stop),
        Ok(multipliers) => multipliers,
    };
    match judge(goal.rows(), goal.number(), multipliers.as_slice()) {
        Err(stop) => Err(stop),
        Ok(()) => Ok(multipliers),
    }
}

// The multipliers of the line, which is the one numbered `at`, where that goal comes next in version 1.
fn multipliers_of(line: Line, goal: u64, at: u64) -> Result<Items<i128>, Stop>
    ensures ok { IfOk result (λ m. line ≡ Line.Refutation goal m) }
    ensures stop { IfErr result (λ s. IsOther line 1 goal at s) }
{
    match taking_of(line, 1, goal, at) {
        Err(stop) => Err(stop),
        Ok(Taking::Goal(multipliers)) => Ok(multipliers),
        // Version 1 has no cover lines.
        Ok(Taking::Front(_, _)) => unreachable!(),
    }
}

// Writes the short form of the line with these multipliers for the goal that was given last, and gives up to which goal all
// are taken then.
fn put_short<K: Sink>(
    alloc: Global,
    core: &Core,
    goal: &Goal,
    multipliers: &[i128],
    goals: &GoalStream<'_>,
    sink: &mut K,
) -> Result<u64, Halt>
    requires rest { TellsRest goals.now }
    requires last { IsGivenLast goals.now goal.now }
    requires core { goals.now.core ≡ core.now }
    requires few { goal.now.number < 1000000 }
    requires refuted { Refutes goal.now.rows multipliers.now }
    requires fits { All Fits multipliers.now }
    ensures out { IfOk result (λ t. IsShortOut (core_of core.now) goal.now multipliers.now (K.told sink.old) (K.told sink.new) t) }
    ensures halts { IfErr result (λ h. ShortHalts (core_of core.now) goal.now multipliers.now (K.told sink.old) (K.told sink.new) h) }
    ensures read { result ≡ Err (Halt.Stopped (Stop.Failed CertFault.ReadFault)) → ⊥ }
    ensures rose { result ≡ Err Halt.WriteFault → Rose (K.faults sink.old) (K.faults sink.new) }
    ensures out_later { K.faults sink.old ≤ K.faults sink.new }
{
    covers_are_fronts();
    goals_have_covers();
    short_forms_refute();
    skips_pass_over_those_that_share();
    let Ok(kept) = Vec::from_slice(alloc, multipliers) else {
        return Err(Halt::Stopped(Stop::Failed(CertFault::Memory)));
    };
    let line = short_line(core.agents(), goal.number(), kept);
    match put_line(alloc, &line, sink) {
        Err(halt) => Err(halt),
        Ok(()) => taken_by(&line, goals),
    }
}

// Up to which goal all are taken by a line for the goal that was given last. Those past the limit are never given, so they
// needn't be counted.
fn taken_by(line: &Line, goals: &GoalStream<'_>) -> Result<u64, Halt>
    requires rest { TellsRest goals.now }
    requires last { (g : GoalOf) × IsGivenLast goals.now g }
    requires has { HasPassed goals.now line.now }
    ensures taken { IfOk result (λ t. IsTakenBy goals.now line.now t) }
    ensures halts { IfErr result (λ h. h ≡ Halt.Stopped (Stop.Failed CertFault.Memory)) }
{
    let Line::Cover { passed, .. } = line else {
        return Ok(goals.given());
    };
    match goals.sharing(*passed) {
        Ok(count) => Ok(goals.given() + count),
        Err(SkipFault::GoalLimit) => Ok(GOAL_LIMIT),
        Err(SkipFault::Memory) => Err(Halt::Stopped(Stop::Failed(CertFault::Memory))),
    }
}

// Reads the closing line, after which nothing may come, and writes it.
fn close<S: Shelf, K: Sink>(
    alloc: Global,
    count: u64,
    shelf: &mut S,
    lines: &mut LineReader,
    sink: &mut K,
) -> Result<(), Halt>
    requires asked { S.CanAsk shelf.old lines.old.name }
    requires limits { (lines.old.line_limit ≡ line_limit) × (lines.old.limit ≡ file_limit) }
    requires few { lines.old.given < 1500000 }
    ensures accepts { OnOk result ((core : CoreOf) (file : List ℕ) → told_file (S.told shelf.old) lines.old.name ≡ Some (Some file) → StandsIn lines.old file
        → ReachedEnd core file count lines.old.given → IsAnswer core file (CertAnswer.Accepted count)) }
    ensures out { OnOk result (K.told sink.new ≡ appended (K.told sink.old) (line_text (Closing count))) }
    ensures line { OnOk result (ReadsBack (Closing count)) }
    ensures halt { IfErr result (λ h. (core : CoreOf) (file : List ℕ) → told_file (S.told shelf.old) lines.old.name ≡ Some (Some file) → StandsIn lines.old file
        → AtEnd core file count lines.old.given → CloseHalts core file count (K.told sink.old) (K.told sink.new) h) }
    ensures written { result ≡ Err Halt.WriteFault → (core : CoreOf) (file : List ℕ) → told_file (S.told shelf.old) lines.old.name ≡ Some (Some file) → StandsIn lines.old file
        → ReachedEnd core file count lines.old.given → IsAnswer core file (CertAnswer.Accepted count) }
    ensures lines_so_far { IfErr result (λ h. HaltsBehind (K.told sink.old) (K.told sink.new) h) }
    ensures read { result ≡ Err (Halt.Stopped (Stop.Failed CertFault.ReadFault)) → Rose (S.faults shelf.old) (S.faults shelf.new) }
    ensures rose { result ≡ Err Halt.WriteFault → Rose (K.faults sink.old) (K.faults sink.new) }
    ensures same { S.told shelf.new ≡ S.told shelf.old }
    ensures rule { (n : List ℕ) → S.CanAsk shelf.old n ↔ S.CanAsk shelf.new n }
    ensures later { S.faults shelf.old ≤ S.faults shelf.new }
    ensures out_later { K.faults sink.old ≤ K.faults sink.new }
{
    if let Err(stop) = check_closing(alloc, count, shelf, lines) {
        return Err(Halt::Stopped(stop));
    }
    put_line(alloc, &Line::Closing { goals: count }, sink)
}

// Writes the header of version 2.
fn put_header<K: Sink>(alloc: Global, core: &Core, sink: &mut K) -> Result<(), Halt>
    ensures out { OnOk result (K.told sink.new ≡ appended (K.told sink.old) (line_text (Header 2 (core_of core.now).name (core_of core.now).agents))) }
    ensures line { OnOk result (ReadsBack (Header 2 (core_of core.now).name (core_of core.now).agents)) }
    ensures halts { IfErr result (λ h. LineHalts (K.told sink.old) (K.told sink.new) (line_text (Header 2 (core_of core.now).name (core_of core.now).agents)) h) }
    ensures read { result ≡ Err (Halt.Stopped (Stop.Failed CertFault.ReadFault)) → ⊥ }
    ensures rose { result ≡ Err Halt.WriteFault → Rose (K.faults sink.old) (K.faults sink.new) }
    ensures out_later { K.faults sink.old ≤ K.faults sink.new }
{
    let agents = core.agents();
    let Ok(protocol) = Word::new(alloc, core.name().bytes()) else {
        return Err(Halt::Stopped(Stop::Failed(CertFault::Memory)));
    };
    let line = Line::Header {
        version: 2,
        protocol,
        agents,
    };
    put_line(alloc, &line, sink)
}

// Writes a line.
fn put_line<K: Sink>(alloc: Global, line: &Line, sink: &mut K) -> Result<(), Halt>
    requires may { MayStand line.now }
    ensures out { OnOk result (K.told sink.new ≡ appended (K.told sink.old) (line_text line.now)) }
    ensures line { OnOk result (ReadsBack line.now) }
    ensures halts { IfErr result (λ h. LineHalts (K.told sink.old) (K.told sink.new) (line_text line.now) h) }
    ensures read { result ≡ Err (Halt.Stopped (Stop.Failed CertFault.ReadFault)) → ⊥ }
    ensures rose { result ≡ Err Halt.WriteFault → Rose (K.faults sink.old) (K.faults sink.new) }
    ensures out_later { K.faults sink.old ≤ K.faults sink.new }
{
    let bytes = match write_line(alloc, line) {
        Err(Memory) => return Err(Halt::Stopped(Stop::Failed(CertFault::Memory))),
        Ok(bytes) => bytes,
    };
    match put_all(sink, bytes.as_slice()) {
        Ok(()) => Ok(()),
        Err(_) => Err(Halt::WriteFault),
    }
}
