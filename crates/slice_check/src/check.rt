//! The checker: it reads a line at a time, and holds one line and one goal.
ghost use Rattle.std.specs.Prelude.{◌≡◌, ◌≢◌, ◌⊎◌, ◌↔◌, ℕ, ◌+◌, ◌<◌, ◌≤◌, List, [], IfOk, IfErr, IsErr, IsTrue, OnOk, MatchOption, None, Some, Ok, Err};
ghost use Rattle.slice_core.specs.Cores.{core_of};
ghost use Rattle.slice_core.specs.Tree.{Core as CoreOf};
ghost use Rattle.slice_io.specs.Causes.{Rose};
ghost use Rattle.slice_io.specs.Files.{told_file};
ghost use Rattle.slice_io.specs.Lines.{StandsIn, IsSameReader, rest_from};
ghost use Rattle.slice_paths.specs.Events.{Event, Gives, NoMore, events_of, next_goal};
ghost use Rattle.slice_paths.specs.Fronts.{front_of};
ghost use Rattle.slice_paths.specs.Streams.{TellsRest, IsGivenLast};
ghost use Rattle.slice_cert.specs.CertLines.{MayStand};
ghost use Rattle.slice_cert.specs.declared.line.Line.{Line as LineOf};
ghost use Rattle.slice_check.specs.Upgrading.{IsMoot};
ghost use Rattle.slice_check.specs.Verdicts.{HaveOneWidth, IsVerdict};
ghost use Rattle.slice_check.specs.Certificate.{IsVersion, SaysLine, IsRead, AtGoal, AtEnd, IsClosed, line_limit, file_limit};
ghost use Rattle.slice_check.specs.Faults.{Fails, HeaderDiffers, IsAnswer, IsUnread};
ghost use Rattle.slice_check.specs.Steps.{Reached, ReachedEnd, WentOn, IsFresh, IsNext, IsPassedOver, IsCovered, IsGoalStop, IsNoTotal, IsOther, IsTaking, IsPassStop, IsCoverStop, Stops, end_stop_of, stop_for, stop_of};

use crate::answer::{CertAnswer, CertFault, HeaderField, Rejection, Stop};
use crate::verdict::{Verdict, refutes};
use slice_cert::{Line, ReadLineFault, read_line};
use slice_core::Core;
use slice_io::{LineFault, LineReader, Shelf};
use slice_linear::Row;
use slice_num::{Memory, Word};
use slice_paths::laws::{covers_are_fronts, rows_are_over_the_unknowns, streams_give_goals};
use slice_paths::{Goal, GoalFault, GoalStream, SkipFault};
use sqlite_items::Items;
use std::alloc::Global;

// How many bytes a line may have without its LF.
pub(crate) const LINE_LIMIT: u64 = 1_048_576;

// How many bytes a file may have.
pub(crate) const FILE_LIMIT: u64 = 268_435_456;

// The next line.
pub(crate) fn next_line<S: Shelf>(
    alloc: Global,
    shelf: &mut S,
    lines: &mut LineReader,
) -> Result<Line, Stop>
    requires asked { S.CanAsk shelf.old lines.old.name }
    requires limits { (lines.old.line_limit ≡ line_limit) × (lines.old.limit ≡ file_limit) }
    requires few { lines.old.given < 2000000 }
    ensures line { IfOk result (λ l. (file : List ℕ) → told_file (S.told shelf.old) lines.old.name ≡ Some (Some file) → StandsIn lines.old file
        → SaysLine file lines.old.given l × StandsIn lines.new file) }
    ensures given { OnOk result (lines.new.given ≡ lines.old.given + 1) }
    ensures stop { IfErr result (λ s. (core : CoreOf) (file : List ℕ) → told_file (S.told shelf.old) lines.old.name ≡ Some (Some file) → StandsIn lines.old file
        → IsRead core file lines.old.given → Stops core file s) }
    ensures may { IfOk result (λ l. MayStand l) }
    ensures none { IfErr result (λ s. (file : List ℕ) → told_file (S.told shelf.old) lines.old.name ≡ Some (Some file) → StandsIn lines.old file
        → IsMoot s ⊎ ((l : LineOf) → SaysLine file lines.old.given l → ⊥)) }
    ensures missing { told_file (S.told shelf.old) lines.old.name ≡ Some None → lines.old.ahead ≡ [] → result ≡ Err (Stop.Failed CertFault.ReadFault) }
    ensures read { result ≡ Err (Stop.Failed CertFault.ReadFault) → Rose (S.faults shelf.old) (S.faults shelf.new) }
    ensures keeps { IsSameReader lines.old lines.new }
    ensures same { S.told shelf.new ≡ S.told shelf.old }
    ensures rule { (n : List ℕ) → S.CanAsk shelf.old n ↔ S.CanAsk shelf.new n }
    ensures later { S.faults shelf.old ≤ S.faults shelf.new }
{
    match lines.advance(shelf) {
        Ok(true) => match read_line(alloc, lines.line()) {
            Ok(line) => Ok(line),
            Err(ReadLineFault::BadLine) => Err(Stop::Rejected(Rejection::BadLine {
                line: lines.given(),
            })),
            Err(ReadLineFault::Memory) => Err(Stop::Failed(CertFault::Memory)),
        },
        Ok(false) => Err(Stop::Rejected(Rejection::NotClosed)),
        Err(fault) => Err(stop_of(fault)),
    }
}

// What the fault of a line means for the certificate.
fn stop_of(fault: LineFault) -> Stop
    ensures { result ≡ stop_of fault }
{
    match fault {
        LineFault::ReadFault => Stop::Failed(CertFault::ReadFault),
        LineFault::LineTooLong { line } => Stop::Rejected(Rejection::LineTooLong { line }),
        LineFault::TooLong => Stop::Failed(CertFault::TooLong),
        LineFault::Memory => Stop::Failed(CertFault::Memory),
    }
}

// Reads the header, and gives its version.
fn check_header<S: Shelf>(
    alloc: Global,
    core: &Core,
    shelf: &mut S,
    lines: &mut LineReader,
) -> Result<u32, Stop>
    requires asked { S.CanAsk shelf.old lines.old.name }
    requires limits { (lines.old.line_limit ≡ line_limit) × (lines.old.limit ≡ file_limit) }
    requires first { lines.old.given ≡ 0 }
    ensures stands { IfOk result (λ v. (file : List ℕ) → told_file (S.told shelf.old) lines.old.name ≡ Some (Some file) → StandsIn lines.old file
        → Reached (core_of core.now) file v 0 (events_of (core_of core.now)) 1 × StandsIn lines.new file) }
    ensures given { OnOk result (lines.new.given ≡ 1) }
    ensures stop { IfErr result (λ s. (file : List ℕ) → told_file (S.told shelf.old) lines.old.name ≡ Some (Some file) → StandsIn lines.old file
        → Stops (core_of core.now) file s) }
    ensures missing { told_file (S.told shelf.old) lines.old.name ≡ Some None → lines.old.ahead ≡ [] → result ≡ Err (Stop.Failed CertFault.ReadFault) }
    ensures read { result ≡ Err (Stop.Failed CertFault.ReadFault) → Rose (S.faults shelf.old) (S.faults shelf.new) }
    ensures keeps { IsSameReader lines.old lines.new }
    ensures same { S.told shelf.new ≡ S.told shelf.old }
    ensures rule { (n : List ℕ) → S.CanAsk shelf.old n ↔ S.CanAsk shelf.new n }
    ensures later { S.faults shelf.old ≤ S.faults shelf.new }
{
    let line = next_line(alloc, shelf, lines)?;
    match version_of(&line, core.name(), core.agents()) {
        Err(field) => Err(Stop::Rejected(Rejection::HeaderDiffers { field })),
        Ok(version) => Ok(version),
    }
}

// The version of the header that the line is, or the first thing in which it differs.
pub(crate) fn version_of(line: &Line, protocol: &Word, agents: u32) -> Result<u32, HeaderField>
    ensures ok { IfOk result (λ v. IsVersion v × (line.now ≡ Line.Header v protocol.now agents)) }
    ensures differs { IfErr result (λ f. HeaderDiffers protocol.now agents line.now f) }
{
    let Line::Header {
        version,
        protocol: name,
        agents: count,
    } = line
    else {
        return Err(HeaderField::Kind);
    };
    if !is_version(*version) {
        return Err(HeaderField::Version);
    }
    if name.bytes() != protocol.bytes() {
        return Err(HeaderField::Protocol);
    }
    if *count != agents {
        return Err(HeaderField::Agents);
    }
    Ok(*version)
}

// Whether there are certificates of that version.
fn is_version(version: u32) -> bool
    ensures { IsTrue result ↔ IsVersion version }
{
    version == 1 || version == 2
}

// What a line takes.
#[derive(Drop)]
pub(crate) enum Taking {
    // The next goal.
    Goal(Items<i128>),
    // All goals that follow its first so many passed choices.
    Front(u32, Items<i128>),
}

// Reads the line of the goal that was given last. Where it covers goals, those are passed over.
fn check_goal<S: Shelf>(
    alloc: Global,
    version: u32,
    goal: &Goal,
    goals: &mut GoalStream<'_>,
    shelf: &mut S,
    lines: &mut LineReader,
) -> Result<(), Stop>
    requires asked { S.CanAsk shelf.old lines.old.name }
    requires limits { (lines.old.line_limit ≡ line_limit) × (lines.old.limit ≡ file_limit) }
    requires few { (lines.old.given < 2000000) × (goal.now.number < 1000000) }
    requires rows { HaveOneWidth goal.now.rows }
    requires rest { TellsRest goals.old }
    requires last { IsGivenLast goals.old goal.now }
    ensures stands { OnOk result ((file : List ℕ) (ahead : List Event) → told_file (S.told shelf.old) lines.old.name ≡ Some (Some file) → StandsIn lines.old file
        → Reached (core_of goals.old.core) file version goal.now.number ahead lines.old.given → next_goal ahead goal.now.number ≡ Gives goal.now goals.old.ahead
        → Reached (core_of goals.old.core) file version goals.new.given goals.new.ahead (lines.old.given + 1) × StandsIn lines.new file) }
    ensures given { OnOk result (lines.new.given ≡ lines.old.given + 1) }
    ensures went { OnOk result (WentOn goals.old goals.new) }
    ensures stop { IfErr result (λ s. (file : List ℕ) → told_file (S.told shelf.old) lines.old.name ≡ Some (Some file) → StandsIn lines.old file
        → AtGoal (core_of goals.old.core) file version goal.now.number lines.old.given goal.now → Stops (core_of goals.old.core) file s) }
    ensures read { result ≡ Err (Stop.Failed CertFault.ReadFault) → Rose (S.faults shelf.old) (S.faults shelf.new) }
    ensures keeps { IsSameReader lines.old lines.new }
    ensures same { S.told shelf.new ≡ S.told shelf.old }
    ensures rule { (n : List ℕ) → S.CanAsk shelf.old n ↔ S.CanAsk shelf.new n }
    ensures later { S.faults shelf.old ≤ S.faults shelf.new }
{
    let line = next_line(alloc, shelf, lines)?;
    let taking = taking_of(line, version, goal.number(), lines.given())?;
    match taking {
        Taking::Goal(multipliers) => judge(goal.rows(), goal.number(), multipliers.as_slice()),
        Taking::Front(passed, multipliers) => {
            check_cover(goal, passed, multipliers.as_slice(), goals)
        }
    }
}

// What the line, which is the one numbered `at`, takes where that goal comes next.
pub(crate) fn taking_of(line: Line, version: u32, goal: u64, at: u64) -> Result<Taking, Stop>
    ensures ok { IfOk result (λ t. IsTaking line version goal t) }
    ensures stop { IfErr result (λ s. IsOther line version goal at s) }
{
    match line {
        Line::Refutation {
            goal: number,
            multipliers,
        } if number == goal => Ok(Taking::Goal(multipliers)),
        Line::Cover { .. } if version != 2 => Err(Stop::Rejected(Rejection::BadLine { line: at })),
        Line::Cover {
            goal: number,
            passed,
            multipliers,
        } if number == goal => Ok(Taking::Front(passed, multipliers)),
        Line::Closing { .. } => Err(Stop::Rejected(Rejection::Missing { goal })),
        _ => Err(Stop::Rejected(Rejection::GoalOrder { line: at })),
    }
}

// Whether the multipliers refute the rows behind the first so many passed choices of the goal, which was given last. All
// goals that follow these are passed over.
fn check_cover(
    goal: &Goal,
    passed: u32,
    multipliers: &[i128],
    goals: &mut GoalStream<'_>,
) -> Result<(), Stop>
    requires rest { TellsRest goals.old }
    requires last { IsGivenLast goals.old goal.now }
    ensures ok { OnOk result (IsCovered goals.old goal.now passed multipliers.now goals.new × WentOn goals.old goals.new) }
    ensures stop { IfErr result (λ s. IsCoverStop (core_of goals.old.core) goal.now passed multipliers.now s) }
    ensures kind { IfErr result (λ s. s ≢ Stop.Failed CertFault.ReadFault) }
{
    covers_are_fronts();
    match goals.cover(passed) {
        Err(Memory) => Err(Stop::Failed(CertFault::Memory)),
        Ok(None) => Err(Stop::Rejected(Rejection::Length {
            goal: goal.number(),
        })),
        Ok(Some(rows)) => {
            judge(rows.as_slice(), goal.number(), multipliers)?;
            pass_over(goal, passed, goals)
        }
    }
}

// Passes over all that follows the first so many passed choices of the goal, which was given last.
fn pass_over(goal: &Goal, passed: u32, goals: &mut GoalStream<'_>) -> Result<(), Stop>
    requires rest { TellsRest goals.old }
    requires last { IsGivenLast goals.old goal.now }
    requires has { front_of passed (core_of goals.old.core).tree goals.old.last ≡ None → ⊥ }
    ensures ok { OnOk result (IsPassedOver goals.old goal.now passed goals.new) }
    ensures went { OnOk result (WentOn goals.old goals.new) }
    ensures stop { IfErr result (λ s. IsPassStop (core_of goals.old.core) goal.now passed s) }
{
    match goals.skip(passed) {
        Ok(_) => Ok(()),
        Err(SkipFault::GoalLimit) => Err(Stop::Failed(CertFault::GoalLimit)),
        Err(SkipFault::Memory) => Err(Stop::Failed(CertFault::Memory)),
    }
}

// Whether the multipliers refute the rows of that goal, or those on the way to it.
pub(crate) fn judge(rows: &[Row], goal: u64, multipliers: &[i128]) -> Result<(), Stop>
    requires rows { HaveOneWidth rows.now }
    ensures ok { OnOk result (IsVerdict rows.now multipliers.now Verdict.Yes) }
    ensures stop { IfErr result (λ s. (v : Verdict) × (stop_for goal v ≡ Some s) × IsVerdict rows.now multipliers.now v) }
{
    let verdict = refutes(rows, multipliers);
    match stop_for(goal, verdict) {
        Some(stop) => Err(stop),
        None => Ok(()),
    }
}

// What a verdict on a goal's multipliers means for the certificate.
fn stop_for(goal: u64, verdict: Verdict) -> Option<Stop>
    ensures { result ≡ stop_for goal verdict }
{
    let rejection = match verdict {
        Verdict::Yes => return None,
        Verdict::Length => Rejection::Length { goal },
        Verdict::Sign { row } => Rejection::Sign { goal, row },
        Verdict::Sum { unknown } => Rejection::Sum { goal, unknown },
        Verdict::NoStrict => Rejection::NoStrict { goal },
        Verdict::Overflow { unknown } => {
            return Some(Stop::Failed(CertFault::Overflow { goal, unknown }));
        }
    };
    Some(Stop::Rejected(rejection))
}

/// Whether the file `name` is a certificate of the core: that every run of it is done and leaves no envy.
///
/// It reads the file a line at a time and makes the goals one at a time, each before its line is read. The file is accepted
/// exactly where its lines, each of at most 1,048,576 bytes, are a header of version 1 or 2 with the core's name and number
/// of agents, lines that take the goals in order, each once, and a closing line with the count of goals, unless one of the
/// faults comes first. A line takes one goal: it has the goal's number and multipliers that refute its rows. In version 2 a
/// line may take more: it has the number of the next goal, how many choices are passed, and multipliers that refute the rows
/// behind the goal's first so many; it takes this goal and all later ones with the same, whose rows aren't made. Otherwise
/// the first thing that is wrong is told: a line that isn't there, is too long or can't be read, then what it says, then its
/// multipliers in the order of `refutes`; where a goal has fewer passed choices, their number is wrong.
///
/// `ReadFault` comes only where a read failed. `TooLong` comes exactly where a line that is read goes past the file's
/// first 268,435,456 bytes. `GoalLimit` comes exactly where a 1,000,001st goal is reached, also among those that a line
/// takes, and `FormOverflow`, with the count of goals before it, exactly where a number of a form or a row doesn't fit on the
/// way to the next goal that no line took. `Overflow` comes exactly where `refutes` says so of a goal's line. `Memory` comes
/// where memory runs out. It asks for no other file.
pub fn check_certificate<S: Shelf>(
    alloc: Global,
    core: &Core,
    shelf: &mut S,
    name: &str,
) -> Result<CertAnswer, CertFault>
    requires asked { S.CanAsk shelf.old name.now }
    ensures answer { IfOk result (λ a. (file : List ℕ) → told_file (S.told shelf.old) name.now ≡ Some (Some file) → IsAnswer (core_of core.now) file a) }
    ensures fault { IfErr result (λ e. (file : List ℕ) → told_file (S.told shelf.old) name.now ≡ Some (Some file) → Fails (core_of core.now) file e) }
    ensures missing { told_file (S.told shelf.old) name.now ≡ Some None → IsErr result }
    ensures unread { told_file (S.told shelf.old) name.now ≡ Some None → IfErr result IsUnread }
    ensures read { result ≡ Err CertFault.ReadFault → Rose (S.faults shelf.old) (S.faults shelf.new) }
    ensures same { S.told shelf.new ≡ S.told shelf.old }
    ensures rule { (n : List ℕ) → S.CanAsk shelf.old n ↔ S.CanAsk shelf.new n }
    ensures later { S.faults shelf.old ≤ S.faults shelf.new }
{
    let Ok(mut lines) = LineReader::new(alloc, name, LINE_LIMIT, FILE_LIMIT) else {
        return Err(CertFault::Memory);
    };
    let Ok(goals) = GoalStream::new(alloc, core) else {
        return Err(CertFault::Memory);
    };
    match check_lines(alloc, core, goals, shelf, &mut lines) {
        Ok(goals) => Ok(CertAnswer::Accepted { goals }),
        Err(Stop::Rejected(rejection)) => Ok(CertAnswer::Rejected(rejection)),
        Err(Stop::Failed(fault)) => Err(fault),
    }
}

// Reads all lines, and gives the number of goals.
fn check_lines<S: Shelf>(
    alloc: Global,
    core: &Core,
    mut goals: GoalStream<'_>,
    shelf: &mut S,
    lines: &mut LineReader,
) -> Result<u64, Stop>
    requires asked { S.CanAsk shelf.old lines.old.name }
    requires limits { (lines.old.line_limit ≡ line_limit) × (lines.old.limit ≡ file_limit) }
    requires first { lines.old.given ≡ 0 }
    requires fresh { IsFresh (core_of core.now) goals }
    ensures accepts { IfOk result (λ n. (file : List ℕ) → told_file (S.told shelf.old) lines.old.name ≡ Some (Some file) → StandsIn lines.old file
        → IsAnswer (core_of core.now) file (CertAnswer.Accepted n)) }
    ensures stop { IfErr result (λ s. (file : List ℕ) → told_file (S.told shelf.old) lines.old.name ≡ Some (Some file) → StandsIn lines.old file
        → Stops (core_of core.now) file s) }
    ensures missing { told_file (S.told shelf.old) lines.old.name ≡ Some None → lines.old.ahead ≡ [] → result ≡ Err (Stop.Failed CertFault.ReadFault) }
    ensures read { result ≡ Err (Stop.Failed CertFault.ReadFault) → Rose (S.faults shelf.old) (S.faults shelf.new) }
    ensures same { S.told shelf.new ≡ S.told shelf.old }
    ensures rule { (n : List ℕ) → S.CanAsk shelf.old n ↔ S.CanAsk shelf.new n }
    ensures later { S.faults shelf.old ≤ S.faults shelf.new }
{
    let version = check_header(alloc, core, shelf, lines)?;
    let count = check_goals(alloc, version, &mut goals, shelf, lines)?;
    check_closing(alloc, count, shelf, lines)?;
    Ok(count)
}

// Reads the lines of all goals, and gives how many goals there are.
fn check_goals<S: Shelf>(
    alloc: Global,
    version: u32,
    goals: &mut GoalStream<'_>,
    shelf: &mut S,
    lines: &mut LineReader,
) -> Result<u64, Stop>
    requires asked { S.CanAsk shelf.old lines.old.name }
    requires limits { (lines.old.line_limit ≡ line_limit) × (lines.old.limit ≡ file_limit) }
    requires first { (lines.old.given ≡ 1) × (goals.old.given ≡ 0) }
    requires rest { TellsRest goals.old }
    ensures stands { IfOk result (λ n. (file : List ℕ) → told_file (S.told shelf.old) lines.old.name ≡ Some (Some file) → StandsIn lines.old file
        → Reached (core_of goals.old.core) file version 0 goals.old.ahead 1 → ReachedEnd (core_of goals.old.core) file n lines.new.given × StandsIn lines.new file) }
    ensures given { OnOk result (lines.new.given ≤ 1000001) }
    ensures stop { IfErr result (λ s. (file : List ℕ) → told_file (S.told shelf.old) lines.old.name ≡ Some (Some file) → StandsIn lines.old file
        → Reached (core_of goals.old.core) file version 0 goals.old.ahead 1 → Stops (core_of goals.old.core) file s) }
    ensures read { result ≡ Err (Stop.Failed CertFault.ReadFault) → Rose (S.faults shelf.old) (S.faults shelf.new) }
    ensures keeps { IsSameReader lines.old lines.new }
    ensures same { S.told shelf.new ≡ S.told shelf.old }
    ensures rule { (n : List ℕ) → S.CanAsk shelf.old n ↔ S.CanAsk shelf.new n }
    ensures later { S.faults shelf.old ≤ S.faults shelf.new }
{
    while let Some(goal) = next_goal(goals)? {
        check_goal(alloc, version, &goal, goals, shelf, lines)?;
    }
    Ok(goals.given())
}

// The next goal.
pub(crate) fn next_goal(goals: &mut GoalStream<'_>) -> Result<Option<Goal>, Stop>
    requires rest { TellsRest goals.old }
    ensures goal { IfOk result (λ o. MatchOption o ((next_goal goals.old.ahead goals.old.given ≡ NoMore) × (goals.new.given ≡ goals.old.given)) (λ g. IsNext goals.old g goals.new)) }
    ensures fault { IfErr result (λ s. IsGoalStop goals.old s) }
    ensures kind { IfErr result (λ s. s ≢ Stop.Failed CertFault.ReadFault) }
{
    rows_are_over_the_unknowns();
    streams_give_goals();
    match goals.next() {
        Ok(goal) => Ok(goal),
        Err(GoalFault::GoalLimit) => Err(Stop::Failed(CertFault::GoalLimit)),
        Err(GoalFault::Overflow { goal }) => Err(Stop::Failed(CertFault::FormOverflow { goal })),
        Err(GoalFault::Memory) => Err(Stop::Failed(CertFault::Memory)),
    }
}

// Reads the closing line, after which nothing may come.
pub(crate) fn check_closing<S: Shelf>(
    alloc: Global,
    count: u64,
    shelf: &mut S,
    lines: &mut LineReader,
) -> Result<(), Stop>
    requires asked { S.CanAsk shelf.old lines.old.name }
    requires limits { (lines.old.line_limit ≡ line_limit) × (lines.old.limit ≡ file_limit) }
    requires few { lines.old.given < 1500000 }
    ensures accepts { OnOk result ((core : CoreOf) (file : List ℕ) → told_file (S.told shelf.old) lines.old.name ≡ Some (Some file) → StandsIn lines.old file
        → ReachedEnd core file count lines.old.given → IsAnswer core file (CertAnswer.Accepted count)) }
    ensures stop { IfErr result (λ s. (core : CoreOf) (file : List ℕ) → told_file (S.told shelf.old) lines.old.name ≡ Some (Some file) → StandsIn lines.old file
        → AtEnd core file count lines.old.given → Stops core file s) }
    ensures read { result ≡ Err (Stop.Failed CertFault.ReadFault) → Rose (S.faults shelf.old) (S.faults shelf.new) }
    ensures same { S.told shelf.new ≡ S.told shelf.old }
    ensures rule { (n : List ℕ) → S.CanAsk shelf.old n ↔ S.CanAsk shelf.new n }
    ensures later { S.faults shelf.old ≤ S.faults shelf.new }
{
    let line = next_line(alloc, shelf, lines)?;
    check_total(line, count, lines.given())?;
    check_nothing(shelf, lines)
}

// Whether the line, which is the one numbered `at`, closes with this count.
fn check_total(line: Line, count: u64, at: u64) -> Result<(), Stop>
    ensures ok { OnOk result (line ≡ Line.Closing count) }
    ensures stop { IfErr result (λ s. IsNoTotal line count at s) }
{
    match line {
        Line::Closing { goals } if goals == count => Ok(()),
        Line::Closing { .. } => Err(Stop::Rejected(Rejection::ClosingDiffers { line: at })),
        _ => Err(Stop::Rejected(Rejection::Extra { line: at })),
    }
}

// Whether no further line comes after the closing line.
fn check_nothing<S: Shelf>(shelf: &mut S, lines: &mut LineReader) -> Result<(), Stop>
    requires asked { S.CanAsk shelf.old lines.old.name }
    requires limits { (lines.old.line_limit ≡ line_limit) × (lines.old.limit ≡ file_limit) }
    requires few { lines.old.given < 2000000 }
    ensures ends { OnOk result ((file : List ℕ) → told_file (S.told shelf.old) lines.old.name ≡ Some (Some file) → StandsIn lines.old file → rest_from lines.old.given file ≡ []) }
    ensures stop { IfErr result (λ s. (core : CoreOf) (count : ℕ) (file : List ℕ) → told_file (S.told shelf.old) lines.old.name ≡ Some (Some file) → StandsIn lines.old file
        → IsClosed core file count lines.old.given → Stops core file s) }
    ensures read { result ≡ Err (Stop.Failed CertFault.ReadFault) → Rose (S.faults shelf.old) (S.faults shelf.new) }
    ensures same { S.told shelf.new ≡ S.told shelf.old }
    ensures rule { (n : List ℕ) → S.CanAsk shelf.old n ↔ S.CanAsk shelf.new n }
    ensures later { S.faults shelf.old ≤ S.faults shelf.new }
{
    match lines.advance(shelf) {
        Ok(true) => Err(Stop::Rejected(Rejection::Extra {
            line: lines.given(),
        })),
        Ok(false) => Ok(()),
        Err(fault) => Err(end_stop_of(fault)),
    }
}

// What the fault of a line after the closing line means for the certificate.
fn end_stop_of(fault: LineFault) -> Stop
    ensures { result ≡ end_stop_of fault }
{
    match fault {
        LineFault::LineTooLong { line } => Stop::Rejected(Rejection::Extra { line }),
        other => stop_of(other),
    }
}
