// How a certificate is checked.
ghost use Rattle.std.specs.Prelude.{◌≡◌, ◌≤◌, IfOk, IfErr};
ghost use Rattle.slice_core.specs.Cores.{core_of};
ghost use Rattle.slice_io.specs.Causes.{Rose};
ghost use Rattle.slice_top.specs.Answers.{IsCertifyAnswer, answer_of, refused};
ghost use Rattle.slice_top.specs.Certificates.{ChecksFile, IsCheckerStop, RefusesCertificate, checked_status};
ghost use Rattle.slice_top.specs.Statuses.{IsWorked};
ghost use Rattle.slice_top.specs.Stops.{StopsBy};

use crate::status::Status;
use crate::stop::{Stop, file_word};
use crate::work::Output;
use slice_check::{CertAnswer, CertFault, check_certificate};
use slice_core::Core;
use slice_io::Shelf;
use slice_report::{Refusal, certify_line};
use std::alloc::Global;

/// The line of `certify` of a core.
pub(crate) fn certify_core<S: Shelf>(
    alloc: Global,
    shelf: &mut S,
    core: &Core,
    name: &str,
) -> Result<Output, Stop>
    requires asked { S.CanAsk shelf.old name.now }
    ensures same { S.told shelf.new ≡ S.told shelf.old }
    ensures later { S.faults shelf.old ≤ S.faults shelf.new }
    ensures worked { IfOk result (λ l. IsWorked l.status) }
    ensures ok { IfOk result (λ l. IsCertifyAnswer (S.told shelf.old) name.now (core_of core.now) (answer_of l.bytes.items l.status)) }
    ensures err { IfErr result (StopsBy (λ r. IsCertifyAnswer (S.told shelf.old) name.now (core_of core.now) (refused r)) (λ file. file ≡ name.now) (Rose (S.faults shelf.old) (S.faults shelf.new))) }
{
    let answer = match check_file(alloc, shelf, core, name) {
        Ok(answer) => answer,
        Err(stop) => return Err(stop),
    };
    let Ok(bytes) = certify_line(alloc, answer) else {
        return Err(Stop::Memory);
    };
    Ok(Output {
        bytes,
        status: checked_status(answer),
    })
}

// Good where the certificate is accepted.
fn checked_status(answer: CertAnswer) -> Status
    ensures same { result ≡ checked_status answer }
    ensures worked { IsWorked result }
{
    match answer {
        CertAnswer::Accepted { .. } => Status::Good,
        CertAnswer::Rejected(_) => Status::Negative,
    }
}

/// What the checker says of the certificate in a file.
pub(crate) fn check_file<S: Shelf>(
    alloc: Global,
    shelf: &mut S,
    core: &Core,
    name: &str,
) -> Result<CertAnswer, Stop>
    requires asked { S.CanAsk shelf.old name.now }
    ensures same { S.told shelf.new ≡ S.told shelf.old }
    ensures later { S.faults shelf.old ≤ S.faults shelf.new }
    ensures ok { IfOk result (λ x. ChecksFile (S.told shelf.old) name.now (core_of core.now) x) }
    ensures err { IfErr result (StopsBy (RefusesCertificate (S.told shelf.old) name.now (core_of core.now)) (λ file. file ≡ name.now) (Rose (S.faults shelf.old) (S.faults shelf.new))) }
{
    match check_certificate(alloc, core, shelf, name) {
        Ok(answer) => Ok(answer),
        Err(fault) => Err(checker_stop(alloc, name, fault)),
    }
}

/// The stop for the checker's fault on the file of that name.
pub(crate) fn checker_stop(alloc: Global, name: &str, fault: CertFault) -> Stop
    ensures { IsCheckerStop name.now fault result }
{
    let file = match file_word(alloc, name) {
        Ok(file) => file,
        Err(stop) => return stop,
    };
    match fault {
        CertFault::ReadFault => Stop::Unread { file },
        CertFault::TooLong => Stop::Refused(Refusal::TooLong { file }),
        CertFault::GoalLimit => Stop::Refused(Refusal::GoalLimit),
        CertFault::FormOverflow { goal } => Stop::Refused(Refusal::FormOverflow { goal }),
        CertFault::Overflow { goal, unknown } => {
            Stop::Refused(Refusal::CheckOverflow { goal, unknown })
        }
        CertFault::Memory => Stop::Memory,
    }
}
