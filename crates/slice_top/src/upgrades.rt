// How a certificate is upgraded.
ghost use Rattle.std.specs.Prelude.{◌≡◌, ◌≤◌, IfOk, IfErr};
ghost use Rattle.slice_core.specs.Cores.{core_of};
ghost use Rattle.slice_io.specs.Causes.{Rose};
ghost use Rattle.slice_top.specs.Answers.{IsUpgradeAnswer, answer_of, upgrade_end};
ghost use Rattle.slice_top.specs.Certificates.{IsUpgradeStop};
ghost use Rattle.slice_top.specs.Settled.{Ends, UpgradeStops};
ghost use Rattle.slice_top.specs.Statuses.{IsWorked};

use crate::certificates::checker_stop;
use crate::status::Status;
use crate::stop::Stop;
use crate::work::Output;
use slice_check::{CertAnswer, UpgradeFault, upgrade_certificate};
use slice_core::Core;
use slice_io::{Shelf, Sink};
use slice_report::certify_line;
use std::alloc::Global;

/// Writes the lines of `upgrade` of a core, and gives what ends them.
pub(crate) fn upgrade_core<S: Shelf, K: Sink>(
    alloc: Global,
    shelf: &mut S,
    sink: &mut K,
    core: &Core,
    name: &str,
) -> Result<Output, Stop>
    requires asked { S.CanAsk shelf.old name.now }
    ensures same { S.told shelf.new ≡ S.told shelf.old }
    ensures later { (S.faults shelf.old ≤ S.faults shelf.new) × (K.faults sink.old ≤ K.faults sink.new) }
    ensures worked { IfOk result (λ l. IsWorked l.status) }
    ensures ok { IfOk result (λ l. Ends (IsUpgradeAnswer (S.told shelf.old) name.now (core_of core.now)) (K.told sink.old) (K.told sink.new) l.bytes.items l.status) }
    ensures err { IfErr result (UpgradeStops (S.told shelf.old) name.now (core_of core.now) (Rose (S.faults shelf.old) (S.faults shelf.new)) (Rose (K.faults sink.old) (K.faults sink.new)) (K.told sink.old) (K.told sink.new)) }
{
    match upgrade_certificate(alloc, core, shelf, name, sink) {
        Ok(answer) => upgrade_output(alloc, answer),
        Err(fault) => Err(upgrade_stop(alloc, name, fault)),
    }
}

// What ends the lines: nothing where the certificate is accepted, and otherwise what is wrong.
fn upgrade_output(alloc: Global, answer: CertAnswer) -> Result<Output, Stop>
    ensures worked { IfOk result (λ l. IsWorked l.status) }
    ensures ok { IfOk result (λ l. answer_of l.bytes.items l.status ≡ upgrade_end answer) }
    ensures err { IfErr result (λ e. e ≡ Stop.Memory) }
{
    let CertAnswer::Rejected(_) = answer else {
        return Ok(Output {
            bytes: Vec::new(alloc),
            status: Status::Good,
        });
    };
    let Ok(bytes) = certify_line(alloc, answer) else {
        return Err(Stop::Memory);
    };
    Ok(Output {
        bytes,
        status: Status::Negative,
    })
}

// The stop where the upgrade is given up.
fn upgrade_stop(alloc: Global, name: &str, fault: UpgradeFault) -> Stop
    ensures { IsUpgradeStop name.now fault result }
{
    match fault {
        UpgradeFault::Cert(fault) => checker_stop(alloc, name, fault),
        UpgradeFault::WriteFault => Stop::Unwritten,
    }
}
