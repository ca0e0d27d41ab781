//! The lines of a report, as they are written.
ghost use Rattle.std.specs.Prelude.{◌≡◌, ◌≤◌, IfErr, IfOk, OnOk};
ghost use Rattle.slice_io.specs.Causes.{Rose};
ghost use Rattle.slice_io.specs.Told.{appended};
ghost use Rattle.slice_core.specs.Cores.{core_of};
ghost use Rattle.slice_cert.specs.CertLines.{line_text, MayStand};
ghost use Rattle.slice_cert.specs.declared.line.Line.TheVariants.{Header, Closing};
ghost use Rattle.slice_check.specs.Upgrading.{ReadsBack};
ghost use Rattle.slice_verify.specs.Report.{closing_text};
ghost use Rattle.slice_verify.specs.Working.{LineStops};
ghost use Rattle.slice_verify.specs.declared.verifier.Decision.TheVariants.{EnvyFree, Found};

use crate::verifier::{Decision, VerifyFault};
use slice_cert::{Line, write_line};
use slice_core::Core;
use slice_counter::{Counterexample, counter_line};
use slice_io::{Sink, put_all};
use slice_num::Word;
use std::alloc::Global;

// Writes the first line.
pub(crate) fn put_header<K: Sink>(
    alloc: Global,
    core: &Core,
    sink: &mut K,
) -> Result<(), VerifyFault>
    ensures out { OnOk result (K.told sink.new ≡ appended (K.told sink.old) (line_text (Header 2 (core_of core.now).name (core_of core.now).agents))) }
    ensures line { OnOk result (ReadsBack (Header 2 (core_of core.now).name (core_of core.now).agents)) }
    ensures stops { IfErr result (λ e. LineStops (K.told sink.old) (K.told sink.new) (line_text (Header 2 (core_of core.now).name (core_of core.now).agents)) e) }
    ensures later { K.faults sink.old ≤ K.faults sink.new }
    ensures rose { IfErr result (λ e. e ≡ VerifyFault.WriteFault → Rose (K.faults sink.old) (K.faults sink.new)) }
{
    let agents = core.agents();
    let protocol = Word::new(alloc, core.name().bytes())?;
    let line = Line::Header {
        version: 2,
        protocol,
        agents,
    };
    put_line(alloc, &line, sink)
}

// Writes the closing line after so many goals were refuted.
pub(crate) fn close<K: Sink>(
    alloc: Global,
    goals: u64,
    sink: &mut K,
) -> Result<Decision, VerifyFault>
    ensures decision { IfOk result (λ d. d ≡ EnvyFree goals) }
    ensures out { OnOk result (K.told sink.new ≡ appended (K.told sink.old) (closing_text (EnvyFree goals))) }
    ensures line { OnOk result (ReadsBack (Closing goals)) }
    ensures stops { IfErr result (λ e. LineStops (K.told sink.old) (K.told sink.new) (closing_text (EnvyFree goals)) e) }
    ensures later { K.faults sink.old ≤ K.faults sink.new }
    ensures rose { IfErr result (λ e. e ≡ VerifyFault.WriteFault → Rose (K.faults sink.old) (K.faults sink.new)) }
{
    put_line(alloc, &Line::Closing { goals }, sink)?;
    Ok(Decision::EnvyFree { goals })
}

// Writes the closing line of a counterexample.
pub(crate) fn close_found<K: Sink>(
    alloc: Global,
    counter: Counterexample,
    sink: &mut K,
) -> Result<Decision, VerifyFault>
    ensures decision { IfOk result (λ d. d ≡ Found counter) }
    ensures out { OnOk result (K.told sink.new ≡ appended (K.told sink.old) (closing_text (Found counter))) }
    ensures stops { IfErr result (λ e. LineStops (K.told sink.old) (K.told sink.new) (closing_text (Found counter)) e) }
    ensures later { K.faults sink.old ≤ K.faults sink.new }
    ensures rose { IfErr result (λ e. e ≡ VerifyFault.WriteFault → Rose (K.faults sink.old) (K.faults sink.new)) }
{
    let text = counter_line(alloc, &counter)?;
    put_text(text.as_slice(), sink)?;
    Ok(Decision::Found(counter))
}

// Writes a line of the certificate.
pub(crate) fn put_line<K: Sink>(alloc: Global, line: &Line, sink: &mut K) -> Result<(), VerifyFault>
    requires may { MayStand line.now }
    ensures out { OnOk result (K.told sink.new ≡ appended (K.told sink.old) (line_text line.now)) }
    ensures line { OnOk result (ReadsBack line.now) }
    ensures stops { IfErr result (λ e. LineStops (K.told sink.old) (K.told sink.new) (line_text line.now) e) }
    ensures later { K.faults sink.old ≤ K.faults sink.new }
    ensures rose { IfErr result (λ e. e ≡ VerifyFault.WriteFault → Rose (K.faults sink.old) (K.faults sink.new)) }
{
    let bytes = write_line(alloc, line)?;
    put_text(bytes.as_slice(), sink)
}

// Writes a line's text.
fn put_text<K: Sink>(text: &[u8], sink: &mut K) -> Result<(), VerifyFault>
    ensures out { OnOk result (K.told sink.new ≡ appended (K.told sink.old) text.now) }
    ensures stops { IfErr result (λ e. LineStops (K.told sink.old) (K.told sink.new) text.now e) }
    ensures later { K.faults sink.old ≤ K.faults sink.new }
    ensures rose { IfErr result (λ e. e ≡ VerifyFault.WriteFault → Rose (K.faults sink.old) (K.faults sink.new)) }
{
    match put_all(sink, text) {
        Ok(()) => Ok(()),
        Err(_) => Err(VerifyFault::WriteFault),
    }
}
