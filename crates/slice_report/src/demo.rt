//! The line of a report that was made and checked in memory.
ghost use Rattle.std.specs.Prelude.{◌≡◌, IfOk};
ghost use Rattle.serde_json.specs.View.{view};
ghost use Rattle.slice_json.specs.Texts.{line_of};
ghost use Rattle.slice_core.specs.Cores.{core_of};
ghost use Rattle.slice_report.specs.DemoReport.{demo_json};

use crate::line::{line_of, name_of};
use serde_json::{Value, json};
use slice_core::Core;
use std::alloc::{AllocError, Global};

/// The line that tells that the report on a core was accepted, with its LF: the core's agents and its protocol's name, how
/// many bytes the report has, and for how many goals it is accepted. The one error is want of memory.
pub fn demo_line(alloc: Global, core: &Core, goals: u64, bytes: u64) -> Result<Vec<u8>, AllocError>
    ensures { IfOk result (λ v. v.items ≡ line_of (demo_json (core_of core.now) goals bytes)) }
{
    line_of(alloc, &demo_value(alloc, core, goals, bytes)?)
}

fn demo_value(alloc: Global, core: &Core, goals: u64, bytes: u64) -> Result<Value, AllocError>
    ensures { IfOk result (λ v. view v ≡ demo_json (core_of core.now) goals bytes) }
{
    let agents = core.agents();
    json!(in alloc; {"accepted": true, "agents": agents, "bytes": bytes, "goals": goals, "protocol": name_of(core.name())})
}
