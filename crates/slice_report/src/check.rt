//! The line of a core.
ghost use Rattle.std.specs.Prelude.{◌≡◌, IfOk};
ghost use Rattle.serde_json.specs.View.{view};
ghost use Rattle.slice_json.specs.Texts.{line_of};
ghost use Rattle.slice_core.specs.Cores.{core_of};
ghost use Rattle.slice_report.specs.CoreReport.{core_json};

use crate::line::{line_of, name_of};
use serde_json::{Value, json};
use slice_core::Core;
use std::alloc::{AllocError, Global};

/// The line of a core, with its LF: its agents, its protocol's name, and how many nodes it has, how many nodes the longest
/// way and how many cuts the way with the most of them. The one error is want of memory.
pub fn check_line(alloc: Global, core: &Core) -> Result<Vec<u8>, AllocError>
    ensures { IfOk result (λ v. v.items ≡ line_of (core_json (core_of core.now))) }
{
    line_of(alloc, &core_value(alloc, core)?)
}

fn core_value(alloc: Global, core: &Core) -> Result<Value, AllocError>
    ensures { IfOk result (λ v. view v ≡ core_json (core_of core.now)) }
{
    let agents = core.agents();
    let size = core.size();
    json!(in alloc; {"agents": agents, "cuts": size.cuts, "depth": size.depth, "nodes": size.nodes, "protocol": name_of(core.name())})
}
