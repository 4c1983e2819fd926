//! The answer of a node: it is looked up, its files are loaded, and it is cooked.
ghost use Rattle.std.specs.Prelude.{◌≡◌, ◌≤◌, Err, IfErr, IfOk, IfSome};
ghost use Rattle.sop_outside.specs.Causes.{Counts, Rose};
ghost use Rattle.sop_net.specs.Network.{IsLive};
ghost use Rattle.sop_cook.specs.Visit.{Outcome};
ghost use Rattle.sop_cook.specs.SerialCook.{cook_of};
ghost use Rattle.sop_cook.specs.Ends.{HasNamedNode, IsAtLive, Tells};
ghost use Rattle.sopcook.specs.declared.request.Form.{Form};
ghost use Rattle.sopcook.specs.Loads.{told_files};
ghost use Rattle.sopcook.specs.Request.{request_seen};
ghost use Rattle.sopcook.specs.Answer.{cook_answer, node_answer};
ghost use Rattle.sopcook.specs.Endings.{IsEndAnswer, IsNamedAnswer, IsNodeAnswer};

use crate::answer::Answer;
use crate::loads::load_needs;
use crate::request::{Form, Request};
use crate::run_end::RunEnd;
use sop_cook::{CookEnd, cook, cook_runs_visits};
use sop_net::{Net, NodeId};
use sop_outside::Files;
use sop_vault::Vault;
use std::alloc::Global;

/// The answer of the node that is asked for.
pub fn answer_named<F: Files>(
    alloc: Global,
    net: &Net,
    request: &Request<'_>,
    files: &mut F,
) -> Result<Answer, RunEnd>
    ensures told { F.told files.new ≡ F.told files.old }
    ensures faults { Counts (F.faults files.old) (F.faults files.new) (result ≡ Err RunEnd.Read) }
    ensures misses_later { F.misses files.old ≤ F.misses files.new }
    ensures overs_later { F.overs files.old ≤ F.overs files.new }
    ensures ok { IfOk result (λ answer. IfSome (F.told files.old) (λ names. answer ≡ node_answer names net.now.nodes (request_seen request.now))) }
    ensures caused { IfOk result (IsNamedAnswer (Rose (F.misses files.old) (F.misses files.new))) }
{
    match net.find(request.node) {
        Some(node) => answer_node(alloc, net, node, request.form, files),
        None => Ok(Answer::of_no_node(alloc)?),
    }
}

/// The answer of a node that stands.
fn answer_node<F: Files>(
    alloc: Global,
    net: &Net,
    node: NodeId,
    form: Form,
    files: &mut F,
) -> Result<Answer, RunEnd>
    requires { IsLive net.now.nodes node }
    ensures told { F.told files.new ≡ F.told files.old }
    ensures faults { Counts (F.faults files.old) (F.faults files.new) (result ≡ Err RunEnd.Read) }
    ensures misses_later { F.misses files.old ≤ F.misses files.new }
    ensures overs_later { F.overs files.old ≤ F.overs files.new }
    ensures ok { IfOk result (λ answer. IfSome (F.told files.old) (λ names. answer ≡ cook_answer form net.now.nodes (cook_of (told_files names) net.now.nodes node))) }
    ensures caused { IfOk result (IsNodeAnswer (Rose (F.misses files.old) (F.misses files.new))) }
{
    net.is_network();
    cook_runs_visits(net);
    let loaded = load_needs(files, alloc, net, node)?;
    let mut vault = Vault::new(alloc);
    match cook(alloc, net, node, &loaded, &mut vault) {
        Ok(key) => Ok(Answer::of_geo(alloc, form, &vault.view(key))?),
        Err(end) => answer_end(alloc, net, &end),
    }
}

/// The answer of a cook that gave no geometry.
fn answer_end(alloc: Global, net: &Net, end: &CookEnd) -> Result<Answer, RunEnd>
    requires at { IsAtLive net.now.nodes end.now }
    requires named { HasNamedNode end.now }
    ensures ok { IfOk result (λ answer. (form : Form) (outcome : Outcome) → Tells outcome (Err end.now) → answer ≡ cook_answer form net.now.nodes outcome) }
    ensures fault { IfOk result (IsEndAnswer end.now) }
    ensures memory { IfErr result (λ stop. stop ≡ RunEnd.Memory) }
{
    match end {
        CookEnd::Fault { node, fault } => Ok(Answer::of_fault(alloc, net, *node, fault)?),
        CookEnd::Memory => Err(RunEnd::Memory),
    }
}
