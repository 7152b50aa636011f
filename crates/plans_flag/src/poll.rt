// The plan of a poll of an event flag, from a task or an interrupt.
// It is a definition of model/specs/Service, for every value; it rests on checks and records.
ghost use Rattle.std.specs.Prelude.{◌≡◌};
ghost use Rattle.checks.specs.Gate.{plan_of, IsDecision};
ghost use Rattle.model.specs.Service.{flag_poll};

use crate::{is_occupied, taken};
use checks::{checked, is_flag};
use model::{Code, Flag, Plan};
use records::is_met;

#[tactic(auto, unfolding(checks::specs::Gate::gate, model::specs::Plan::within, model::specs::Service::flag_poll, model::specs::Service::taken))]
pub(crate) fn flag_poll(
    mine: bool,
    flag: u32,
    pattern: u32,
    mode: u32,
    y: Flag,
) -> Result<Plan, Code>
    ensures plan { plan_of result ≡ flag_poll mine flag pattern mode y }
    ensures decision { IsDecision result }
{
    checked(
        is_flag(flag) && pattern != 0 && mode <= 1,
        y.attributes != 0,
        mine,
    )?;
    if is_occupied(y) {
        return Err(Code::IlUse);
    }
    if !is_met(pattern, mode, y.bits) {
        return Err(Code::Timeout);
    }
    Ok(taken(flag as u8, y))
}
