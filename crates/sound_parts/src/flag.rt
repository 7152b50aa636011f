// The tests of one event flag: of its numbers and first two waiters, and of a wait that its bits may not meet already.
// Each function is a definition of model/specs/Test or Flag, for every value; it rests on model, and on records for when bits meet a wait.
ghost use Rattle.std.specs.Prelude.{◌≡◌};
ghost use Rattle.model.specs.Flag.{is_flag_attributes};
ghost use Rattle.model.specs.Test.{is_flag_sound, is_unmet};

use model::Wait;
use records::FLAG;

#[tactic(auto, unfolding(model::specs::Flag::is_flag_attributes))]
fn is_flag_attributes(attributes: u32) -> bool
    ensures { result ≡ is_flag_attributes attributes }
{
    matches!(attributes, 0 | 1 | 2 | 4)
}

#[tactic(auto, unfolding(model::specs::Test::is_flag_sound))]
pub fn flag_sound(attributes: u32, bits: u32, first: u8, second: u8) -> bool
    ensures { result ≡ is_flag_sound attributes bits first second }
{
    let valid = is_flag_attributes(attributes);
    let single = (attributes == 2) | (attributes == 4);
    valid & (((attributes != 0) | ((bits == 0) & (first == 0))) & (!single | (second == 0)))
}

#[tactic(auto, unfolding(model::specs::Test::is_unmet))]
pub fn is_unmet(w: Wait, bits: u32) -> bool
    ensures { result ≡ is_unmet w bits }
{
    let met = records::is_met(w.pattern, u32::from(w.mode), bits);
    (w.kind != FLAG) | !met
}
