// The checks of a plan before anything is drawn: 19 to 22 yard by yard, then 25, 26 and 27.
ghost use Rattle.std.specs.Prelude.{◌≡◌};
ghost use Rattle.builder.specs.Yards.{plan_of};
ghost use Rattle.build.specs.{Checked.{checked}, inner.Whole.{lent_in}};

use crate::lent::Lent;
use builder::counts::are_counted;
use builder::drawing::form::is_known;
use builder::texts::are_texts;
use builder::yards::check_yards;
use numbers::fault::Fault;
use numbers::refusal::Refusal;

pub(crate) fn check_plan(plan: Lent) -> Result<(), Refusal>
    ensures { result ≡ checked (plan_of (lent_in plan.entry)) }
{
    let asked = plan.asked;
    check_yards(plan.yards, plan.lats, plan.lons)?;
    if !are_counted(asked.names, plan.yards, plan.lengths.len()) {
        return Err(Fault::BadYards.alone());
    }
    let each = asked.names as usize;
    let all = each + 1 + each * (plan.yards.len() / 4);
    if !are_texts(&plan.lengths[..all], plan.texts) {
        return Err(Fault::BadText.alone());
    }
    if !is_known(asked.kind, asked.version, asked.precision) {
        return Err(Fault::UnknownForm.alone());
    }
    Ok(())
}
