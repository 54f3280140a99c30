// The form of a query: 7, or what is asked.
ghost use Rattle.answers.specs.Queries.{Asked};

use crate::values::Values;
use console::Cgb;
use console::refusal::Refusal;

#[tactic(auto, unfolding(crate::specs::Queries::asked))]
pub fn asked<T: Values>(state: Cgb, value: T) -> Result<T, Refusal>
    ensures { Asked T.values state value result }
{
    state.reached()?;
    Ok(value)
}
