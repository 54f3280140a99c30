// What is asked of FF70, the bank of work RAM, and changes nothing (lib.rs, registers.rs). Each tests 7.
#![tactic(auto)]

ghost use Rattle.answers.specs.Answers.{byte_values};
ghost use Rattle.answers.specs.Queries.{Asked};
ghost use Rattle.bank_queries.specs.Queries.{bank_selected, svbk_written};

use answers::query::asked;
use console::Cgb;
use console::refusal::Refusal;

// The bank at D000 to DFFF.
pub fn wram_bank(state: Cgb) -> Result<u8, Refusal>
    ensures { Asked byte_values state (bank_selected state) result }
{
    asked(state, memory::wram::wram_bank(state.svbk))
}

// SVBK as written.
pub fn svbk_register(state: Cgb) -> Result<u8, Refusal>
    ensures { Asked byte_values state (svbk_written state) result }
{
    asked(state, state.svbk)
}
