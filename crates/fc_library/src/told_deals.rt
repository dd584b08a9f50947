//! Numbered deals.
ghost use Rattle.std.specs.Prelude.{IfOk, IfErr};
ghost use Rattle.fc_library.specs.Deals.{IsDealRefused, IsDealTold};

use crate::call_refusals::CallRefusal;
use crate::told_answers::Told;
use fc_deal::{deal, deal_text};
use std::alloc::Global;

/// The columns of a numbered deal, 1 to 1,000,000, a line each.
///
/// # Errors
/// `Deal` for any other number; `Memory`.
pub fn deal_of(alloc: Global, number: u32) -> Result<Told, CallRefusal>
    ensures dealt { IfOk result (IsDealTold number) }
    ensures refused { IfErr result (IsDealRefused number) }
{
    let Some(position) = deal(number) else {
        return Err(CallRefusal::Deal);
    };
    match Vec::from_slice(alloc, deal_text(&position).as_bytes()) {
        Ok(text) => Ok(Told {
            status: 0,
            place: 0,
            outcome: None,
            text,
        }),
        Err(_) => Err(CallRefusal::Memory),
    }
}
