//! `deal`: a numbered deal is printed.

use crate::output::endings::Ending;
use crate::output::outputs::Out;
use fc_runs::run_deal;
use fc_words::DealWords;

/// Prints the deal.
pub fn deal(rt: &HostRuntime, words: &DealWords) -> Result<u8, Ending> {
    let mut out = Out::new(rt);
    let ran = run_deal(words.number, &mut out);
    out.end_of(ran)
}
