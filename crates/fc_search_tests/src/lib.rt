//! Tests of the public calls of the search, of certificates and their checker, and of the runs.
#![tactic(auto)]

#[cfg(test)]
mod batch;
#[cfg(test)]
mod best;
#[cfg(test)]
mod best_first;
#[cfg(test)]
mod best_first_limits;
#[cfg(test)]
mod best_first_sums;
#[cfg(test)]
mod board_runs;
#[cfg(test)]
mod cert;
#[cfg(test)]
mod cert_given;
#[cfg(test)]
mod checker;
#[cfg(test)]
mod given;
#[cfg(test)]
mod runs;
#[cfg(test)]
mod runs_rows;
#[cfg(test)]
mod search;
#[cfg(test)]
mod search_alike;
#[cfg(test)]
mod search_heard;
#[cfg(test)]
mod space;
