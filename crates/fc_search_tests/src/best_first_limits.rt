//! Which numbers are weights, and what they weigh.

use crate::given::must;
use fc_methods::GreatBudget;
use fc_search::{Budget, HomeRule, Weight};
use std::process::Abort;

// What a weight weighs: so many parts so many times; or zero, where it is none.
fn weighed(weight: Option<Weight>) -> (u8, u8) {
    match weight {
        Some(weight) => (weight.parts(), weight.times()),
        None => (0, 0),
    }
}

#[test]
fn a_weight_is_1_to_10(rt: HostRuntime) {
    for &(times, parts) in &[(0, 0), (1, 1), (2, 1), (10, 1), (11, 0), (255, 0)] {
        let wanted = if parts == 0 { (0, 0) } else { (1, times) };
        must(&rt, weighed(Weight::new(times)) == wanted);
    }
    must(&rt, Weight::new(1) == Some(Weight::ONE));
}

#[test]
fn a_weight_is_10_to_100_tenths(rt: HostRuntime) {
    for &(tenths, ratio) in &[
        (0, (0, 0)),
        (9, (0, 0)),
        (10, (1, 1)),
        (11, (10, 11)),
        (13, (10, 13)),
        (20, (1, 2)),
        (99, (10, 99)),
        (100, (1, 10)),
        (101, (0, 0)),
        (255, (0, 0)),
    ] {
        must(&rt, weighed(Weight::of_tenths(tenths)) == ratio);
    }
}

#[test]
fn the_greatest_are_named(rt: HostRuntime) {
    must(&rt, Budget::MOST.get() == 4_000_000);
    must(&rt, GreatBudget::MOST.get() == 16_000_000);
    must(&rt, HomeRule::FREE.get() == 2);
}
