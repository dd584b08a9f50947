//! Queues of entries.

use crate::given::{must, sure};
use crate::queues::OldestFirst;
use fc_frontier::{
    BucketFrontier, EitherFrontier, Frontier, ListFrontier, TieBucketFrontier, TieFrontier,
};
use std::alloc::Global;
use std::process::Abort;

// Puts in a pair, at the second try where the first was refused; a refused push leaves as many pairs as there were.
fn put<F: Frontier>(rt: &impl Abort, queue: &mut F, f: u32, node: u32) {
    let before = queue.len();
    if queue.push(f, node).is_err() {
        must(rt, queue.len() == before);
        sure(rt, queue.push(f, node));
    }
    must(rt, queue.len() == before.saturating_add(1));
}

// The same with a tie.
fn put_tied<F: Frontier>(rt: &impl Abort, queue: &mut F, f: u32, tie: u8, node: u32) {
    let before = queue.len();
    if queue.push_tied(f, tie, node).is_err() {
        must(rt, queue.len() == before);
        sure(rt, queue.push_tied(f, tie, node));
    }
    must(rt, queue.len() == before.saturating_add(1));
}

fn filled<F: Frontier + Drop>(rt: &impl Abort, alloc: Global, pairs: &[(u32, u32)]) -> F {
    let mut queue = F::new(alloc);
    for (f, node) in pairs {
        put(rt, &mut queue, *f, *node);
    }
    queue
}

// A pair of least f comes first, the two of greater f in either order, and then nothing.
fn least_comes_first<F: Frontier + Drop>(rt: &impl Abort, alloc: Global) {
    let mut queue: F = filled(rt, alloc, &[(5, 1), (4, 2), (5, 3)]);
    must(rt, queue.pop_least() == Some((4, 2)));
    let pair = queue.pop_least().expect(rt, "a second pair");
    let other = queue.pop_least().expect(rt, "a third pair");
    must(
        rt,
        (pair, other) == ((5, 1), (5, 3)) || (pair, other) == ((5, 3), (5, 1)),
    );
    must(rt, queue.pop_least() == None);
    must(rt, queue.len() == 0);
}

#[test]
fn a_pair_of_least_f_comes_first(rt: HostRuntime) {
    least_comes_first::<ListFrontier>(&rt, rt.alloc());
    least_comes_first::<BucketFrontier>(&rt, rt.alloc());
    least_comes_first::<OldestFirst>(&rt, rt.alloc());
    least_comes_first::<TieFrontier>(&rt, rt.alloc());
    least_comes_first::<TieBucketFrontier>(&rt, rt.alloc());
    least_comes_first::<EitherFrontier>(&rt, rt.alloc());
}

// The pairs come in this order, and then nothing, twice.
fn comes_in_order<F: Frontier>(rt: &impl Abort, queue: &mut F, order: &[(u32, u32)]) {
    for pair in order {
        must(rt, queue.pop_least() == Some(*pair));
    }
    must(rt, queue.pop_least() == None);
    must(rt, queue.pop_least() == None);
}

// The greatest f that has a stack, the least that has none, the greatest of all and the least of all.
fn ends_of_the_stacks<F: Frontier + Drop>(rt: &impl Abort, alloc: Global) {
    let pairs = [(1023, 1), (1024, 2), (4294967295, 3), (0, 4)];
    let mut queue: F = filled(rt, alloc, &pairs);
    comes_in_order(
        rt,
        &mut queue,
        &[(0, 4), (1023, 1), (1024, 2), (4294967295, 3)],
    );
}

#[test]
fn stacks_end_at_1023(rt: HostRuntime) {
    ends_of_the_stacks::<BucketFrontier>(&rt, rt.alloc());
    ends_of_the_stacks::<ListFrontier>(&rt, rt.alloc());
    ends_of_the_stacks::<TieFrontier>(&rt, rt.alloc());
    ends_of_the_stacks::<TieBucketFrontier>(&rt, rt.alloc());
    ends_of_the_stacks::<EitherFrontier>(&rt, rt.alloc());
}

// The greatest f that has stacks by ties and the least that has none, the least and the greatest tie of each, and one f and
// tie twice in the stacks and behind them.
fn ends_of_the_stacks_by_ties<F: Frontier + Drop>(rt: &impl Abort, mut queue: F) {
    let tied = [
        (2048, 255, 1),
        (2047, 0, 2),
        (4294967295, 255, 3),
        (2048, 0, 4),
        (2047, 255, 5),
        (2048, 0, 6),
        (2047, 255, 7),
        (0, 0, 8),
    ];
    for (f, tie, node) in &tied {
        put_tied(rt, &mut queue, *f, *tie, *node);
    }
    comes_in_order(
        rt,
        &mut queue,
        &[
            (0, 8),
            (2047, 2),
            (2047, 7),
            (2047, 5),
            (2048, 6),
            (2048, 4),
            (2048, 1),
            (4294967295, 3),
        ],
    );
}

#[test]
fn stacks_by_ties_end_at_2047(rt: HostRuntime) {
    ends_of_the_stacks_by_ties(&rt, TieFrontier::new(rt.alloc()));
    ends_of_the_stacks_by_ties(&rt, TieBucketFrontier::new(rt.alloc()));
    ends_of_the_stacks_by_ties(&rt, EitherFrontier::with_ties(rt.alloc()));
    ends_of_the_stacks_by_ties(&rt, EitherFrontier::with_small_ties(rt.alloc()));
}

// Of equal f the pair that was pushed last comes first, in the stacks and behind them; a pair stands there as often as
// it was pushed; a pair of lesser f may come after others were taken.
fn newest_comes_first<F: Frontier + Drop>(rt: &impl Abort, alloc: Global) {
    let pairs = [
        (70, 1),
        (70, 2),
        (2000, 3),
        (69, 4),
        (2000, 5),
        (70, 2),
        (1999, 6),
    ];
    let mut queue: F = filled(rt, alloc, &pairs);
    must(rt, queue.pop_least() == Some((69, 4)));
    must(rt, queue.pop_least() == Some((70, 2)));
    put(rt, &mut queue, 68, 7);
    put(rt, &mut queue, 70, 8);
    comes_in_order(
        rt,
        &mut queue,
        &[
            (68, 7),
            (70, 8),
            (70, 2),
            (70, 1),
            (1999, 6),
            (2000, 5),
            (2000, 3),
        ],
    );
    put(rt, &mut queue, 3, 9);
    comes_in_order(rt, &mut queue, &[(3, 9)]);
}

#[test]
fn of_equal_f_the_newest_comes_first(rt: HostRuntime) {
    newest_comes_first::<BucketFrontier>(&rt, rt.alloc());
    newest_comes_first::<ListFrontier>(&rt, rt.alloc());
    newest_comes_first::<TieFrontier>(&rt, rt.alloc());
    newest_comes_first::<TieBucketFrontier>(&rt, rt.alloc());
    newest_comes_first::<EitherFrontier>(&rt, rt.alloc());
}

// Nothing stands in a queue.
fn check_empty<F: Frontier + Drop>(rt: &impl Abort, mut queue: F) {
    must(rt, queue.len() == 0);
    must(rt, queue.pop_least() == None);
}

#[test]
fn a_new_queue_is_empty(rt: HostRuntime) {
    check_empty(&rt, ListFrontier::new(rt.alloc()));
    check_empty(&rt, BucketFrontier::new(rt.alloc()));
    check_empty(&rt, TieFrontier::new(rt.alloc()));
    check_empty(&rt, TieBucketFrontier::new(rt.alloc()));
    check_empty(&rt, EitherFrontier::with_ties(rt.alloc()));
    check_empty(&rt, EitherFrontier::with_small_ties(rt.alloc()));
}

// Pairs with ties: the greatest f and the greatest tie among them, one pair twice, and f of 1,024 and more.
const TIED: [(u32, u8, u32); 9] = [
    (1024, 2, 1),
    (70, 1, 2),
    (70, 255, 3),
    (4294967295, 0, 4),
    (70, 1, 5),
    (70, 0, 6),
    (1024, 3, 7),
    (70, 1, 2),
    (69, 255, 8),
];

// Fills an empty queue with them.
fn fill_with_ties<F: Frontier + Drop>(rt: &impl Abort, mut queue: F) -> F {
    for (f, tie, node) in &TIED {
        put_tied(rt, &mut queue, *f, *tie, *node);
    }
    queue
}

// Of equal f the pair of least tie comes first, and of equal ties the one that was pushed last.
fn least_tie_comes_first<F: Frontier + Drop>(rt: &impl Abort, queue: F) {
    let mut queue = fill_with_ties(rt, queue);
    must(rt, queue.pop_least() == Some((69, 8)));
    must(rt, queue.pop_least() == Some((70, 6)));
    // A push is one with the tie 0.
    put_tied(rt, &mut queue, 70, 1, 9);
    put(rt, &mut queue, 70, 10);
    put_tied(rt, &mut queue, 70, 0, 11);
    comes_in_order(
        rt,
        &mut queue,
        &[
            (70, 11),
            (70, 10),
            (70, 9),
            (70, 2),
            (70, 5),
            (70, 2),
            (70, 3),
            (1024, 1),
            (1024, 7),
            (4294967295, 4),
        ],
    );
}

#[test]
fn of_equal_f_the_least_tie_comes_first(rt: HostRuntime) {
    least_tie_comes_first(&rt, TieFrontier::with_ties(rt.alloc()));
    least_tie_comes_first(&rt, TieBucketFrontier::with_ties(rt.alloc()));
    least_tie_comes_first(&rt, TieBucketFrontier::with_small_ties(rt.alloc()));
    least_tie_comes_first(&rt, EitherFrontier::with_ties(rt.alloc()));
    least_tie_comes_first(&rt, EitherFrontier::with_small_ties(rt.alloc()));
}

// A queue that has no use for ties gives of equal f the newest, whatever its tie is.
fn newest_whatever_the_tie<F: Frontier + Drop>(rt: &impl Abort, alloc: Global) {
    let mut queue = fill_with_ties(rt, F::new(alloc));
    comes_in_order(
        rt,
        &mut queue,
        &[
            (69, 8),
            (70, 2),
            (70, 6),
            (70, 5),
            (70, 3),
            (70, 2),
            (1024, 7),
            (1024, 1),
            (4294967295, 4),
        ],
    );
}

#[test]
fn ties_of_other_queues_are_of_no_use(rt: HostRuntime) {
    newest_whatever_the_tie::<BucketFrontier>(&rt, rt.alloc());
    newest_whatever_the_tie::<ListFrontier>(&rt, rt.alloc());
    newest_whatever_the_tie::<EitherFrontier>(&rt, rt.alloc());
}

// Each pair is walked over, as often as it stands there: by their number and the sums of both parts.
fn walks_over_all<F: Frontier + Drop>(rt: &impl Abort, queue: F) {
    let queue = fill_with_ties(rt, queue);
    let (mut count, mut sum_of_f, mut sum_of_nodes) = (0u32, 0u64, 0u64);
    for (f, node) in queue.iter() {
        count = count.saturating_add(1);
        sum_of_f = sum_of_f.saturating_add(f as u64);
        sum_of_nodes = sum_of_nodes.saturating_add(node as u64);
    }
    must(rt, (count, sum_of_f, sum_of_nodes) == (9, 4294969762, 38));
}

#[test]
fn each_pair_is_walked_over(rt: HostRuntime) {
    walks_over_all(&rt, BucketFrontier::new(rt.alloc()));
    walks_over_all(&rt, ListFrontier::new(rt.alloc()));
    walks_over_all(&rt, TieFrontier::new(rt.alloc()));
    walks_over_all(&rt, EitherFrontier::new(rt.alloc()));
    walks_over_all(&rt, TieBucketFrontier::new(rt.alloc()));
    walks_over_all(&rt, EitherFrontier::with_ties(rt.alloc()));
    walks_over_all(&rt, EitherFrontier::with_small_ties(rt.alloc()));
}
