//! What C and other languages call: each export calls `fc_library`, and puts what that hands over into rooms of the caller's.
//! To C a slice is a pointer, which may not be null, and a length; a `&mut` to one is a pointer to a struct of both; a `Global` is
//! nothing; the structs are those of `lib/luffaknife.h`.
#![tactic(auto)]

ghost use Rattle.std.specs.Prelude.{◌≡◌};
ghost use Rattle.fc_exports.specs.Calls.{Delivers};
ghost use Rattle.fc_library.specs.Bests.{IsBestCertified, IsBestRefused, IsBestTold};
ghost use Rattle.fc_library.specs.Checks.{IsCheckTold, IsCheckRefused};
ghost use Rattle.fc_library.specs.Deals.{IsDealRefused, IsDealTold};
ghost use Rattle.fc_library.specs.Keeps.{IsTextKept, AreBothKept};
ghost use Rattle.fc_library.specs.Lists.{moves_in};
ghost use Rattle.fc_library.specs.Replays.{IsReplayRefused, IsReplayTold};
ghost use Rattle.fc_library.specs.Reviews.{IsReviewRefused, IsReviewTold};
ghost use Rattle.fc_library.specs.Rooms.{IsHandedOver, IsHandedOverBoth};
ghost use Rattle.fc_library.specs.Sequences.{IsSequencesRefused, IsSequencesTold};
ghost use Rattle.fc_library.specs.Solves.{IsSolvedCertified, IsSolvedTold, IsSolveRefused};

use fc_library::{
    Call, GameName, MethodName, best, best_certified, check_bytes, deal_of, hand_over,
    hand_over_certified, keep, keep_certified, moves_in, replay_list, replay_sequences, review,
    solve, solve_certified,
};
use std::alloc::Global;

/// The version: 1,000,000 times its first number, 1,000 times its second, and its third.
pub const VERSION: u32 = 2_000;

/// The version of the library that is called.
#[unsafe(no_mangle)]
pub extern "C" fn luffaknife_version() -> u32
    ensures { result ≡ VERSION }
{
    VERSION
}

/// The columns of a numbered deal, 1 to 1,000,000, a line each: at most 200 bytes.
#[unsafe(no_mangle)]
pub extern "C" fn luffaknife_deal(alloc: Global, number: u32, text: &mut [u8]) -> Call
    ensures handed { Delivers (IsDealTold number) (IsDealRefused number) (λ told. IsHandedOver told text.old text.new result) }
{
    hand_over(&deal_of(alloc, number), text)
}

/// The best answer, within a budget of 1 to 16,000,000 classes of positions, for a board's text: what the program prints.
#[unsafe(no_mangle)]
pub extern "C" fn luffaknife_best(
    alloc: Global,
    name: GameName,
    budget: u32,
    board: &[u8],
    text: &mut [u8],
) -> Call
    ensures handed { Delivers (IsBestTold name board.now budget) (IsBestRefused name board.now budget) (λ told. IsHandedOver told text.old text.new result) }
{
    hand_over(&best(alloc, name, board, budget), text)
}

/// The same, with the certificate of the answer.
#[unsafe(no_mangle)]
pub extern "C" fn luffaknife_best_certified(
    alloc: Global,
    name: GameName,
    budget: u32,
    board: &[u8],
    text: &mut [u8],
    certificate: &mut [u8],
) -> Call
    ensures handed { Delivers (IsBestCertified name board.now budget) (IsBestRefused name board.now budget) (λ told. IsHandedOverBoth told (text.old, certificate.old) (text.new, certificate.new) result) }
{
    hand_over_certified(
        &best_certified(alloc, name, board, budget),
        text,
        certificate,
    )
}

/// The best answer for a board's text, left in memory of `malloc`'s that is the caller's from then on.
#[unsafe(no_mangle)]
pub extern "C" fn luffaknife_keep_best(
    alloc: Global,
    name: GameName,
    budget: u32,
    board: &[u8],
    text: &mut &'static [u8],
) -> Call
    ensures kept { Delivers (IsBestTold name board.now budget) (IsBestRefused name board.now budget) (λ told. IsTextKept told text.old.now text.new.now result) }
{
    keep(best(alloc, name, board, budget), text)
}

/// The same, with the certificate of the answer.
#[unsafe(no_mangle)]
pub extern "C" fn luffaknife_keep_best_certified(
    alloc: Global,
    name: GameName,
    budget: u32,
    board: &[u8],
    text: &mut &'static [u8],
    certificate: &mut &'static [u8],
) -> Call
    ensures kept { Delivers (IsBestCertified name board.now budget) (IsBestRefused name board.now budget) (λ told. AreBothKept told (text.old.now, certificate.old.now) (text.new.now, certificate.new.now) result) }
{
    keep_certified(
        best_certified(alloc, name, board, budget),
        text,
        certificate,
    )
}

/// The answer of one search by a method for a board's text: what the program prints.
#[unsafe(no_mangle)]
pub extern "C" fn luffaknife_solve(
    alloc: Global,
    name: GameName,
    method: MethodName,
    board: &[u8],
    text: &mut [u8],
) -> Call
    ensures handed { Delivers (IsSolvedTold name method board.now) (IsSolveRefused name method board.now) (λ told. IsHandedOver told text.old text.new result) }
{
    hand_over(&solve(alloc, name, method, board), text)
}

/// The same, with the certificate of the answer.
#[unsafe(no_mangle)]
pub extern "C" fn luffaknife_solve_certified(
    alloc: Global,
    name: GameName,
    method: MethodName,
    board: &[u8],
    text: &mut [u8],
    certificate: &mut [u8],
) -> Call
    ensures handed { Delivers (IsSolvedCertified name method board.now) (IsSolveRefused name method board.now) (λ told. IsHandedOverBoth told (text.old, certificate.old) (text.new, certificate.new) result) }
{
    hand_over_certified(
        &solve_certified(alloc, name, method, board),
        text,
        certificate,
    )
}

/// The answer of one search, left in memory of `malloc`'s that is the caller's from then on.
#[unsafe(no_mangle)]
pub extern "C" fn luffaknife_keep_solve(
    alloc: Global,
    name: GameName,
    method: MethodName,
    board: &[u8],
    text: &mut &'static [u8],
) -> Call
    ensures kept { Delivers (IsSolvedTold name method board.now) (IsSolveRefused name method board.now) (λ told. IsTextKept told text.old.now text.new.now result) }
{
    keep(solve(alloc, name, method, board), text)
}

/// The same, with the certificate of the answer.
#[unsafe(no_mangle)]
pub extern "C" fn luffaknife_keep_solve_certified(
    alloc: Global,
    name: GameName,
    method: MethodName,
    board: &[u8],
    text: &mut &'static [u8],
    certificate: &mut &'static [u8],
) -> Call
    ensures kept { Delivers (IsSolvedCertified name method board.now) (IsSolveRefused name method board.now) (λ told. AreBothKept told (text.old.now, certificate.old.now) (text.new.now, certificate.new.now) result) }
{
    keep_certified(
        solve_certified(alloc, name, method, board),
        text,
        certificate,
    )
}

/// The claim that a certificate proves of a board's text, as the program prints it. Nothing is searched.
#[unsafe(no_mangle)]
pub extern "C" fn luffaknife_check(
    alloc: Global,
    name: GameName,
    board: &[u8],
    certificate: &[u8],
    text: &mut [u8],
) -> Call
    ensures handed { Delivers (IsCheckTold name board.now certificate.now) (IsCheckRefused name board.now certificate.now) (λ told. IsHandedOver told text.old text.new result) }
{
    hand_over(&check_bytes(alloc, name, board, certificate), text)
}

/// The boards after the first move of a list, the second, and so on, from a board's text, as the program prints them. The text of an
/// answer is a list too: its moves.
#[unsafe(no_mangle)]
pub extern "C" fn luffaknife_replay(
    alloc: Global,
    name: GameName,
    board: &[u8],
    list: &[u8],
    text: &mut [u8],
) -> Call
    ensures handed { Delivers (IsReplayTold name board.now (moves_in list.now)) (IsReplayRefused name board.now (moves_in list.now)) (λ told. IsHandedOver told text.old text.new result) }
{
    hand_over(&replay_list(alloc, name, board, moves_in(list)), text)
}

/// The boards of a list whose entries may move several cards, one-card move by one-card move, as the program prints them.
#[unsafe(no_mangle)]
pub extern "C" fn luffaknife_replay_sequences(
    alloc: Global,
    name: GameName,
    board: &[u8],
    list: &[u8],
    text: &mut [u8],
) -> Call
    ensures handed { Delivers (IsSequencesTold name board.now (moves_in list.now)) (IsSequencesRefused name board.now (moves_in list.now)) (λ told. IsHandedOver told text.old text.new result) }
{
    hand_over(&replay_sequences(alloc, name, board, moves_in(list)), text)
}

/// Where a list of moves loses, or how good one is that wins, by best answers within a budget: the line that the program prints.
#[unsafe(no_mangle)]
pub extern "C" fn luffaknife_review(
    alloc: Global,
    name: GameName,
    budget: u32,
    board: &[u8],
    list: &[u8],
    text: &mut [u8],
) -> Call
    ensures handed { Delivers (IsReviewTold name board.now (moves_in list.now) budget) (IsReviewRefused name board.now (moves_in list.now) budget) (λ told. IsHandedOver told text.old text.new result) }
{
    hand_over(&review(alloc, name, board, moves_in(list), budget), text)
}

/// The same, left in memory of `malloc`'s that is the caller's from then on.
#[unsafe(no_mangle)]
pub extern "C" fn luffaknife_keep_review(
    alloc: Global,
    name: GameName,
    budget: u32,
    board: &[u8],
    list: &[u8],
    text: &mut &'static [u8],
) -> Call
    ensures kept { Delivers (IsReviewTold name board.now (moves_in list.now) budget) (IsReviewRefused name board.now (moves_in list.now) budget) (λ told. IsTextKept told text.old.now text.new.now result) }
{
    keep(review(alloc, name, board, moves_in(list), budget), text)
}
