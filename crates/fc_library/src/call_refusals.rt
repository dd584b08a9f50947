ghost use Rattle.std.specs.Prelude.{◌≡◌};
ghost use Rattle.fc_library.specs.Numbers.{board_number, board_place, check_number, check_place, form_number, form_place, refusal_number, refusal_place, replay_number, replay_place};

use crate::numbers::*;
use fc_cert::CertFault;
use fc_checker::CheckFault;
use fc_replay::ReplayFault;
use fc_text::BoardFault;

/// Why a call has nothing to hand over.
#[derive(Clone, Copy, Debug, PartialEq, Eq)]
pub enum CallRefusal {
    /// No game has this name.
    Game,
    /// No deal has this number.
    Deal,
    /// The budget is outside 1 to 16,000,000, or of one search 4,000,000.
    Budget,
    /// No home rule has this number.
    Rule,
    /// No kind of bound has this number.
    Bound,
    /// So many tenths are no weight.
    Weight,
    /// No expansion has this number.
    Expansion,
    /// The text spells no board of the game.
    Board(BoardFault),
    /// A list has more than 1,048,576 bytes, or a certificate more than 1 GiB.
    TooLong,
    /// A step of a list is no move, or isn't allowed.
    Moves(ReplayFault),
    /// The entries of a list up to this step lead to more than 1,000 boards, since how many cards go to empty columns isn't told.
    TooManyWays(u32),
    /// The bytes are no certificate of the board.
    Certificate(CheckFault),
    /// A growth of memory was refused.
    Memory,
}

impl CallRefusal {
    /// The number that tells it.
    pub fn number(&self) -> u32
        ensures value { result ≡ refusal_number self.now }
    {
        match self {
            CallRefusal::Game => BAD_GAME,
            CallRefusal::Deal => BAD_DEAL,
            CallRefusal::Budget => BAD_BUDGET,
            CallRefusal::Rule => BAD_RULE,
            CallRefusal::Bound => BAD_BOUND,
            CallRefusal::Weight => BAD_WEIGHT,
            CallRefusal::Expansion => BAD_EXPANSION,
            CallRefusal::Board(fault) => board_number(fault),
            CallRefusal::TooLong => TOO_LONG,
            CallRefusal::Moves(fault) => replay_number(fault),
            CallRefusal::TooManyWays(_) => TOO_MANY_WAYS,
            CallRefusal::Certificate(fault) => check_number(fault),
            CallRefusal::Memory => NO_MEMORY,
        }
    }

    /// Where it lies: the line of a board's text, which counts from 1, or the number of a card; the step of a list, from 1; the
    /// move of a certificate, from 1, or its record, from 0; else 0.
    pub fn place(&self) -> u32
        ensures value { result ≡ refusal_place self.now }
    {
        match self {
            CallRefusal::Board(fault) => board_place(fault),
            CallRefusal::Moves(fault) => replay_place(fault),
            CallRefusal::TooManyWays(step) => *step,
            CallRefusal::Certificate(fault) => check_place(fault),
            _ => 0,
        }
    }
}

// The number that tells why a text is no board.
fn board_number(fault: &BoardFault) -> u32
    ensures value { result ≡ board_number fault.now }
{
    match fault {
        BoardFault::TooLong => BOARD_TOO_LONG,
        BoardFault::BadCard(_) => NOT_A_CARD,
        BoardFault::BadFoundation(_) => NOT_A_FOUNDATION,
        BoardFault::TooManyCells(_) => TOO_MANY_CELLS,
        BoardFault::TooManyColumns(_) => TOO_MANY_COLUMNS,
        BoardFault::RepeatedLine(_) => REPEATED_LINE,
        BoardFault::RepeatedCard(_) => REPEATED_CARD,
        BoardFault::MissingCard(_) => MISSING_CARD,
    }
}

// The line, or the card's number.
fn board_place(fault: &BoardFault) -> u32
    ensures value { result ≡ board_place fault.now }
{
    match fault {
        BoardFault::TooLong => 0,
        BoardFault::BadCard(line)
        | BoardFault::BadFoundation(line)
        | BoardFault::TooManyCells(line)
        | BoardFault::TooManyColumns(line)
        | BoardFault::RepeatedLine(line) => *line,
        BoardFault::RepeatedCard(card) | BoardFault::MissingCard(card) => u32::from(card.index()),
    }
}

// The number that tells why a list wasn't played to its end. What a list is played for is held in memory.
fn replay_number(fault: &ReplayFault) -> u32
    ensures value { result ≡ replay_number fault.now }
{
    match fault {
        ReplayFault::BadMove(_) => NOT_A_MOVE,
        ReplayFault::NotAllowed(_) => NOT_ALLOWED,
        ReplayFault::Write => NO_MEMORY,
    }
}

// The step.
fn replay_place(fault: &ReplayFault) -> u32
    ensures value { result ≡ replay_place fault.now }
{
    match fault {
        ReplayFault::BadMove(step) | ReplayFault::NotAllowed(step) => *step,
        ReplayFault::Write => 0,
    }
}

// The number that tells why bytes are no certificate of a board.
fn check_number(fault: &CheckFault) -> u32
    ensures value { result ≡ check_number fault.now }
{
    match fault {
        CheckFault::Form(fault) => form_number(fault),
        CheckFault::OtherGame => CERT_OTHER_GAME,
        CheckFault::NotAllowed(_) => CERT_NOT_ALLOWED,
        CheckFault::NotHome => CERT_NOT_HOME,
        CheckFault::StartOpen => CERT_START_OPEN,
        CheckFault::WonListed(_) => CERT_WON_LISTED,
        CheckFault::Open(_) => CERT_OPEN,
        CheckFault::Memory => NO_MEMORY,
    }
}

// The move or the record.
fn check_place(fault: &CheckFault) -> u32
    ensures value { result ≡ check_place fault.now }
{
    match fault {
        CheckFault::Form(fault) => form_place(fault),
        CheckFault::NotAllowed(place) | CheckFault::WonListed(place) | CheckFault::Open(place) => {
            *place
        }
        _ => 0,
    }
}

// The number that tells why bytes don't have the form of a certificate. Reading them writes nothing.
fn form_number(fault: &CertFault) -> u32
    ensures value { result ≡ form_number fault.now }
{
    match fault {
        CertFault::Short => CERT_SHORT,
        CertFault::BadMagic => CERT_BAD_MAGIC,
        CertFault::BadCells => CERT_BAD_CELLS,
        CertFault::BadRule => CERT_BAD_RULE,
        CertFault::BadBound => CERT_BAD_BOUND,
        CertFault::BadKind => CERT_BAD_KIND,
        CertFault::BadFloor => CERT_BAD_FLOOR,
        CertFault::BadMove(_) => CERT_BAD_MOVE,
        CertFault::BadRecord(_) => CERT_BAD_RECORD,
        CertFault::Order(_) => CERT_ORDER,
        CertFault::Label(_) => CERT_LABEL,
        CertFault::Trailing => CERT_TRAILING,
        CertFault::NotCertified | CertFault::Write | CertFault::Memory => NO_MEMORY,
    }
}

// The move or the record.
fn form_place(fault: &CertFault) -> u32
    ensures value { result ≡ form_place fault.now }
{
    match fault {
        CertFault::BadMove(place)
        | CertFault::BadRecord(place)
        | CertFault::Order(place)
        | CertFault::Label(place) => *place,
        _ => 0,
    }
}
