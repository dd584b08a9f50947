ghost use Rattle.std.specs.Prelude.{◌≡◌, Some, None, IfOk, OnOk, string_bytes};
ghost use Rattle.serde_json.specs.Data.{object};
ghost use Rattle.serde_json.specs.Read.{read};
ghost use Rattle.serde_json.specs.View.{members_view};
ghost use Rattle.serde_json.specs.Written.{compact_text};
ghost use Rattle.fc_json.specs.Objects.{board_members, with_number, with_text};

use serde_json::{Map, Value, put};
use std::alloc::{AllocError, Global};

/// What is told of a board; what isn't there is left out.
#[derive(Clone, Copy)]
pub struct ToldBoard<'a> {
    /// The number of the deal, of a numbered one.
    pub deal: Option<u32>,
    /// What the board is called, of another one.
    pub board: Option<&'a str>,
    /// What the answer is called.
    pub answer: &'a str,
    /// How many moves the list has that wins.
    pub moves: Option<u32>,
    /// How many moves each list that wins has at least.
    pub floor: Option<u32>,
    /// The list that wins, by two letters a move.
    pub list: Option<&'a str>,
    /// The moves of it that are to be made next.
    pub hint: Option<&'a str>,
    /// How many entries of it are left to a player's hands.
    pub by_hand: Option<u64>,
    /// How many classes might be stored.
    pub budget: Option<u32>,
    /// How many classes the search stored.
    pub stored: Option<u64>,
    /// How many turns it took.
    pub turns: Option<u64>,
    /// The most entries that were open in one search; of more than 2^64 - 1, that number.
    pub most_open: Option<u64>,
    /// Why there is no answer.
    pub fault: Option<&'a str>,
}

impl<'a> ToldBoard<'a> {
    /// An answer of this name, and nothing else.
    pub fn new(answer: &'a str) -> Self
        ensures value { result ≡ record { deal = None; board = None; answer = answer.entry; moves = None; floor = None; list = None; hint = None; by_hand = None; budget = None; stored = None; turns = None; most_open = None; fault = None } }
    {
        ToldBoard {
            deal: None,
            board: None,
            answer,
            moves: None,
            floor: None,
            list: None,
            hint: None,
            by_hand: None,
            budget: None,
            stored: None,
            turns: None,
            most_open: None,
            fault: None,
        }
    }
}

/// The object, a member for each thing that is told, in the order of their names, with nothing between its parts: one line, without
/// its end.
///
/// # Errors
/// A growth of memory was refused.
pub fn object_text(alloc: Global, told: &ToldBoard<'_>) -> Result<String, AllocError>
    ensures text { IfOk result (λ s. string_bytes s ≡ compact_text (object (board_members told.now))) }
    ensures reads { IfOk result (λ s. read (string_bytes s) ≡ Some (object (board_members told.now))) }
{
    let members = board_members(alloc, told)?;
    Value::Object(members).to_string(alloc)
}

// A member for each thing that is told.
fn board_members(alloc: Global, told: &ToldBoard<'_>) -> Result<Map<String, Value>, AllocError>
    ensures members { IfOk result (λ map. members_view map.entries ≡ board_members told.now) }
{
    let mut map = Map::new(alloc);
    put_number(alloc, &mut map, "turns", told.turns)?;
    put_number(alloc, &mut map, "stored", told.stored)?;
    put_number(alloc, &mut map, "open", told.most_open)?;
    put_count(alloc, &mut map, "moves", told.moves)?;
    put_text(alloc, &mut map, "list", told.list)?;
    put_text(alloc, &mut map, "hint", told.hint)?;
    put_count(alloc, &mut map, "floor", told.floor)?;
    put_text(alloc, &mut map, "fault", told.fault)?;
    put_count(alloc, &mut map, "deal", told.deal)?;
    put_number(alloc, &mut map, "by_hand", told.by_hand)?;
    put_count(alloc, &mut map, "budget", told.budget)?;
    put_text(alloc, &mut map, "board", told.board)?;
    put_text(alloc, &mut map, "answer", Some(told.answer))?;
    Ok(map)
}

// Puts a number into an object, if there is one.
pub(crate) fn put_number(
    alloc: Global,
    map: &mut Map<String, Value>,
    name: &str,
    number: Option<u64>,
) -> Result<(), AllocError>
    ensures put { OnOk result (members_view map.new.entries ≡ with_number name.now number (members_view map.old.entries)) }
{
    match number {
        Some(number) => put(map, alloc, name, Value::from(number)),
        None => Ok(()),
    }
}

// Puts a number of 32 bits into an object, if there is one.
pub(crate) fn put_count(
    alloc: Global,
    map: &mut Map<String, Value>,
    name: &str,
    number: Option<u32>,
) -> Result<(), AllocError>
    ensures put { OnOk result (members_view map.new.entries ≡ with_number name.now number (members_view map.old.entries)) }
{
    put_number(alloc, map, name, number.map(u64::from))
}

// Puts a text into an object, if there is one.
pub(crate) fn put_text(
    alloc: Global,
    map: &mut Map<String, Value>,
    name: &str,
    text: Option<&str>,
) -> Result<(), AllocError>
    ensures put { OnOk result (members_view map.new.entries ≡ with_text name.now text.entry (members_view map.old.entries)) }
{
    match text {
        Some(text) => put(
            map,
            alloc,
            name,
            Value::from(String::from_str(alloc, text)?),
        ),
        None => Ok(()),
    }
}
